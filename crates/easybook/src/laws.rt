ghost use Rattle.easybook.specs.Forms.{JoinedSpacingChooses, JoinedWordChooses, NextSpacingChooses, NextWordChooses, NoWordChooses, JoinedWorkersChoose, LiveIsChosen, LogIsChosen, ScriptsAreChosen, TwiceIsBad};
ghost use Rattle.easybook.specs.Unrefused.{ItIsAnAnswer, PlainRunsAreScripts, ThereIsOneAnswer};

use std::alloc::Allocator;

/// What words choose, form by form: the program's name alone no log, no machine, and 256 event
/// seconds to a segment; `--procs=N` and, where N is digits, `--procs N` the number that the digits
/// of N spell, from 1 to 16,777,216, while any other N is bad; `--spacing` likewise, from 1 to
/// 65,536; `--workers=N` so from 1 to 64; and each `--script=FILE` names a script, in their order.
/// `--procs`, `--spacing` and `--workers` are bad where they are given twice.
pub fn words_law()
    ensures none { NoWordChooses }
    ensures joined { JoinedWordChooses }
    ensures apart { NextWordChooses }
    ensures joined_spacing { JoinedSpacingChooses }
    ensures spacing_apart { NextSpacingChooses }
    ensures workers { JoinedWorkersChoose }
    ensures scripts { ScriptsAreChosen }
    ensures twice { TwiceIsBad }
{}

/// What words choose that name a log: the file that the word is, where it begins with `/` or `./`, or is
/// `month.swf`, while two words that begin with `./` are bad. `--live` beside such a one chooses a
/// conversation on it; without a log, and beside a script, it is bad.
pub fn log_words_law()
    ensures log { LogIsChosen }
    ensures live { LiveIsChosen }
{}

/// Where no memory is refused, the transcript of a script on a log follows from the bytes of both and the
/// machine that is named: there is at most one, and it is one of those that `run_alone` may write.
pub fn script_law<A: Allocator>()
    ensures one { ThereIsOneAnswer A }
    ensures answer { ItIsAnAnswer A }
{}

/// Where no memory is refused, what `run_plain` writes of a log is what a script of the two lines
/// `settle` and `schedule NAME`, with the name of the log's first scenario, yields behind its first line,
/// `settled 0`.
pub fn plain_run_law<A: Allocator>()
    ensures { PlainRunsAreScripts A }
{}
