ghost use Rattle.scripts.specs.FirstSchedule.{SchedulesTheFirst};
ghost use Rattle.scripts.specs.Laws.{EachScenarioIsAdded, LinesAreOne, TranscriptsAreOne, TranscriptsAreSome};
ghost use Rattle.scripts.specs.Lifting.{LinesLift};

use crate::lifting::Lifting;
use std::alloc::Allocator;

/// Where no memory is refused, the transcript of a script follows from the state of the book that it
/// begins with, the comments and its bytes: a line has at most one response and leads to at most one
/// state, and a script has at most one transcript. Each such one is among those that `run_lines` and
/// `run_live` may write.
pub fn unrefused_transcripts_are_one<A: Allocator>()
    ensures line { LinesAreOne A }
    ensures one { TranscriptsAreOne A }
    ensures some { TranscriptsAreSome A }
{}

/// The book with which a script on a log begins has each scenario that the log is opened with, under
/// its id: none is refused.
pub fn each_scenario_is_added()
    ensures { EachScenarioIsAdded }
{}

/// Where no memory is refused, a script of the two lines `settle` and `schedule NAME`, with the name of
/// the first scenario, on the book of a log that was opened, yields `settled 0` and the schedule of the
/// log under that scenario.
pub fn the_first_schedule<A: Allocator>()
    ensures { SchedulesTheFirst A }
{}

/// Where the rules of one analyst lead to those of another, a transcript of a script by the first is one
/// by the second.
pub fn transcripts_lift<L: Lifting, A: Allocator>()
    ensures { LinesLift L.outcome L.known L.at L.Inv L.Good A }
{}
