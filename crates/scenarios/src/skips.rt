ghost use Rattle.std.specs.Prelude.{◌≡◌, ◌+◌, ◌≤◌, ◌<◌, ◌^◌, ◌∷◌, [], length};
ghost use Rattle.swf_text.specs.Limits.{entry_limit};
ghost use Rattle.scenarios.specs.Skips.{count_of, skips_of};
ghost use Rattle.scenarios.specs.declared.skip.Skip.TheVariants as reasons;

use crate::entry_job::effective;
use crate::scenario::Scenario;
use crate::skip::Skip;
use job_table::Cursor;
use std::alloc::Allocator;

/// How many entries of a log were skipped, by reason.
#[derive(Clone, Copy, Debug, PartialEq, Eq)]
pub struct Skips {
    /// Entries with no size.
    pub size: u64,
    /// Entries with no run time.
    pub run: u64,
    /// Entries that are too large for the machine.
    pub large: u64,
    /// Entries whose estimate is too long.
    pub long: u64,
}

fn add_skip(skips: &mut Skips, reason: Skip)
    requires size { skips.old.size < 2 ^ 32 }
    requires run { skips.old.run < 2 ^ 32 }
    requires large { skips.old.large < 2 ^ 32 }
    requires long { skips.old.long < 2 ^ 32 }
    ensures size { skips.new.size ≡ skips.old.size + count_of reasons.NoSize (reason ∷ []) }
    ensures run { skips.new.run ≡ skips.old.run + count_of reasons.NoRun (reason ∷ []) }
    ensures large { skips.new.large ≡ skips.old.large + count_of reasons.TooLarge (reason ∷ []) }
    ensures long { skips.new.long ≡ skips.old.long + count_of reasons.TooLong (reason ∷ []) }
{
    match reason {
        Skip::NoSize => skips.size += 1,
        Skip::NoRun => skips.run += 1,
        Skip::TooLarge => skips.large += 1,
        Skip::TooLong => skips.long += 1,
    }
}

pub(crate) fn skips_among<A: Allocator + Copy>(
    mut entries: Cursor<'_, A>,
    scenario: &Scenario,
) -> Skips
    requires { length entries ≤ entry_limit }
    ensures { result ≡ skips_of entries.entry scenario.now }
{
    let mut skips = Skips {
        size: 0,
        run: 0,
        large: 0,
        long: 0,
    };
    'entries: while let Some(entry) = entries.next() {
        let Err(reason) = effective(entry, scenario) else {
            continue;
        };
        add_skip(&mut skips, reason);
    }
    skips
}
