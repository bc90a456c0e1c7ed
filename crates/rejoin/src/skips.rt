// The counts of skipped entries after edits, from those before and the edited entries alone.
ghost use Rattle.std.specs.Prelude.{◌≡◌, ◌+◌, ◌<◌, ◌≤◌, ◌^◌, map, IfOk};
ghost use Rattle.job_table.specs.Accepted.{AreAccepted};
ghost use Rattle.job_table.specs.Edit.{edit_of, log_after};
ghost use Rattle.scenarios.specs.Skips.{skips_of};
ghost use Rattle.scenarios.specs.declared.skip.Skip.{Skip};
ghost use Rattle.scenarios.specs.declared.skip.Skip.TheVariants as reasons;
ghost use Rattle.rejoin.specs.Skips.{AreNumbersOf, count_in, skip_at, skipped_at, times};

use crate::touched::number_of;
use job_table::{Edit, JobTable};
use scenarios::{Scenario, Skip, Skips, effective};
use std::alloc::Allocator;
use std::collections::BTreeSet;
use swf_text::{ENTRY_LIMIT, Memory};

fn skip_of<A: Allocator + Copy>(
    table: &JobTable<A>,
    scenario: &Scenario,
    number: u64,
) -> Option<Skip>
    ensures { result ≡ skip_at table.now scenario.now number }
{
    let entry = table.get(number)?;
    effective(entry, scenario).err()
}

fn add(skips: &mut Skips, reason: Option<Skip>)
    requires size { skips.old.size < 2 ^ 63 }
    requires run { skips.old.run < 2 ^ 63 }
    requires large { skips.old.large < 2 ^ 63 }
    requires long { skips.old.long < 2 ^ 63 }
    ensures size { skips.new.size ≡ skips.old.size + times reasons.NoSize reason }
    ensures run { skips.new.run ≡ skips.old.run + times reasons.NoRun reason }
    ensures large { skips.new.large ≡ skips.old.large + times reasons.TooLarge reason }
    ensures long { skips.new.long ≡ skips.old.long + times reasons.TooLong reason }
{
    match reason {
        None => {}
        Some(Skip::NoSize) => skips.size += 1,
        Some(Skip::NoRun) => skips.run += 1,
        Some(Skip::TooLarge) => skips.large += 1,
        Some(Skip::TooLong) => skips.long += 1,
    }
}

fn take(skips: &mut Skips, reason: Option<Skip>)
    requires size { times reasons.NoSize reason ≤ skips.old.size }
    requires run { times reasons.NoRun reason ≤ skips.old.run }
    requires large { times reasons.TooLarge reason ≤ skips.old.large }
    requires long { times reasons.TooLong reason ≤ skips.old.long }
    ensures size { skips.new.size + times reasons.NoSize reason ≡ skips.old.size }
    ensures run { skips.new.run + times reasons.NoRun reason ≡ skips.old.run }
    ensures large { skips.new.large + times reasons.TooLarge reason ≡ skips.old.large }
    ensures long { skips.new.long + times reasons.TooLong reason ≡ skips.old.long }
{
    match reason {
        None => {}
        Some(Skip::NoSize) => skips.size -= 1,
        Some(Skip::NoRun) => skips.run -= 1,
        Some(Skip::TooLarge) => skips.large -= 1,
        Some(Skip::TooLong) => skips.long -= 1,
    }
}

fn with_all<A: Allocator + Copy>(
    skips: Skips,
    numbers: &BTreeSet<u64, A>,
    table: &JobTable<A>,
    scenario: &Scenario,
) -> Skips
    requires { (k : Skip) → count_in skips k + skipped_at k table.now scenario.now numbers.now.keys < 2 ^ 63 }
    ensures { (k : Skip) → count_in result k ≡ count_in skips k + skipped_at k table.now scenario.now numbers.now.keys }
{
    let mut counts = skips;
    'numbers: for number in numbers {
        add(&mut counts, skip_of(table, scenario, *number));
    }
    counts
}

fn without_all<A: Allocator + Copy>(
    skips: Skips,
    numbers: &BTreeSet<u64, A>,
    table: &JobTable<A>,
    scenario: &Scenario,
) -> Skips
    requires { (k : Skip) → skipped_at k table.now scenario.now numbers.now.keys ≤ count_in skips k }
    ensures { (k : Skip) → count_in result k + skipped_at k table.now scenario.now numbers.now.keys ≡ count_in skips k }
{
    let mut counts = skips;
    'numbers: for number in numbers {
        take(&mut counts, skip_of(table, scenario, *number));
    }
    counts
}

fn numbers_of<A: Allocator + Copy>(alloc: A, edits: &[Edit<A>]) -> Result<BTreeSet<u64, A>, Memory>
    ensures { IfOk result (λ numbers. AreNumbersOf (map edit_of edits.now) numbers.keys) }
{
    let mut numbers = BTreeSet::new(alloc);
    for edit in edits {
        numbers.insert(number_of(edit))?;
    }
    Ok(numbers)
}

pub(crate) fn skips_after<A: Allocator + Copy>(
    alloc: A,
    skips: Skips,
    old: &JobTable<A>,
    edits: &[Edit<A>],
    new: &JobTable<A>,
    scenario: &Scenario,
) -> Result<Skips, Memory>
    requires counts { skips ≡ skips_of old.now scenario.now }
    requires accepted { AreAccepted old.now (map edit_of edits.now) }
    requires edited { new.now ≡ log_after old.now (map edit_of edits.now) }
    ensures { IfOk result (λ after. after ≡ skips_of new.now scenario.now) }
{
    prove!(old.len() <= ENTRY_LIMIT);
    let numbers = numbers_of(alloc, edits)?;
    let more = with_all(skips, &numbers, new, scenario);
    Ok(without_all(more, &numbers, old, scenario))
}
