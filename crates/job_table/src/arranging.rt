ghost use Rattle.std.specs.Prelude.{◌≡◌, ◌↔◌, IsTrue, OnOk, map};
ghost use Rattle.swf_text.specs.Log.{IsLog, log_of};
ghost use Rattle.job_table.specs.Table.{AreInOrder, pair_before, pair_of};

use chunks::Numbered;
use std::alloc::Allocator;
use swf_text::{Entry, Memory};

fn comes_before(one: &Numbered, other: &Numbered) -> bool
    ensures { result ≡ pair_before one.now other.now }
{
    one.submit < other.submit || (one.submit == other.submit && one.number < other.number)
}

fn are_in_order(pairs: &[Numbered]) -> bool
    ensures { IsTrue result ↔ AreInOrder pairs.now }
{
    pairs.is_sorted_by(|one, next| comes_before(one, next))
}

// Entries that stand in order are not looked at, and no memory is taken.
pub(crate) fn arrange<A: Allocator + Copy>(
    entries: &mut Vec<Entry<A>, A>,
    pairs: &[Numbered],
) -> Result<(), Memory>
    requires log { IsLog entries.old.items }
    requires pairs { pairs.now ≡ map pair_of entries.old.items }
    ensures { OnOk result (entries.new.items ≡ log_of entries.old.items) }
{
    if are_in_order(pairs) {
        return Ok(());
    }
    entries.sort_by_key(|entry| (entry.submit(), entry.number()))?;
    Ok(())
}
