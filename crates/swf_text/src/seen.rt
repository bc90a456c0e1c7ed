ghost use Rattle.std.specs.Prelude.{◌≡◌, ◌||◌, ◌<◌, ℕ, length, OnOk, OnErr, IsTrue, nat_eq, slice_index_or, false};
ghost use Rattle.std.specs.List.{list_any};
ghost use Rattle.swf_text.specs.Seen.{AreRising, has_seen};

use std::alloc::{AllocFailed, Allocator};
use std::collections::BTreeSet;

/// The job numbers of the entries that were read. Those of most logs rise, and need no tree.
#[derive(Drop)]
pub(crate) struct SeenNumbers<A: Allocator + Copy> {
    rising: Vec<u64, A>,
    others: BTreeSet<u64, A>,
}

fn is_greater(rising: &[u64], number: u64) -> bool
    requires { AreRising rising.now }
    ensures { IsTrue result → (k : ℕ) → k < length rising.now → slice_index_or rising.now k 0 < number }
{
    match rising.last() {
        Some(last) => *last < number,
        None => true,
    }
}

fn is_among(rising: &[u64], number: u64) -> bool
    requires { AreRising rising.now }
    ensures { result ≡ list_any (λ m. nat_eq m number) rising.now }
{
    if is_greater(rising, number) {
        return false;
    }
    rising.binary_search(&number).is_ok()
}

impl<A: Allocator + Copy> SeenNumbers<A> {
    pub(crate) fn new(alloc: A) -> SeenNumbers<A>
        ensures none { (n : ℕ) → has_seen result.rising.items result.others n ≡ false }
        ensures rising { AreRising result.rising.items }
    {
        SeenNumbers {
            rising: Vec::new(alloc),
            others: BTreeSet::new(alloc),
        }
    }

    pub(crate) fn contains(&self, number: u64) -> bool
        requires { AreRising self.now.rising.items }
        ensures { result ≡ has_seen self.now.rising.items self.now.others number }
    {
        is_among(self.rising.as_slice(), number) || self.others.contains(&number)
    }

    pub(crate) fn insert(&mut self, number: u64) -> Result<(), AllocFailed<u64>>
        requires { AreRising self.old.rising.items }
        ensures rising { AreRising self.new.rising.items }
        ensures added { OnOk result ((n : ℕ) → has_seen self.new.rising.items self.new.others n ≡ (nat_eq number n || has_seen self.old.rising.items self.old.others n)) }
        ensures kept { OnErr result ((n : ℕ) → has_seen self.new.rising.items self.new.others n ≡ has_seen self.old.rising.items self.old.others n) }
    {
        if is_greater(self.rising.as_slice(), number) {
            return self.rising.push(number);
        }
        self.others.insert(number)?;
        Ok(())
    }
}
