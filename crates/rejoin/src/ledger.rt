// In what the starts of two simulations differ. `was` has those of the old one whose numbers have none in the
// new one yet, and `is` the reverse; from `until` on nobody runs any more who started in both at different
// seconds. Of touched numbers, `started` counts the starts in both, and from `ended` on none of their jobs
// runs any more; a new ledger counts those `submitted` before it as started and ended.
ghost use Rattle.std.specs.Prelude.{◌≡◌, ◌≤◌, ◌<◌, ◌+◌, ◌-◌, ◌^◌, ◌++◌, ◌∷◌, [], ℕ, List, All, None, Some, nat_eq, is_none, ◌&&◌, ◌↔◌, max, min, if◌then◌else◌, IfOk, OnOk, IsTrue};
ghost use Rattle.std.specs.Ordering.{nat_cmp};
ghost use Rattle.std.specs.BTreeMap.{get};
ghost use Rattle.easy_rule.specs.declared.start.Start.{Start as StartView};
ghost use Rattle.timeline.specs.Ledger.{ledger_of};
ghost use Rattle.rejoin.specs.Noted.{AreStarts, Keeps, HasNone};
ghost use Rattle.rejoin.specs.Started.{among, starts_of, EachHasEnded};

use crate::change::Change;
use crate::own_starts::note_touched;
use easy_rule::Start;
use std::alloc::Allocator;
use std::collections::BTreeMap;
use swf_text::Memory;

pub(crate) type Seconds<A> = BTreeMap<u64, u64, A>;

#[derive(Drop)]
pub(crate) struct Ledger<A: Allocator + Copy> {
    was: Seconds<A>,
    is: Seconds<A>,
    until: u64,
    started: usize,
    ended: u64,
}

fn exchange<A: Allocator + Copy>(
    here: &mut Seconds<A>,
    there: &mut Seconds<A>,
    number: u64,
    at: u64,
) -> Result<Option<u64>, Memory>
    ensures other { IfOk result (λ other. other ≡ get nat_cmp there.old number) }
    ensures there { OnOk result ((n : ℕ) → get nat_cmp there.new n ≡ if nat_eq number n then None else get nat_cmp there.old n) }
    ensures here { IfOk result (λ other. (n : ℕ) → get nat_cmp here.new n ≡ if nat_eq number n && is_none other then Some at else get nat_cmp here.old n) }
{
    match there.remove(&number) {
        None => {
            here.insert(number, at)?;
            Ok(None)
        }
        Some(other) => Ok(Some(other)),
    }
}

fn has_none<A: Allocator + Copy>(seconds: &Seconds<A>) -> bool
    ensures { IsTrue result ↔ HasNone seconds.now }
{
    seconds.is_empty()
}

fn note<A: Allocator + Copy>(
    change: &Change<'_, A>,
    start: Start,
    here: &mut Seconds<A>,
    there: &mut Seconds<A>,
) -> Result<u64, Memory>
    ensures { IfOk result (λ apart. (from until : ℕ) (starts others : List StartView) → AreStarts (among change.now.touched) change.now.is.jobs (starts ++ start ∷ []) → All (λ x. x.at < 2 ^ 49) others
        → Keeps from (ledger_of (among change.now.touched) change.now.is.jobs starts others) here.old there.old until
        → Keeps from (ledger_of (among change.now.touched) change.now.is.jobs (starts ++ start ∷ []) others) here.new there.new (max until apart)) }
{
    if change.is_touched(start.number) {
        return Ok(0);
    }
    match exchange(here, there, start.number, start.at)? {
        None => Ok(0),
        Some(other) => Ok(change.apart_until(start.number, start.at, other)),
    }
}

fn note_all<A: Allocator + Copy>(
    change: &Change<'_, A>,
    new: &[Start],
    here: &mut Seconds<A>,
    there: &mut Seconds<A>,
    until: &mut u64,
) -> Result<(), Memory>
    ensures { OnOk result ((from : ℕ) (starts others : List StartView) → AreStarts (among change.now.touched) change.now.is.jobs (starts ++ new.now) → All (λ x. x.at < 2 ^ 49) others
        → Keeps from (ledger_of (among change.now.touched) change.now.is.jobs starts others) here.old there.old until.old
        → Keeps from (ledger_of (among change.now.touched) change.now.is.jobs (starts ++ new.now) others) here.new there.new until.new) }
{
    for start in new {
        let apart = note(change, *start, here, there)?;
        *until = (*until).max(apart);
    }
    Ok(())
}

impl<A: Allocator + Copy> Ledger<A> {
    pub(crate) fn new(alloc: A, submitted: usize) -> Ledger<A>
        ensures was { HasNone result.was }
        ensures is { HasNone result.is }
        ensures until { result.until ≡ 0 }
        ensures started { result.started ≡ submitted }
        ensures ended { result.ended ≡ 0 }
    {
        Ledger {
            was: BTreeMap::new(alloc),
            is: BTreeMap::new(alloc),
            until: 0,
            started: submitted,
            ended: 0,
        }
    }

    pub(crate) fn note_old(
        &mut self,
        change: &Change<'_, A>,
        starts: &[Start],
    ) -> Result<(), Memory>
        ensures others { OnOk result ((from : ℕ) (old others : List StartView) → AreStarts (among change.now.touched) change.now.is.jobs (old ++ starts.now) → All (λ x. x.at < 2 ^ 49) others
            → Keeps from (ledger_of (among change.now.touched) change.now.is.jobs old others) self.old.was self.old.is self.old.until
            → Keeps from (ledger_of (among change.now.touched) change.now.is.jobs (old ++ starts.now) others) self.new.was self.new.is self.new.until) }
        ensures started { OnOk result (self.new.started ≡ min (self.old.started + starts_of change.now.touched starts.now) (2 ^ 64 - 1)) }
        ensures ended { OnOk result (All (λ x. x.at < 2 ^ 49) starts.now → (t : ℕ) → (self.new.ended ≤ t) ↔ ((self.old.ended ≤ t) × EachHasEnded change.now.touched change.now.was.jobs starts.now t)) }
    {
        note_all(change, starts, &mut self.was, &mut self.is, &mut self.until)?;
        let plan = change.old_plan();
        note_touched(change, &plan, starts, &mut self.started, &mut self.ended);
        Ok(())
    }

    pub(crate) fn note_new(
        &mut self,
        change: &Change<'_, A>,
        starts: &[Start],
    ) -> Result<(), Memory>
        ensures others { OnOk result ((from : ℕ) (new others : List StartView) → AreStarts (among change.now.touched) change.now.is.jobs (new ++ starts.now) → All (λ x. x.at < 2 ^ 49) others
            → Keeps from (ledger_of (among change.now.touched) change.now.is.jobs others new) self.old.was self.old.is self.old.until
            → Keeps from (ledger_of (among change.now.touched) change.now.is.jobs others (new ++ starts.now)) self.new.was self.new.is self.new.until) }
        ensures started { OnOk result (self.new.started ≡ min (self.old.started + starts_of change.now.touched starts.now) (2 ^ 64 - 1)) }
        ensures ended { OnOk result (All (λ x. x.at < 2 ^ 49) starts.now → (t : ℕ) → (self.new.ended ≤ t) ↔ ((self.old.ended ≤ t) × EachHasEnded change.now.touched change.now.is.jobs starts.now t)) }
    {
        note_all(change, starts, &mut self.is, &mut self.was, &mut self.until)?;
        let plan = change.plan();
        note_touched(change, &plan, starts, &mut self.started, &mut self.ended);
        Ok(())
    }

    pub(crate) fn has_met(&self, second: u64) -> bool
        ensures { IsTrue result ↔ (HasNone self.now.was × HasNone self.now.is × (self.now.until ≤ second)) }
    {
        has_none(&self.was) && has_none(&self.is) && self.until <= second
    }

    pub(crate) fn has_ended(&self, submitted: usize, second: u64) -> bool
        ensures { IsTrue result ↔ ((submitted ≤ self.now.started) × (self.now.ended ≤ second)) }
    {
        submitted <= self.started && self.ended <= second
    }
}
