// The jobs that run, in a row by (start + estimate, number), and when each of them ends. `past` passes
// over whole blocks.
ghost use Rattle.std.specs.Prelude.{◌≡◌, ◌+◌, ◌<◌, ◌≤◌, ◌^◌, ◌↔◌, ℕ, [], OnOk, IfOk, IfSome, IfNone, IsNone, IsOk, All, Any, length, filter, count_by, nat_eq, nat_lt, option_copied, slice_get, sum_by, take};
ghost use Rattle.scenarios.specs.Limits.{seconds_end};
ghost use Rattle.scenarios.specs.Placed.{real_end};
ghost use Rattle.cluster_state.specs.State.{back_by, busy, placed, RisesByNumber};
ghost use Rattle.cluster_state.specs.Ends.{by_end, by_number, block_limit};
ghost use Rattle.cluster_state.specs.Capacities.{IsRest};

use crate::by_end::RunningByEnd;
use crate::ends::{End, first_end, pop_until};
use crate::runner::Runner;
use blocks::Blocks;
use scenarios::Placed;
use std::alloc::Allocator;
use std::cmp::Reverse;
use std::collections::BinaryHeap;
use std::marker::Model;
use swf_text::Memory;

#[derive(Drop)]
pub(crate) struct RunningSet<A: Allocator + Copy> {
    runners: Blocks<Runner, A>,
    ends: BinaryHeap<Reverse<End>, A>,
}

impl<A: Allocator + Copy> Model for RunningSet<A> {
    ghost use Rattle.cluster_state.specs.Capacities.{RunningView};

    ghost Value = { RunningView };

    ghost use Rattle.cluster_state.specs.Parts.{running_of, IsRunningSet};

    ghost view = { running_of };

    ghost invariant = { IsRunningSet };
}

impl<A: Allocator + Copy> RunningSet<A> {
    pub(crate) fn new(alloc: A) -> RunningSet<A>
        ensures { result.running ≡ [] }
    {
        RunningSet {
            runners: Blocks::new(alloc),
            ends: BinaryHeap::new(alloc),
        }
    }

    pub(crate) fn of(alloc: A, running: &[Placed]) -> Result<RunningSet<A>, Memory>
        requires starts { All (λ r. r.start < seconds_end) running.now }
        requires rises { RisesByNumber running.now }
        requires once { (n : ℕ) → count_by (λ r. nat_eq r.job.number n) running.now ≤ 1 }
        ensures { IfOk result (λ s. s.running ≡ running.now) }
    {
        let mut set = RunningSet::new(alloc);
        set.reserve(running.len())?;
        for r in running {
            set.join(*r);
        }
        Ok(set)
    }

    pub(crate) fn by_end(&self) -> RunningByEnd<'_, A>
        ensures runners { result ≡ by_end self.now.running }
        ensures by_number { by_number result ≡ self.now.running }
    {
        RunningByEnd::of(self.runners.iter())
    }

    pub(crate) fn at(&self, place: usize) -> Option<&Placed>
        ensures { option_copied result ≡ slice_get (by_end self.now.running) place }
    {
        let runner = self.runners.at(place)?;
        Some(&runner.placed)
    }

    pub(crate) fn past(&self, processors: u64) -> (u64, RunningByEnd<'_, A>)
        requires { 0 < processors }
        ensures rest { IsRest self.now.running result.0 result.1 }
        ensures fewer { result.0 < processors }
        ensures most { processors ≤ busy self.now.running → processors ≤ result.0 + busy (take block_limit result.1) }
    {
        let _filled = self.runners.blocks();
        let (blocks, held) = self.runners.lighter(u128::from(processors));
        let rest = RunningByEnd::of(self.runners.iter_from(blocks));
        (held as u64, rest)
    }

    pub(crate) fn back_by(&self, t: u64) -> u64
        requires { busy self.now.running < 2 ^ 64 }
        ensures value { result ≡ sum_by (back_by t) self.now.running }
        ensures most { result ≤ busy self.now.running }
    {
        self.runners.weight_before(u128::from(t) + 1, 0) as u64
    }

    pub(crate) fn len(&self) -> usize
        ensures { result ≡ length self.now.running }
    {
        self.runners.len()
    }

    pub(crate) fn spare(&self) -> usize
        ensures { result ≡ self.now.spare }
    {
        let ends = self.ends.capacity() - self.ends.len();
        self.runners.spare().min(ends)
    }

    pub(crate) fn reserve(&mut self, count: usize) -> Result<(), Memory>
        ensures running { self.new.running ≡ self.old.running }
        ensures ok { OnOk result (count ≤ self.new.spare) }
        ensures kept { self.old.spare ≤ self.new.spare }
        ensures capacity { count ≤ self.old.spare → IsOk result }
    {
        self.runners.reserve(count)?;
        self.ends.reserve(count)?;
        Ok(())
    }

    pub(crate) fn join(&mut self, r: Placed)
        requires capacity { 1 ≤ self.old.spare }
        requires start { r.start < seconds_end }
        requires absent { count_by (λ x. nat_eq x.job.number r.job.number) self.old.running ≡ 0 }
        ensures running { self.new.running ≡ placed r self.old.running }
        ensures spare { self.old.spare ≤ self.new.spare + 1 }
    {
        let end = End::of(&r);
        self.runners.insert(Runner { placed: r });
        let Ok(()) = self.ends.push(Reverse(end)) else {
            unreachable!()
        };
    }

    fn drop_next(&mut self, t: u64) -> Option<u64>
        ensures kept { IfNone result (self.new.running ≡ self.old.running) }
        ensures later { IfNone result (All (λ r. t < real_end r) self.old.running) }
        ensures fewer { IfSome result (λ _. length self.new.running < length self.old.running) }
        ensures left { IfSome result (λ _. filter (λ r. nat_lt t (real_end r)) self.new.running ≡ filter (λ r. nat_lt t (real_end r)) self.old.running) }
        ensures freed { IfSome result (λ size. size + busy self.new.running ≡ busy self.old.running) }
        ensures spare { self.old.spare ≤ self.new.spare }
    {
        let end = pop_until(&mut self.ends, t)?;
        let Some(runner) = self
            .runners
            .remove(u128::from(end.expected_end), end.number)
        else {
            unreachable!()
        };
        Some(runner.placed.job.size())
    }

    pub(crate) fn drop_until(&mut self, t: u64) -> u64
        requires { busy self.old.running < 2 ^ 64 }
        ensures running { self.new.running ≡ filter (λ r. nat_lt t (real_end r)) self.old.running }
        ensures freed { result + busy self.new.running ≡ busy self.old.running }
        ensures spare { self.old.spare ≤ self.new.spare }
    {
        let mut freed = 0;
        'ends: while let Some(size) = self.drop_next(t) {
            freed += size;
        }
        freed
    }

    pub(crate) fn next_end(&self) -> Option<u64>
        ensures none { IsNone result ↔ (self.now.running ≡ []) }
        ensures found { IfSome result (λ t. Any (λ r. real_end r ≡ t) self.now.running) }
        ensures least { IfSome result (λ t. All (λ r. t ≤ real_end r) self.now.running) }
    {
        first_end(&self.ends)
    }
}
