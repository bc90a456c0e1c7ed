// An old run, a new plan, and the numbers in which they differ, with their submit seconds. `reuses` goes by a
// ledger of the starts before an old segment: no touched number waits or runs right before its first second
// where each that is submitted before it has started and ended.
ghost use Rattle.std.specs.Prelude.{◌≡◌, ◌<◌, ◌+◌, ◌^◌, ◌↔◌, ◌∷◌, List, length, drop, map, IsTrue, IfOk};
ghost use Rattle.std.specs.Arc.{arc_value};
ghost use Rattle.job_table.specs.Accepted.{AreAccepted};
ghost use Rattle.job_table.specs.Edit.{edit_of, log_after};
ghost use Rattle.scenarios.specs.Job.{EffectiveJob};
ghost use Rattle.scenarios.specs.Plan.{plan_of, job_numbered};
ghost use Rattle.scenarios.specs.PlanView.{plan_in};
ghost use Rattle.cluster_state.specs.Snapshot.{numbers_of};
ghost use Rattle.easy_rule.specs.Simulation.{before};
ghost use Rattle.event_loop.specs.Events.{begun};
ghost use Rattle.timeline.specs.Ledger.{apart_until};
ghost use Rattle.checkpoints.specs.Segment.{SegmentView};
ghost use Rattle.rejoin.specs.Reused.{next_first, IsReused, MayBegin};
ghost use Rattle.rejoin.specs.Noted.{IsNoted};
ghost use Rattle.rejoin.specs.Started.{among, count_before};
ghost use Rattle.rejoin.specs.Rejoining.{IsChange, IsClear};

use crate::ledger::Ledger;
use crate::search::{count_below, is_among};
use crate::stretch::none_within;
use crate::touched::{touched_numbers, touched_submits};
use checkpoints::{Run, Segment};
use event_loop::Engine;
use job_table::Edit;
use scenarios::{Plan, PlanRef};
use std::alloc::Allocator;
use std::marker::Model;
use std::sync::Arc;
use swf_text::Memory;

#[derive(Drop)]
pub(crate) struct Change<'a, A: Allocator + Copy> {
    run: &'a Run<A>,
    segments: &'a [Arc<Segment<A>, A>],
    plan: &'a Plan<A>,
    touched: Vec<u64, A>,
    submits: Vec<u64, A>,
}

impl<'a, A: Allocator + Copy> Model for Change<'a, A> {
    ghost use Rattle.std.specs.Prelude.{map};
    ghost use Rattle.std.specs.Arc.{arc_value};
    ghost use Rattle.scenarios.specs.Plan.{plan_of};
    ghost use Rattle.scenarios.specs.PlanView.{plan_in};
    ghost use Rattle.rejoin.specs.Rejoining.{ChangeView, IsChange};

    ghost Value = { ChangeView };

    ghost view = { λ c. record { was = plan_of c.run.now.log c.run.now.scenario; is = plan_in c.plan.now; old = map arc_value c.segments.now; touched = c.touched.items; submits = c.submits.items } };

    ghost invariant = { λ c. IsChange (record { was = plan_of c.run.now.log c.run.now.scenario; is = plan_in c.plan.now; old = map arc_value c.segments.now; touched = c.touched.items; submits = c.submits.items }) };
}

fn are_all(first: bool, second: bool, third: bool) -> bool
    ensures { IsTrue result ↔ (IsTrue first × IsTrue second × IsTrue third) }
{
    first && second && third
}

impl<'a, A: Allocator + Copy> Change<'a, A> {
    pub(crate) fn new(
        alloc: A,
        run: &'a Run<A>,
        edits: &[Edit<A>],
        plan: &'a Plan<A>,
    ) -> Result<Change<'a, A>, Memory>
        requires accepted { AreAccepted run.now.log (map edit_of edits.now) }
        requires table { plan.now.log ≡ log_after run.now.log (map edit_of edits.now) }
        requires scenario { plan.now.scenario ≡ run.now.scenario }
        ensures was { IfOk result (λ c. c.was ≡ plan_of run.now.log run.now.scenario) }
        ensures is { IfOk result (λ c. c.is ≡ plan_in plan.now) }
        ensures old { IfOk result (λ c. c.old ≡ run.now.segments) }
        ensures sound { IfOk result IsChange }
    {
        let old_plan = run.plan().view();
        let new_plan = plan.view();
        let touched = touched_numbers(alloc, &old_plan, edits, &new_plan)?;
        let submits = touched_submits(alloc, &old_plan, &new_plan, touched.as_slice())?;
        Ok(Change {
            run,
            segments: run.segments(),
            plan,
            touched,
            submits,
        })
    }

    pub(crate) fn old_plan(&self) -> PlanRef<'_, A>
        ensures plan { plan_in result ≡ self.now.was }
    {
        self.run.plan().view()
    }

    pub(crate) fn plan(&self) -> PlanRef<'_, A>
        ensures plan { plan_in result ≡ self.now.is }
    {
        self.plan.view()
    }

    pub(crate) fn len(&self) -> usize
        ensures count { result ≡ length self.now.old }
        ensures sound { IsChange self.now }
    {
        self.segments.len()
    }

    pub(crate) fn first(&self, at: usize) -> Option<u64>
        ensures first { result ≡ next_first (drop at self.now.old) }
        ensures sound { IsChange self.now }
    {
        if at >= self.len() {
            return None;
        }
        Some(self.segment(at).first())
    }

    pub(crate) fn segment(&self, at: usize) -> &Arc<Segment<A>, A>
        requires { at < length self.now.old }
        ensures here { drop at self.now.old ≡ arc_value result.now ∷ drop (at + 1) self.now.old }
        ensures next { at + 1 < 2 ^ 64 }
        ensures sound { IsChange self.now }
    {
        let segments = self.segments;
        &segments[at]
    }

    pub(crate) fn is_clear(&self, at: usize) -> bool
        requires { at < length self.now.old }
        ensures { (s : SegmentView) (rest : List SegmentView) → drop at self.now.old ≡ s ∷ rest → IsTrue result ↔ IsClear self.now.was self.now.is s.first (next_first rest) }
    {
        let first = self.segment(at).first();
        none_within(self.submits.as_slice(), first, self.first(at + 1))
    }

    pub(crate) fn is_touched(&self, number: u64) -> bool
        ensures { result ≡ among self.now.touched number }
    {
        is_among(self.touched.as_slice(), number)
    }

    pub(crate) fn apart_until(&self, number: u64, at: u64, other: u64) -> u64
        ensures { (job : EffectiveJob) → job_numbered self.now.is.jobs number ≡ Some job → at < 2 ^ 49 → other < 2 ^ 49 → result ≡ apart_until job (Some at) (Some other) }
    {
        if at == other {
            return 0;
        }
        match self.plan().job(number) {
            None => 0,
            Some(job) => at.max(other).saturating_add(job.length()).saturating_add(1),
        }
    }

    pub(crate) fn submitted_before(&self, second: u64) -> usize
        ensures count { result ≡ count_before second self.now.submits }
        ensures small { result < 2 ^ 64 }
        ensures sound { IsChange self.now }
    {
        count_below(self.submits.as_slice(), second)
    }

    pub(crate) fn reuses(&self, at: usize, position: u64, ledger: &Ledger<A>) -> bool
        requires within { at < length self.now.old }
        requires begins { MayBegin self.now.is position }
        requires here { (s : SegmentView) (rest : List SegmentView) → drop at self.now.old ≡ s ∷ rest → position ≡ s.first }
        requires noted { IsNoted self.now at position ledger.now }
        ensures reused { (s : SegmentView) (rest : List SegmentView) → drop at self.now.old ≡ s ∷ rest → IsTrue result ↔ IsReused self.now.was self.now.is s.first (next_first rest) }
    {
        let submitted = self.submitted_before(position);
        let met = ledger.has_met(position);
        let ended = ledger.has_ended(submitted, position);
        let clear = self.is_clear(at);
        are_all(met, ended, clear)
    }

    pub(crate) fn begin(&self, alloc: A) -> Result<Engine<A>, Memory>
        ensures sound { IsChange self.now }
        ensures ok { IfOk result (λ e. e ≡ begun self.now.is 0) }
    {
        Ok(Engine::new(alloc, self.plan.copy()?))
    }

    pub(crate) fn resume(&self, alloc: A, at: usize) -> Result<Engine<A>, Memory>
        requires within { at < length self.now.old }
        requires snapshot { (s : SegmentView) (rest : List SegmentView) → drop at self.now.old ≡ s ∷ rest → s.before ≡ numbers_of (before self.now.is s.first) }
        ensures ok { IfOk result (λ e. (s : SegmentView) (rest : List SegmentView) → drop at self.now.old ≡ s ∷ rest → e ≡ begun self.now.is s.first) }
    {
        let old = self.segment(at);
        let plan = self.plan.copy()?;
        let engine = Engine::resume(alloc, old.before(), old.first(), plan)?;
        Ok(engine)
    }
}
