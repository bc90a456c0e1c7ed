//! How an engine goes on: it works event seconds, one, or all before a second, or all that are left.
ghost use Rattle.std.specs.Prelude.{◌≡◌, ◌+◌, ◌++◌, ◌≤◌, ◌<◌, [], Some, None, IfOk, OnOk, OnErr, IfSome, IfErr, IfNone, MatchOption, true, false};
ghost use Rattle.easy_rule.specs.Simulation.{starts_before, starts_in, sim};
ghost use Rattle.scenarios.specs.SoundPlan.{IsPlan};
ghost use Rattle.timeline.specs.Laws.{IsQuiet};
ghost use Rattle.event_loop.specs.Events.{IsNextEvent};
ghost use Rattle.event_loop.specs.Going.{IsStepFault, IsTellFault, IsRunFault, IsRunOn, IsLast};
ghost use Rattle.event_loop.specs.Stepped.{StartIn};

use crate::arriving::arrive_and_decide;
use crate::engine::Engine;
use crate::fault::EngineFault;
use crate::last_shadow::standing_at;
use crate::stepped::Stepped;
use easy_rule::{Start, add_starts};
use scenarios::Job;
use std::alloc::Allocator;
use swf_text::Memory;

impl<A: Allocator + Copy> Engine<A> {
    /// Works the next event second, where there is one.
    ///
    /// Failed in an engine that has failed. Memory where a growth was refused; the engine has failed
    /// then, with that second not worked, or worked whole where it is the list of starts that found no
    /// capacity.
    pub fn step(&mut self) -> Result<Option<Stepped<A>>, EngineFault>
        ensures none { IfOk result (λ o. IfNone o ((self.old.failed ≡ false) × IsNextEvent self.old.plan self.old.position None × (self.new ≡ self.old))) }
        ensures some { IfOk result (λ o. IfSome o (λ s. (self.old.failed ≡ false) × IsNextEvent self.old.plan self.old.position (Some s.second) × (s.starts ≡ starts_in self.old.plan s.second) × (self.new ≡ record self.old { position = s.second + 1; handled = self.old.handled + 1 }))) }
        ensures fault { IfErr result (λ f. IsTellFault self.old self.new f) }
    {
        let mut started = Vec::new(self.alloc);
        let Some(second) = self.step_into(&mut started)? else {
            return Ok(None);
        };
        let mut starts = Vec::new(self.alloc);
        let Ok(()) = add_starts(&mut starts, started.as_slice(), second) else {
            self.failed = true;
            return Err(EngineFault::Memory);
        };
        Ok(Some(Stepped::new(second, starts)))
    }

    /// Works the next event second, where there is one, as `step` does, and returns it. The jobs that
    /// start at it are left, in order, in a lent list; what was in it before is forgotten, and it is
    /// empty where no second was worked.
    ///
    /// Of the list, it takes memory only where there is no capacity for as many jobs as can start at
    /// once. Failed in an engine that has failed. Memory where a growth was refused; the engine has
    /// failed then, with that second not worked.
    pub fn step_into(&mut self, started: &mut Vec<Job, A>) -> Result<Option<u64>, EngineFault>
        ensures none { IfOk result (λ o. IfNone o ((self.old.failed ≡ false) × IsNextEvent self.old.plan self.old.position None × (self.new ≡ self.old))) }
        ensures some { IfOk result (λ o. IfSome o (λ t. (self.old.failed ≡ false) × IsNextEvent self.old.plan self.old.position (Some t) × (self.new ≡ record self.old { position = t + 1; handled = self.old.handled + 1 }))) }
        ensures plan { IsPlan self.old.plan }
        ensures started { IfOk result (λ o. MatchOption o (started.new.items ≡ []) (λ t. StartIn self.old.plan t started.new.items)) }
        ensures fault { IfErr result (λ f. IsStepFault self.old self.new f) }
        ensures empty { OnErr result (started.new.items ≡ []) }
    {
        started.clear();
        if self.failed {
            return Err(EngineFault::Failed);
        }
        let Some(second) = self.next_event() else {
            return Ok(None);
        };
        self.work(second, started)?;
        Ok(Some(second))
    }

    /// Works each event second before `second`, and returns the starts in order.
    ///
    /// Failed in an engine that has failed. Memory where a growth was refused; the engine has failed
    /// then, one past the last event second that it worked whole, and never past `second`. A second
    /// is worked whole once its jobs have ended, arrived and started, whether or not its starts
    /// found capacity in the list.
    pub fn advance_to(&mut self, second: u64) -> Result<Vec<Start, A>, EngineFault>
        requires { self.old.position ≤ second }
        ensures position { OnOk result (self.new.position ≡ second) }
        ensures within { self.new.position ≤ second }
        ensures starts { IfOk result (λ starts. IsRunOn self.old self.new starts.items) }
        ensures fault { IfErr result (λ f. IsRunFault self.old self.new f) }
    {
        let starts = self.work_until(second)?;
        self.position = second;
        Ok(starts)
    }

    /// Works all event seconds that are left, and returns the starts in order.
    ///
    /// Failed in an engine that has failed. Memory where a growth was refused; the engine has failed
    /// then, as in `advance_to` one past the last event second that it worked whole.
    pub fn finish(&mut self) -> Result<Vec<Start, A>, EngineFault>
        ensures done { OnOk result (IsNextEvent self.new.plan self.new.position None) }
        ensures all { IfOk result (λ starts. starts_before self.old.plan self.old.position ++ starts.items ≡ sim self.old.plan) }
        ensures starts { IfOk result (λ starts. IsRunOn self.old self.new starts.items) }
        ensures last { OnOk result (IsLast self.old self.new) }
        ensures fault { IfErr result (λ f. IsRunFault self.old self.new f) }
    {
        prove!(self.position() <= u64::MAX);
        let starts = self.work_until(u64::MAX)?;
        Ok(starts)
    }

    fn work_until(&mut self, end: u64) -> Result<Vec<Start, A>, EngineFault>
        requires { self.old.position ≤ end }
        ensures plan { IsPlan self.old.plan }
        ensures quiet { OnOk result (IsQuiet self.old.plan self.new.position end) }
        ensures within { self.new.position ≤ end }
        ensures starts { IfOk result (λ starts. IsRunOn self.old self.new starts.items) }
        ensures last { OnOk result (IsLast self.old self.new) }
        ensures fault { IfErr result (λ f. IsRunFault self.old self.new f) }
    {
        if self.failed {
            return Err(EngineFault::Failed);
        }
        let mut all = Vec::new(self.alloc);
        let mut started = Vec::new(self.alloc);
        'events: while let Some(second) = self.event_before(end) {
            self.work(second, &mut started)?;
            let Ok(()) = add_starts(&mut all, started.as_slice(), second) else {
                self.failed = true;
                return Err(EngineFault::Memory);
            };
        }
        Ok(all)
    }

    fn event_before(&self, end: u64) -> Option<u64>
        requires { self.now.failed ≡ false }
        ensures none { IfNone result (IsQuiet self.now.plan self.now.position end) }
        ensures some { IfSome result (λ t. IsNextEvent self.now.plan self.now.position (Some t) × (t < end)) }
    {
        let Some(second) = self.next_event() else {
            return None;
        };
        if end <= second {
            return None;
        }
        Some(second)
    }

    fn work(&mut self, second: u64, started: &mut Vec<Job, A>) -> Result<(), Memory>
        requires going { self.old.failed ≡ false }
        requires next { IsNextEvent self.old.plan self.old.position (Some second) }
        ensures started { OnOk result (StartIn self.old.plan second started.new.items) }
        ensures ok { OnOk result (self.new ≡ record self.old { position = second + 1; handled = self.old.handled + 1 }) }
        ensures err { OnErr result (self.new ≡ record self.old { failed = true }) }
        ensures empty { OnErr result (started.old.items ≡ [] → started.new.items ≡ []) }
    {
        self.failed = true;
        let last_shadow = standing_at(&self.cluster, self.last_shadow, second);
        self.cluster.finish_until(second);
        let left = arrive_and_decide(
            &mut self.cluster,
            &mut self.upcoming,
            &self.plan.view(),
            started,
            last_shadow,
            second,
        )?;
        self.failed = false;
        self.last_shadow = left;
        self.position = second + 1;
        self.handled += 1;
        Ok(())
    }
}
