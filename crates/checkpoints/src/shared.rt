ghost use Rattle.std.specs.Prelude.{◌≡◌, ℕ, option_copied, IfOk};
ghost use Rattle.scenarios.specs.PlanView.{plan_in};
ghost use Rattle.cluster_state.specs.Snapshot.{IsSnapshot};
ghost use Rattle.checkpoints.specs.Closing.{base_of, numbers_at, numbers_in};

use crate::gap::Gap;
use crate::running_frame::running_frame;
use crate::segment::Segment;
use crate::waiting_frame::waiting_frame;
use cluster_state::{RunningNumber, Snapshot};
use frames::Frame;
use scenarios::PlanRef;
use std::alloc::Allocator;
use std::marker::Model;
use std::sync::Arc;
use swf_text::Memory;

/// Two frames that snapshots share: the waiting numbers, and the running ones.
#[derive(Drop)]
pub(crate) struct Shared<A: Allocator + Copy> {
    waiting: Arc<Frame<u64, A>, A>,
    running: Arc<Frame<RunningNumber, A>, A>,
}

impl<A: Allocator + Copy> Model for Shared<A> {
    ghost use Rattle.std.specs.Arc.{arc_value};
    ghost use Rattle.checkpoints.specs.Closing.{FramesView};

    ghost Value = { FramesView };

    ghost view = { λ s. record { waiting = arc_value s.waiting; running = arc_value s.running } };
}

impl<A: Allocator + Copy> Shared<A> {
    pub(crate) fn of(
        alloc: A,
        plan: &PlanRef<'_, A>,
        gap: &Gap<A>,
        base: Option<&Segment<A>>,
        until: u64,
    ) -> Result<Shared<A>, Memory>
        ensures { IfOk result (λ shared. (place : ℕ) → numbers_in place shared ≡ numbers_at (plan_in plan.now) (base_of (option_copied base.entry)) gap.now until place) }
    {
        let waiting = waiting_frame(alloc, plan, gap, base, until)?;
        let running = running_frame(alloc, plan, gap, base)?;
        Ok(Shared {
            waiting: Arc::new(alloc, waiting)?,
            running: Arc::new(alloc, running)?,
        })
    }

    pub(crate) fn at(&self, place: u32) -> Result<Snapshot<A>, Memory>
        requires { IsSnapshot (numbers_in place self.now) }
        ensures { IfOk result (λ snapshot. snapshot ≡ numbers_in place self.now) }
    {
        Snapshot::at(&self.waiting, &self.running, place)
    }
}
