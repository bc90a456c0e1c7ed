//! How a task delivers its run to its ticket. The run needs no comparison with what the ticket asks for.

ghost use Rattle.tasks.specs.Tickets.{IsRunOf};

use checkpoints::Run;
use handover::{Receiver, Response, Sender};
use scenarios::Plan;
use std::alloc::Allocator;
use std::marker::Model;
use std::sync::Arc;

#[derive(Drop)]
pub(crate) struct MadeRun<A: Allocator + Copy> {
    pub(crate) run: Arc<Run<A>, A>,
}

impl<A: Allocator + Copy> Model for MadeRun<A> {
    ghost use Rattle.std.specs.Arc.{arc_value};
    ghost use Rattle.checkpoints.specs.RunView.{RunView};

    ghost Value = { RunView };

    ghost view = { λ m. arc_value m.run };
}

impl<A: Allocator + Copy> Response<Plan<A>> for MadeRun<A> {
    ghost answers = { IsRunOf };
}

pub(crate) type RunSender<A> = Sender<Plan<A>, MadeRun<A>, A>;

// Its request is the plan of which a run is requested.
pub(crate) type RunReceiver<A> = Receiver<Plan<A>, MadeRun<A>, A>;
