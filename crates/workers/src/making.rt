// `gives` tells which results the making may have: this run, or none. A task leaves its run at the ticket.
ghost use Rattle.workers.specs.Work.{IsWanted};

use checkpoints::Run;
use std::alloc::Allocator;
use std::sync::Arc;
use swf_text::Memory;
use version_book::Task;

pub(crate) trait Making<A: Allocator + Copy> {
    ghost use Rattle.std.specs.Prelude.{Option, None, Some, IfOk, OnErr};
    ghost use Rattle.std.specs.Arc.{arc_value};
    ghost use Rattle.checkpoints.specs.RunView.{RunView};

    ghost gives: { Self → Option RunView → Type 0 };

    fn make(&mut self) -> Result<Arc<Run<A>, A>, Memory>
        ensures run { IfOk result (λ run. gives self.old (Some (arc_value run))) }
        ensures none { OnErr result (gives self.old None) };
}

impl<A: Allocator + Copy> Making<A> for Task<A> {
    ghost gives = { IsWanted };

    fn make(&mut self) -> Result<Arc<Run<A>, A>, Memory> {
        let (run, _work) = self.deliver()?;
        Ok(run)
    }
}
