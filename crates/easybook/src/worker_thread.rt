ghost use Rattle.workers.specs.Callers.{IsNewWorker};
ghost use Rattle.easybook.specs.Along.{AreWork};

use crate::script_thread::Workplace;
use crate::works::Works;
use chronicle::Naming;
use std::alloc::Allocator;
use std::marker::Model;
use std::sync::Wait;
use workers::{Gate, Worker};

/// A worker's thread: a worker that has only claimed, handed in and given up.
#[derive(Drop)]
pub(crate) struct WorkerThread<A: Allocator + Copy, J: Naming> {
    worker: Worker<A, J>,
}

impl<A: Allocator + Copy, J: Naming> Model for WorkerThread<A, J> {
    ghost use Rattle.workers.specs.Callers.{WorkerView};
    ghost use Rattle.easybook.specs.Along.{AreWork};

    ghost Value = { WorkerView };

    ghost view = { λ t. t.worker };

    ghost invariant = { λ t. AreWork t.worker.list };
}

impl<A: Allocator + Copy, J: Naming + Works> WorkerThread<A, J> {
    pub(crate) fn new(worker: Worker<A, J>) -> WorkerThread<A, J>
        requires { IsNewWorker worker }
    {
        WorkerThread { worker }
    }

    pub(crate) fn run<R: Wait, G: Gate>(&mut self, place: &Workplace<'_, A, J, R>, gate: &G) {
        let rt = place.rt;
        let desk = place.desk;
        let _ = self.worker.run(rt, desk, gate);
    }

    pub(crate) fn into_worker(self) -> Worker<A, J>
        ensures { AreWork result.list }
    {
        self.worker
    }
}
