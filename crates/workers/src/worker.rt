// A worker makes the run for a ticket without the lock.
ghost use Rattle.std.specs.Prelude.{◌≡◌, ◌↔◌, Err, IfOk, IsTrue, map};
ghost use Rattle.book_machine.specs.declared.caller.Caller.TheVariants as caller;
ghost use Rattle.chronicle.specs.Fronts.{Begins};
ghost use Rattle.workers.specs.Callers.{new_worker};
ghost use Rattle.workers.specs.declared.worker.WorkerEnd.TheVariants as ends;
ghost use Rattle.workers.specs.History.{Claims, Leaves, Stops, Works};
ghost use Rattle.workers.specs.Work.{Finishes, GainsClaim, GivesUp, HandsInOnce, HandsInWhat, WorksOn, WorksThrough, end_of};
ghost use Rattle.workers.specs.Lists.{listed_of};

use crate::desk::Desk;
use crate::gate::Gate;
use crate::listed_call::{ListedCall, reserve_call};
use crate::making::Making;
use checkpoints::Run;
use chronicle::{Front, Naming, Whole};
use std::alloc::Allocator;
use std::marker::Model;
use std::sync::{Arc, Wait};
use swf_text::Memory;
use version_book::{Refusal, Task};

/// Why a worker ended.
#[derive(Clone, Copy, Debug, PartialEq, Eq)]
pub enum WorkerEnd {
    /// The desk was stopped.
    Stopped,
    /// The journal has 1,000,000 notes.
    Full,
    /// A growth was refused in a claim, a finish or a give-up.
    Memory,
}

impl From<Memory> for WorkerEnd {
    ghost from_gives = { λ _ end. end ≡ ends.Memory };

    fn from(_memory: Memory) -> WorkerEnd {
        WorkerEnd::Memory
    }
}

/// A worker, which makes runs for a desk: its number, the list of its own calls with their replies, and
/// the desk's history up to its last response.
#[derive(Drop)]
pub struct Worker<A: Allocator + Copy, J: Naming> {
    number: u64,
    list: Vec<ListedCall<A>, A>,
    front: Front<J>,
}

impl<A: Allocator + Copy, J: Naming> Model for Worker<A, J> {
    ghost use Rattle.std.specs.Prelude.{map};
    ghost use Rattle.workers.specs.Callers.{WorkerView};
    ghost use Rattle.workers.specs.Lists.{listed_of};

    ghost Value = { WorkerView };

    ghost view = { λ w. record { number = w.number; list = map listed_of w.list.items; front = w.front } };
}

fn end_of<T: Copy, F: Copy>(outcome: Result<T, Refusal<F>>) -> Result<(), WorkerEnd>
    ensures { result ≡ end_of outcome }
{
    match outcome {
        Err(Refusal::JournalFull) => Err(WorkerEnd::Full),
        Err(Refusal::Memory) => Err(WorkerEnd::Memory),
        _ => Ok(()),
    }
}

impl<A: Allocator + Copy, J: Naming> Worker<A, J> {
    pub(crate) fn new(alloc: A, number: u64, front: Front<J>) -> Worker<A, J>
        ensures { result ≡ new_worker number front }
    {
        Worker {
            number,
            list: Vec::new(alloc),
            front,
        }
    }

    /// Its number.
    pub fn number(&self) -> u64
        ensures { result ≡ self.now.number }
    {
        self.number
    }

    /// Its own calls and their replies, in their order.
    pub fn list(&self) -> &[ListedCall<A>]
        ensures { map listed_of result.now ≡ self.now.list }
    {
        self.list.as_slice()
    }

    pub(crate) fn begins(&self, whole: &Whole<J>) -> bool
        ensures { IsTrue result ↔ Begins self.now.front whole.now }
    {
        self.front.begins(whole)
    }

    fn claim<R: Wait>(&mut self, rt: &R, desk: &Desk<A, J>) -> Result<Task<A>, WorkerEnd>
        ensures list { GainsClaim result self.old.list self.new.list }
        ensures history { Claims J.opening self.old.front (caller.Worker self.old.number) result self.new.front }
        ensures number { self.new.number ≡ self.old.number }
    {
        reserve_call(&mut self.list)?;
        desk.when_busy(rt)
            .next_for(self.number, &mut self.list, &mut self.front)
    }

    fn finish<R: Wait>(
        &mut self,
        rt: &R,
        desk: &Desk<A, J>,
        ticket: u64,
        run: Arc<Run<A>, A>,
    ) -> Result<(), WorkerEnd>
        ensures list { Finishes ticket self.old.list self.new.list result }
        ensures history { Works J.opening self.old.front result self.new.front }
        ensures number { self.new.number ≡ self.old.number }
    {
        reserve_call(&mut self.list)?;
        let outcome = desk
            .shared
            .lock(rt)
            .finish_for(self.number, &mut self.list, &mut self.front, ticket, run);
        desk.changed.notify_all();
        end_of(outcome)
    }

    fn give_up<R: Wait>(&mut self, rt: &R, desk: &Desk<A, J>, ticket: u64) -> Result<(), WorkerEnd>
        ensures list { GivesUp ticket self.old.list self.new.list result }
        ensures history { Works J.opening self.old.front result self.new.front }
        ensures number { self.new.number ≡ self.old.number }
    {
        reserve_call(&mut self.list)?;
        let outcome = desk
            .shared
            .lock(rt)
            .give_up_for(self.number, &mut self.list, &mut self.front, ticket);
        desk.changed.notify_all();
        end_of(outcome)
    }

    fn make<R: Wait, G: Gate, M: Making<A>>(
        &mut self,
        rt: &R,
        desk: &Desk<A, J>,
        gate: &G,
        ticket: u64,
        making: &mut M,
    ) -> Result<(), WorkerEnd>
        ensures list { HandsInWhat (M.gives making.old) ticket self.old.list self.new.list result }
        ensures history { Works J.opening self.old.front result self.new.front }
        ensures number { self.new.number ≡ self.old.number }
    {
        gate.before_work(ticket);
        match making.make() {
            Ok(run) => {
                gate.before_finish(ticket);
                self.finish(rt, desk, ticket, run)
            }
            Err(_) => self.give_up(rt, desk, ticket),
        }
    }

    fn work<R: Wait, G: Gate>(
        &mut self,
        rt: &R,
        desk: &Desk<A, J>,
        gate: &G,
        mut task: Task<A>,
    ) -> Result<(), WorkerEnd>
        ensures list { HandsInOnce task.ticket self.old.list self.new.list result }
        ensures history { Works J.opening self.old.front result self.new.front }
        ensures number { self.new.number ≡ self.old.number }
    {
        let ticket = task.ticket();
        self.make(rt, desk, gate, ticket, &mut task)
    }

    fn round<R: Wait, G: Gate>(
        &mut self,
        rt: &R,
        desk: &Desk<A, J>,
        gate: &G,
    ) -> Result<(), WorkerEnd>
        ensures on { WorksOn self.old.list self.new.list }
        ensures through { IfOk result (λ _. WorksThrough self.old.list self.new.list) }
        ensures stopped { result ≡ Err ends.Stopped → WorksThrough self.old.list self.new.list }
        ensures history { Works J.opening self.old.front result self.new.front }
        ensures number { self.new.number ≡ self.old.number }
    {
        let task = self.claim(rt, desk)?;
        self.work(rt, desk, gate, task)
    }

    fn stop<R: Wait>(&mut self, rt: &R, desk: &Desk<A, J>)
        ensures front { Stops self.old.front self.new.front }
        ensures same { self.new ≡ record self.old { front = self.new.front } }
    {
        desk.stop_for(rt, &mut self.front);
    }

    /// Works until the desk is stopped, the journal is full, or a growth is refused in a claim, a
    /// finish or a give-up; in the last two cases it stops the desk. It sleeps while nothing is due.
    ///
    /// Its list goes on with claims, each of a ticket followed by a finish or a give-up of this
    /// ticket, the last one perhaps not. The history goes on too: at a place of it the desk was stopped or
    /// the journal was full, where that ended the worker, and at its end the desk is stopped, however the
    /// worker ended.
    pub fn run<R: Wait, G: Gate>(&mut self, rt: &R, desk: &Desk<A, J>, gate: &G) -> WorkerEnd
        ensures list { WorksOn self.old.list self.new.list }
        ensures stopped { result ≡ ends.Stopped → WorksThrough self.old.list self.new.list }
        ensures history { Leaves J.opening self.old.front result self.new.front }
        ensures number { self.new.number ≡ self.old.number }
    {
        for _ in rt.forever() {
            if let Err(end) = self.round(rt, desk, gate) {
                if end == WorkerEnd::Stopped {
                    return end;
                }
                self.stop(rt, desk);
                return end;
            }
        }
        unreachable!()
    }
}
