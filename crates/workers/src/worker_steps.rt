// What a worker does while it holds the lock: one call of the book, which its list then gains.
ghost use Rattle.std.specs.Prelude.{◌≡◌, ◌<◌, false, map, IfOk, vec_len, vec_capacity};
ghost use Rattle.std.specs.Option.{option_map};
ghost use Rattle.std.specs.Arc.{arc_value};
ghost use Rattle.book_machine.specs.declared.caller.Caller.TheVariants as caller;
ghost use Rattle.book_machine.specs.Call.{Claim, Finish, GiveUp};
ghost use Rattle.version_book.specs.Answers.{claim_answer, finish_answer, fitted, give_up_answer};
ghost use Rattle.version_book.specs.Steps.{Answers};
ghost use Rattle.version_book.specs.Tasks.{IsHandedIn, due_shown, task_for};
ghost use Rattle.workers.specs.History.{Calls, Claims};
ghost use Rattle.workers.specs.Lists.{Gains, listed_of};
ghost use Rattle.workers.specs.Readings.{is_idle};
ghost use Rattle.workers.specs.Work.{Finds, GainsClaim};

use crate::hearing::{followed, notes_in};
use crate::listed_call::{ListedCall, keep};
use crate::shared::Shared;
use crate::worker::WorkerEnd;
use book_machine::Call;
use checkpoints::Run;
use chronicle::{Front, Naming};
use std::alloc::Allocator;
use std::sync::Arc;
use version_book::{ClaimRefusal, FinishRefusal, GiveUpRefusal, Task, TooManyTickets, fitted};

impl<A: Allocator + Copy, J: Naming> Shared<A, J> {
    pub(crate) fn claim_for(
        &mut self,
        worker: u64,
        list: &mut Vec<ListedCall<A>, A>,
        front: &mut Front<J>,
    ) -> Result<Option<Task<A>>, ClaimRefusal>
        requires capacity { vec_len list.old < vec_capacity list.old }
        ensures book { Answers self.old.book self.new.book (caller.Worker worker) Claim (claim_answer result) }
        ensures list { Gains (map listed_of list.old.items) (map listed_of list.new.items) Claim (claim_answer result) }
        ensures history { Calls J.opening front.old (caller.Worker worker) Claim (claim_answer result) front.new }
        ensures task { IfOk result (λ task. task ≡ option_map (task_for self.old.book.state) (due_shown self.old.book.state)) }
    {
        let notes = notes_in(&self.book);
        front.follow(&self.whole);
        let outcome = self.book.claim(worker);
        let reply = followed(&mut self.whole, front, &self.book, notes);
        keep(list, Call::Claim, reply);
        outcome
    }

    pub(crate) fn next_for(
        &mut self,
        worker: u64,
        list: &mut Vec<ListedCall<A>, A>,
        front: &mut Front<J>,
    ) -> Result<Task<A>, WorkerEnd>
        requires capacity { vec_len list.old < vec_capacity list.old }
        requires busy { is_idle self.old.stopped self.old.book.state ≡ false }
        ensures book { Finds result self.old.stopped (caller.Worker worker) self.old.book self.new.book }
        ensures list { GainsClaim result (map listed_of list.old.items) (map listed_of list.new.items) }
        ensures history { Claims J.opening front.old (caller.Worker worker) result front.new }
    {
        if self.stopped {
            front.follow(&self.whole);
            return Err(WorkerEnd::Stopped);
        }
        match self.claim_for(worker, list, front) {
            Ok(Some(task)) => Ok(task),
            Ok(None) => unreachable!(),
            Err(ClaimRefusal::Fault(TooManyTickets)) => unreachable!(),
            Err(ClaimRefusal::JournalFull) => Err(WorkerEnd::Full),
            Err(ClaimRefusal::Memory) => Err(WorkerEnd::Memory),
        }
    }

    pub(crate) fn finish_for(
        &mut self,
        worker: u64,
        list: &mut Vec<ListedCall<A>, A>,
        front: &mut Front<J>,
        ticket: u64,
        run: Arc<Run<A>, A>,
    ) -> Result<u64, FinishRefusal>
        requires capacity { vec_len list.old < vec_capacity list.old }
        ensures book { Answers self.old.book self.new.book (caller.Worker worker) (Finish ticket (fitted result)) (finish_answer result) }
        ensures list { Gains (map listed_of list.old.items) (map listed_of list.new.items) (Finish ticket (fitted result)) (finish_answer result) }
        ensures history { Calls J.opening front.old (caller.Worker worker) (Finish ticket (fitted result)) (finish_answer result) front.new }
        ensures run { IsHandedIn self.old.book.state self.new.book.state ticket (arc_value run) result }
    {
        let notes = notes_in(&self.book);
        front.follow(&self.whole);
        let outcome = self.book.hand_in(worker, ticket, run);
        let fits = fitted(&outcome);
        let reply = followed(&mut self.whole, front, &self.book, notes);
        keep(list, Call::Finish { ticket, fits }, reply);
        outcome
    }

    pub(crate) fn give_up_for(
        &mut self,
        worker: u64,
        list: &mut Vec<ListedCall<A>, A>,
        front: &mut Front<J>,
        ticket: u64,
    ) -> Result<(), GiveUpRefusal>
        requires capacity { vec_len list.old < vec_capacity list.old }
        ensures book { Answers self.old.book self.new.book (caller.Worker worker) (GiveUp ticket) (give_up_answer result) }
        ensures list { Gains (map listed_of list.old.items) (map listed_of list.new.items) (GiveUp ticket) (give_up_answer result) }
        ensures history { Calls J.opening front.old (caller.Worker worker) (GiveUp ticket) (give_up_answer result) front.new }
    {
        let notes = notes_in(&self.book);
        front.follow(&self.whole);
        let outcome = self.book.give_up(worker, ticket);
        let reply = followed(&mut self.whole, front, &self.book, notes);
        keep(list, Call::GiveUp { ticket }, reply);
        outcome
    }
}
