// Each call of a book first reserves capacity for its note, then takes its step, and then notes its reply.
ghost use Rattle.std.specs.Prelude.{◌≡◌, IfOk, IfSome, Some};
ghost use Rattle.std.specs.Option.{option_map};
ghost use Rattle.std.specs.Arc.{arc_value};
ghost use Rattle.job_table.specs.Edit.{edit_of};
ghost use Rattle.book_machine.specs.declared.caller.Caller.TheVariants as caller;
ghost use Rattle.book_machine.specs.Call.{AddScenario, Claim, DropScenario, Edit as Edits, Finish, GiveUp, Retry, View};
ghost use Rattle.version_book.specs.Answers.{AnswersOfRun, TakesWhatFits, TellsFit, TellsStanding, add_answer, claim_answer, drop_answer, edit_answer, finish_answer, fitted, give_up_answer, retry_answer, outcome_of_run, view_answer};
ghost use Rattle.version_book.specs.Book.{machine_of};
ghost use Rattle.version_book.specs.BookRules.{IsTrueOf};
ghost use Rattle.version_book.specs.Sound.{IsBook};
ghost use Rattle.version_book.specs.Steps.{Answers, Publishes};
ghost use Rattle.version_book.specs.Tasks.{Fits, IsHandedIn, IsOut, IsShownFor, PublishesFitting, Stands, due_shown, task_for};

use crate::book::Book;
use crate::faults::{FinishFault, TooManyTickets, UnknownTicket, ViewFault};
use crate::journal::{note, reserve_note};
use crate::refusal::{
    AddRefusal, ClaimRefusal, DropRefusal, EditRefusal, FinishRefusal, GiveUpRefusal, RetryRefusal,
    ViewRefusal,
};
use crate::replies;
use book_machine::{Call, Caller, NotedEdit, NotedName};
use checkpoints::Run;
use checkpoints::laws::each_run_is_simulated;
use job_table::{Edit, EditFault};
use scenarios::{AddFault, NoSuchScenario, Scenario, ScenarioId};
use std::alloc::Allocator;
use std::sync::Arc;
use tasks::{Published, Task};

fn of_left(outcome: Result<u64, FinishRefusal>) -> Result<Option<u64>, FinishRefusal>
    ensures { outcome_of_run result ≡ Some outcome }
{
    outcome.map(Some)
}

impl<A: Allocator + Copy> Book<A> {
    /// Edits the log, and returns the new version, one more than before.
    ///
    /// JournalFull where there are 1,000,000 notes; the fault of the edit; Memory where a growth is
    /// refused. The log is not copied, except the chunks of entries that the edit touches; runs
    /// that are published keep their tables.
    pub fn edit(&mut self, session: u64, edit: &Edit<A>) -> Result<u64, EditRefusal>
        ensures { Answers self.old self.new (caller.Session session) (Edits (edit_of edit.now)) (edit_answer result) }
    {
        reserve_note::<EditFault, A>(&mut self.journal)?;
        let call = Call::Edit(NotedEdit::new(self.alloc, edit)?);
        let outcome = self.state.edit(edit);
        let reply = replies::edit_reply(&outcome);
        note(&mut self.journal, Caller::Session(session), call, reply);
        outcome
    }

    /// Adds a scenario behind the others, and returns its id, which no scenario had before.
    ///
    /// JournalFull where there are 1,000,000 notes; the fault of the name or of the number of
    /// scenarios; Memory where a growth is refused.
    pub fn add_scenario(
        &mut self,
        session: u64,
        name: &str,
        scenario: Scenario,
    ) -> Result<ScenarioId, AddRefusal>
        ensures { Answers self.old self.new (caller.Session session) (AddScenario name.now scenario) (add_answer result) }
    {
        reserve_note::<AddFault, A>(&mut self.journal)?;
        let call = Call::AddScenario {
            name: NotedName::new(self.alloc, name)?,
            scenario,
        };
        let outcome = self.state.add(name, scenario);
        let reply = replies::add_reply(&outcome);
        note(&mut self.journal, Caller::Session(session), call, reply);
        outcome
    }

    /// Drops the scenario with this name and closes its tickets, and returns its id, which is not
    /// used again.
    ///
    /// JournalFull where there are 1,000,000 notes; NoSuchScenario where none has the name; Memory
    /// where a growth is refused.
    pub fn drop_scenario(&mut self, session: u64, name: &str) -> Result<ScenarioId, DropRefusal>
        ensures { Answers self.old self.new (caller.Session session) (DropScenario name.now) (drop_answer result) }
    {
        reserve_note::<NoSuchScenario, A>(&mut self.journal)?;
        let call = Call::DropScenario {
            name: NotedName::new(self.alloc, name)?,
        };
        let outcome = self.state.drop_named(name);
        let reply = replies::drop_reply(&outcome);
        note(&mut self.journal, Caller::Session(session), call, reply);
        outcome
    }

    /// Removes the mark of a scenario that was given up, so that it is tried again.
    ///
    /// JournalFull where there are 1,000,000 notes; NoSuchScenario where none has the id; Memory
    /// where a growth is refused.
    pub fn retry(&mut self, session: u64, id: ScenarioId) -> Result<(), RetryRefusal>
        ensures { Answers self.old self.new (caller.Session session) (Retry id) (retry_answer result) }
    {
        reserve_note::<NoSuchScenario, A>(&mut self.journal)?;
        let outcome = self.state.retry(id);
        let reply = replies::retry_reply(&outcome);
        let call = Call::Retry { id };
        note(&mut self.journal, Caller::Session(session), call, reply);
        outcome
    }

    /// What is published for a scenario, with its version: the simulation, second by second from the first
    /// one on, of that version's log under the scenario. The version is not below the one seen.
    ///
    /// JournalFull where there are 1,000,000 notes; NoSuchScenario where none has the id; NotYet
    /// where nothing is published; Behind where what is published is older than `seen`; Memory
    /// where a growth is refused.
    pub fn view(
        &mut self,
        session: u64,
        id: ScenarioId,
        seen: u64,
    ) -> Result<Published<A>, ViewRefusal>
        ensures answer { Answers self.old self.new (caller.Session session) (View id seen) (view_answer result) }
        ensures shown { IfOk result (IsShownFor self.old.state id seen) }
        ensures right { IsTrueOf (machine_of self.old) id result }
        ensures book { IsBook self.old }
    {
        each_run_is_simulated();
        reserve_note::<ViewFault, A>(&mut self.journal)?;
        let outcome = self.state.view(id, seen);
        let reply = replies::view_reply(&outcome);
        let call = Call::View { id, seen };
        note(&mut self.journal, Caller::Session(session), call, reply);
        outcome
    }

    /// Takes a ticket for the first scenario that is due, and returns its task; None where none is.
    ///
    /// A scenario is due where the current version is neither published for it, nor given up, nor
    /// claimed by a standing ticket. JournalFull where there are 1,000,000 notes; TooManyTickets
    /// where 256 stand; Memory where a growth is refused.
    pub fn claim(&mut self, worker: u64) -> Result<Option<Task<A>>, ClaimRefusal>
        ensures answer { Answers self.old self.new (caller.Worker worker) Claim (claim_answer result) }
        ensures task { IfOk result (λ task. task ≡ option_map (task_for self.old.state) (due_shown self.old.state)) }
        ensures out { IfOk result (λ task. IfSome task (IsOut self.new.state)) }
    {
        reserve_note::<TooManyTickets, A>(&mut self.journal)?;
        let outcome = self.state.claim();
        let reply = replies::claim_reply(&outcome);
        let call = Call::Claim;
        note(&mut self.journal, Caller::Worker(worker), call, reply);
        outcome
    }

    /// Hands in a run for a ticket, publishes it, and returns the version at which it is published. No
    /// other published run changes.
    ///
    /// JournalFull where there are 1,000,000 notes; UnknownTicket where no such ticket stands,
    /// whoever calls; Stranger where the run's log or scenario is not the ticket's, which then
    /// stands; Stale where a run of this version or a newer one is published, and the ticket is
    /// closed; Memory where a growth is refused. A run that is refused is dropped.
    pub fn finish(
        &mut self,
        worker: u64,
        ticket: u64,
        run: Arc<Run<A>, A>,
    ) -> Result<u64, FinishRefusal>
        ensures answer { Answers self.old self.new (caller.Worker worker) (Finish ticket (fitted result)) (finish_answer result) }
        ensures fits { TellsFit (Fits self.old.state ticket (arc_value run)) result }
        ensures published { IfOk result (λ version. Publishes self.old.state self.new.state ticket version (arc_value run)) }
    {
        reserve_note::<FinishFault, A>(&mut self.journal)?;
        let outcome = self.state.finish(ticket, run);
        let reply = replies::finish_reply(&outcome);
        let fits = replies::fitted(&outcome);
        let call = Call::Finish { ticket, fits };
        note(&mut self.journal, Caller::Worker(worker), call, reply);
        outcome
    }

    /// Hands in the run that the ticket's task has left there by `Task::deliver`, publishes it, and
    /// returns the version at which it is published; None where the task has left none, and then nothing
    /// changes. No other published run changes.
    ///
    /// It is refused as `finish` is, but never as a Stranger: what a task has left is of its ticket's
    /// log and scenario, so it is not compared with them. JournalFull and UnknownTicket come before any
    /// run is looked for, Stale only for one that is there.
    pub fn finish_delivered(
        &mut self,
        worker: u64,
        ticket: u64,
    ) -> Result<Option<u64>, FinishRefusal>
        ensures answer { AnswersOfRun self.old self.new (caller.Worker worker) ticket (outcome_of_run result) }
        ensures stands { TellsStanding (Stands self.old.state ticket) (outcome_of_run result) }
        ensures published { IfOk result (λ version. IfSome version (PublishesFitting self.old.state self.new.state ticket)) }
    {
        reserve_note::<FinishFault, A>(&mut self.journal)?;
        let Some(outcome) = self.state.finish_delivered(ticket) else {
            return Ok(None);
        };
        let reply = replies::finish_reply(&outcome);
        let fits = replies::fitted(&outcome);
        let call = Call::Finish { ticket, fits };
        note(&mut self.journal, Caller::Worker(worker), call, reply);
        of_left(outcome)
    }

    /// Hands in the run that the ticket's task has left, as `finish_delivered` does, or this one, as
    /// `finish` does, where it has left none; and returns the version at which it is published. Where the
    /// task has left its run this one is not looked at, and dropped.
    ///
    /// It is refused as these are, so a run that fits its ticket is never a Stranger.
    pub fn hand_in(
        &mut self,
        worker: u64,
        ticket: u64,
        run: Arc<Run<A>, A>,
    ) -> Result<u64, FinishRefusal>
        ensures answer { Answers self.old self.new (caller.Worker worker) (Finish ticket (fitted result)) (finish_answer result) }
        ensures fits { TakesWhatFits (Fits self.old.state ticket (arc_value run)) result }
        ensures run { IsHandedIn self.old.state self.new.state ticket (arc_value run) result }
    {
        match self.finish_delivered(worker, ticket) {
            Ok(Some(version)) => Ok(version),
            Ok(None) => self.finish(worker, ticket, run),
            Err(refusal) => Err(refusal),
        }
    }

    /// Gives a ticket up. One of the current version marks its scenario, which is then not due
    /// before a retry or the next accepted edit.
    ///
    /// JournalFull where there are 1,000,000 notes; UnknownTicket where no such ticket stands;
    /// Memory where a growth is refused.
    pub fn give_up(&mut self, worker: u64, ticket: u64) -> Result<(), GiveUpRefusal>
        ensures { Answers self.old self.new (caller.Worker worker) (GiveUp ticket) (give_up_answer result) }
    {
        reserve_note::<UnknownTicket, A>(&mut self.journal)?;
        let outcome = self.state.give_up(ticket);
        let reply = replies::give_up_reply(&outcome);
        let call = Call::GiveUp { ticket };
        note(&mut self.journal, Caller::Worker(worker), call, reply);
        outcome
    }
}
