// What the workers' calls change in the state of a book. A run that fits its ticket closes it, and is
// published unless one of its version or a newer one is.
ghost use Rattle.std.specs.Prelude.{◌≡◌, ◌<◌, [], ◌∷◌, ◌++◌, IfNone, IfOk, IfSome, true};
ghost use Rattle.std.specs.Option.{option_map};
ghost use Rattle.std.specs.Arc.{arc_value};
ghost use Rattle.book_machine.specs.Call.{Claim, Finish, GiveUp};
ghost use Rattle.tasks.specs.Tasks.{ticket_for};
ghost use Rattle.version_book.specs.Answers.{TellsFit, TellsStanding, claim_answer, finish_answer, fitted, give_up_answer};
ghost use Rattle.version_book.specs.Sound.{IsOfItsVersion};
ghost use Rattle.version_book.specs.Steps.{Does, Publishes};
ghost use Rattle.version_book.specs.Tasks.{Fits, IsNext, PublishesFitting, Stands, due_shown, task_for};

use crate::faults::{FinishFault, TooManyTickets, UnknownTicket};
use crate::lookups::{first_due, mark, publish, published_version};
use crate::refusal::{ClaimRefusal, FinishRefusal, GiveUpRefusal};
use crate::shown::{Shown, is_below};
use crate::state::{State, TICKET_LIMIT};
use checkpoints::Run;
use scenarios::{MAX_PROCS, Plan};
use std::alloc::Allocator;
use std::sync::Arc;
use swf_text::Memory;
use tasks::tickets::{close, take_run, ticket_of};
use tasks::{Base, Published, Task};

impl<A: Allocator + Copy> State<A> {
    fn task_for(&self, shown: &Shown<A>) -> Result<Task<A>, Memory>
        requires { IfSome shown.now.published (IsOfItsVersion self.now.opening self.now.edits shown.now.scenario) }
        ensures { IfOk result (λ task. task ≡ task_for self.now shown.now) }
    {
        let base = Base::since(self.alloc, shown.published(), self.edits.as_slice())?;
        let plan = Plan::new(self.current.clone()?, shown.scenario());
        Ok(Task::new(
            self.alloc,
            self.next_ticket,
            shown.id(),
            self.edits.len() as u64,
            plan,
            self.spacing,
            base,
        ))
    }

    fn next_task(&self) -> Result<Option<Task<A>>, ClaimRefusal>
        ensures { IsNext self.now result }
    {
        let version = self.edits.len() as u64;
        let due = first_due(self.shown.as_slice(), version, self.tickets.as_slice());
        let Some(shown) = due else {
            return Ok(None);
        };
        if self.tickets.len() >= TICKET_LIMIT {
            return Err(ClaimRefusal::Fault(TooManyTickets));
        }
        Ok(Some(self.task_for(shown)?))
    }

    pub(crate) fn claim(&mut self) -> Result<Option<Task<A>>, ClaimRefusal>
        requires { self.old.next_ticket < 18446744073709551615 }
        ensures does { Does self.old self.new Claim (claim_answer result) }
        ensures task { IfOk result (λ task. task ≡ option_map (task_for self.old) (due_shown self.old)) }
        ensures tickets { IfOk result (λ task. IfSome task (λ t. self.new.tickets ≡ self.old.tickets ++ ticket_for t ∷ [])) }
    {
        let Some(mut task) = self.next_task()? else {
            return Ok(None);
        };
        let ticket = task.to_ticket()?;
        self.tickets.push_reserved(ticket);
        self.next_ticket += 1;
        Ok(Some(task))
    }

    fn accept(&mut self, number: u64, run: Arc<Run<A>, A>) -> Result<u64, FinishRefusal>
        requires { Fits self.old number (arc_value run) }
        ensures does { Does self.old self.new (Finish number true) (finish_answer result) }
        ensures fits { fitted result ≡ true }
        ensures published { IfOk result (λ version. Publishes self.old self.new number version (arc_value run)) }
    {
        let Some(ticket) = ticket_of(self.tickets.as_slice(), number) else {
            unreachable!()
        };
        let id = ticket.id();
        let version = ticket.version();
        let found = published_version(self.shown.as_slice(), id);
        prove!(run.plan().scenario().procs() <= MAX_PROCS);
        close(&mut self.tickets, number);
        if is_below(found, version) {
            publish(&mut self.shown, id, Published::new(version, run));
            return Ok(version);
        }
        Err(FinishRefusal::Fault(FinishFault::Stale {
            published: found.unwrap_or(0),
        }))
    }

    pub(crate) fn finish(&mut self, number: u64, run: Arc<Run<A>, A>) -> Result<u64, FinishRefusal>
        ensures does { Does self.old self.new (Finish number (fitted result)) (finish_answer result) }
        ensures fits { TellsFit (Fits self.old number (arc_value run)) result }
        ensures published { IfOk result (λ version. Publishes self.old self.new number version (arc_value run)) }
    {
        let Some(ticket) = ticket_of(self.tickets.as_slice(), number) else {
            return Err(FinishRefusal::Fault(FinishFault::UnknownTicket));
        };
        if !ticket.fits(&run) {
            return Err(FinishRefusal::Fault(FinishFault::Stranger));
        }
        self.accept(number, run)
    }

    pub(crate) fn finish_delivered(&mut self, number: u64) -> Option<Result<u64, FinishRefusal>>
        ensures does { IfSome result (λ outcome. Does self.old self.new (Finish number (fitted outcome)) (finish_answer outcome)) }
        ensures stands { TellsStanding (Stands self.old number) result }
        ensures none { IfNone result (self.new ≡ self.old) }
        ensures published { IfSome result (λ outcome. IfOk outcome (PublishesFitting self.old self.new number)) }
    {
        if ticket_of(self.tickets.as_slice(), number).is_none() {
            return Some(Err(FinishRefusal::Fault(FinishFault::UnknownTicket)));
        }
        let run = take_run(&mut self.tickets, number)?;
        Some(self.accept(number, run))
    }

    pub(crate) fn give_up(&mut self, number: u64) -> Result<(), GiveUpRefusal>
        ensures { Does self.old self.new (GiveUp number) (give_up_answer result) }
    {
        let Some(ticket) = ticket_of(self.tickets.as_slice(), number) else {
            return Err(GiveUpRefusal::Fault(UnknownTicket));
        };
        let id = ticket.id();
        let version = ticket.version();
        close(&mut self.tickets, number);
        if version == self.edits.len() as u64 {
            mark(&mut self.shown, id, version);
        }
        Ok(())
    }
}
