// How a session with a book of its own works what is due, and whether memory is refused for a run or a call.
ghost use Rattle.std.specs.Prelude.{◌≡◌, IfOk};
ghost use Rattle.std.specs.Arc.{arc_value};
ghost use Rattle.book_machine.specs.Machine.{settled};
ghost use Rattle.version_book.specs.Book.{machine_of};
ghost use Rattle.version_book.specs.Tasks.{Fits, IsOut};
ghost use Rattle.version_book.specs.Settling.{IsTurn, IsTurnOf, Settles, TicketEnds};

use crate::book::Book;
use crate::book_session::BookSession;
use crate::faults::{FinishFault, TooManyTickets, UnknownTicket};
use crate::refusal::{ClaimRefusal, FinishRefusal, GiveUpRefusal};
use book_machine::SettleState;
use checkpoints::Run;
use std::alloc::Allocator;
use std::sync::Arc;
use swf_text::Memory;
use tasks::Task;

/// The number of the worker in the book's notes.
const WORKER: u64 = 0;

/// How a turn of the work ends.
#[derive(Clone, Copy, Debug, PartialEq, Eq)]
pub(crate) enum Turn {
    /// A task was worked.
    Worked,
    /// Memory was refused for a task's run, and the task was given up.
    GivenUp,
    /// Nothing is due, no more tickets can be taken, or the journal is full.
    Ended,
    /// A claim, or the end of a task, was refused memory.
    Short,
}

fn end_task<A: Allocator + Copy>(
    book: &mut Book<A>,
    ticket: u64,
    made: Result<Arc<Run<A>, A>, Memory>,
) -> Turn
    requires { IfOk made (λ run. Fits book.old.state ticket (arc_value run)) }
    ensures cause { IsTurnOf made result }
    ensures ends { TicketEnds result ticket (machine_of book.old) (machine_of book.new) }
{
    let Ok(run) = made else {
        return match book.give_up(WORKER, ticket) {
            Ok(()) | Err(GiveUpRefusal::Fault(UnknownTicket)) => Turn::GivenUp,
            Err(GiveUpRefusal::JournalFull) => Turn::Ended,
            Err(GiveUpRefusal::Memory) => Turn::Short,
        };
    };
    match book.hand_in(WORKER, ticket, run) {
        Ok(_) | Err(FinishRefusal::Fault(FinishFault::Stale { .. })) => Turn::Worked,
        Err(FinishRefusal::JournalFull) => Turn::Ended,
        Err(FinishRefusal::Memory) => Turn::Short,
        Err(FinishRefusal::Fault(FinishFault::UnknownTicket)) => unreachable!(),
        Err(FinishRefusal::Fault(FinishFault::Stranger)) => unreachable!(),
    }
}

fn work<A: Allocator + Copy>(book: &mut Book<A>, task: &mut Task<A>) -> Turn
    requires { IsOut book.old.state task.old }
    ensures { TicketEnds result task.old.ticket (machine_of book.old) (machine_of book.new) }
{
    let ticket = task.ticket();
    match task.deliver() {
        Ok((run, _)) => end_task(book, ticket, Ok(run)),
        Err(refused) => end_task(book, ticket, Err(refused)),
    }
}

fn work_next<A: Allocator + Copy>(book: &mut Book<A>) -> Turn
    ensures { IsTurn result (machine_of book.old) (machine_of book.new) }
{
    if book.due().is_none() {
        return Turn::Ended;
    }
    match book.claim(WORKER) {
        Ok(Some(mut task)) => work(book, &mut task),
        Ok(None) => unreachable!(),
        Err(ClaimRefusal::Fault(TooManyTickets)) => unreachable!(),
        Err(ClaimRefusal::JournalFull) => Turn::Ended,
        Err(ClaimRefusal::Memory) => Turn::Short,
    }
}

fn work_all<A: Allocator + Copy>(book: &mut Book<A>) -> bool
    ensures { Settles result (machine_of book.old) (machine_of book.new) }
{
    let mut short = false;
    loop {
        match work_next(book) {
            Turn::Worked => continue,
            Turn::GivenUp => short = true,
            Turn::Ended => return short,
            Turn::Short => return true,
        }
    }
}

impl<A: Allocator + Copy> BookSession<A> {
    pub(crate) fn settle_all(&mut self) -> (SettleState, bool)
        ensures settles { Settles result.1 self.old.machine self.new.machine }
        ensures seen { self.new.seen ≡ self.old.seen }
        ensures state { result.0 ≡ settled self.old.seen self.new.machine }
    {
        let short = work_all(&mut self.book);
        (self.book.settled(self.seen), short)
    }
}
