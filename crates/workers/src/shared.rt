// What lies under the lock: the book, the history of the desk, how many callers were opened, and whether the desk is
// stopped. Its invariant holds each time that the lock is taken: the history's calls are those that the book noted since
// the desk was made, and lead to the book's state.
ghost use Rattle.std.specs.Prelude.{◌≡◌, true, false, is_none, IfOk, IfSome};
ghost use Rattle.std.specs.Option.{option_map};
ghost use Rattle.scenarios.specs.ScenarioList.{id_of};
ghost use Rattle.book_machine.specs.declared.caller.Caller.TheVariants as caller;
ghost use Rattle.book_machine.specs.Machine.{settled, version};
ghost use Rattle.chronicle.specs.Events.{IsLegalFrom};
ghost use Rattle.chronicle.specs.Fronts.{nothing_yet};
ghost use Rattle.version_book.specs.Book.{machine_of};
ghost use Rattle.version_book.specs.Sound.{IsBook};
ghost use Rattle.workers.specs.Callers.{next_caller, opened_after};
ghost use Rattle.workers.specs.History.{EndsOpened, IsCurrentAt, Reads, Settles, Stops};
ghost use Rattle.workers.specs.Readings.{is_idle};
ghost use Rattle.workers.specs.Settling.{outcome_settled};
ghost use Rattle.workers.specs.Tied.{IsTied};

use crate::settled::Settled;
use book_machine::{Caller, SettleState};
use chronicle::{Front, Naming, Whole};
use scenarios::ScenarioId;
use std::alloc::Allocator;
use std::marker::Model;
use swf_text::Memory;
use version_book::{Book, Reading};

/// The most sessions that a desk opens, and the most workers.
pub const MAX_CALLERS: u64 = 64;

#[derive(Drop)]
pub(crate) struct Shared<A: Allocator + Copy, J: Naming> {
    pub(crate) book: Book<A>,
    pub(crate) whole: Whole<J>,
    pub(crate) sessions: u64,
    pub(crate) workers: u64,
    pub(crate) stopped: bool,
}

impl<A: Allocator + Copy, J: Naming> Model for Shared<A, J> {
    ghost use Rattle.workers.specs.Tied.{IsTied, SharedView};

    ghost Value = { SharedView };

    ghost view = { λ s. record { book = s.book; history = s.whole; sessions = s.sessions; workers = s.workers; stopped = s.stopped } };

    ghost invariant = { λ s. IsTied J.opening (record { book = s.book; history = s.whole; sessions = s.sessions; workers = s.workers; stopped = s.stopped }) };
}

fn next_caller(opened: u64) -> Option<u64>
    ensures { result ≡ next_caller opened }
{
    if opened < MAX_CALLERS {
        Some(opened)
    } else {
        None
    }
}

impl<A: Allocator + Copy, J: Naming> Shared<A, J> {
    pub(crate) fn new(book: Book<A>, whole: Whole<J>) -> Shared<A, J>
        requires opening { J.opening ≡ machine_of book }
        requires whole { whole ≡ nothing_yet }
        ensures { result ≡ record { book = book; history = nothing_yet; sessions = 0; workers = 0; stopped = false } }
    {
        Shared {
            book,
            whole,
            sessions: 0,
            workers: 0,
            stopped: false,
        }
    }

    pub(crate) fn settled_for(&self, seen: u64) -> Option<Settled>
        ensures { result ≡ outcome_settled (settled seen (machine_of self.now.book)) self.now.stopped }
    {
        match self.book.settled(seen) {
            SettleState::Done => Some(Settled::Done),
            SettleState::Failed(n) => Some(Settled::Failed(n)),
            SettleState::Waiting => self.stopped.then_some(Settled::Stopped),
        }
    }

    pub(crate) fn is_idle(&self) -> bool
        ensures { result ≡ is_idle self.now.stopped self.now.book.state }
    {
        !self.stopped && self.book.due().is_none()
    }

    pub(crate) fn next_session(&mut self) -> Option<(u64, Front<J>)>
        ensures number { option_map (λ it. it.0) result ≡ next_caller self.old.sessions }
        ensures front { IfSome result (λ it. EndsOpened (caller.Session it.0) it.1) }
        ensures rest { self.new ≡ record self.old { sessions = opened_after self.old.sessions; history = self.new.history } }
    {
        let number = next_caller(self.sessions)?;
        self.whole.open(Caller::Session(number));
        self.sessions = number + 1;
        Some((number, self.whole.front()))
    }

    pub(crate) fn next_worker(&mut self) -> Option<(u64, Front<J>)>
        ensures number { option_map (λ it. it.0) result ≡ next_caller self.old.workers }
        ensures front { IfSome result (λ it. EndsOpened (caller.Worker it.0) it.1) }
        ensures rest { self.new ≡ record self.old { workers = opened_after self.old.workers; history = self.new.history } }
    {
        let number = next_caller(self.workers)?;
        self.whole.open(Caller::Worker(number));
        self.workers = number + 1;
        Some((number, self.whole.front()))
    }

    pub(crate) fn stop(&mut self)
        ensures { self.new ≡ record self.old { stopped = true; history = self.new.history } }
    {
        self.whole.stop();
        self.stopped = true;
    }

    pub(crate) fn stop_for(&mut self, front: &mut Front<J>)
        ensures { Stops front.old front.new }
    {
        self.stop();
        let _is_kept = self.is_kept();
        front.follow(&self.whole);
    }

    pub(crate) fn into_book(self) -> Book<A>
        ensures value { result ≡ self.book }
        ensures book { IsBook result }
    {
        let _version = self.book.version();
        self.book
    }

    pub(crate) fn is_kept(&self) -> bool
        ensures kept { result ≡ self.now.history.kept }
        ensures legal { IsLegalFrom J.opening self.now.history.events }
        ensures tied { IsTied J.opening self.now }
    {
        self.whole.is_kept()
    }

    pub(crate) fn version(&self, front: &mut Front<J>) -> u64
        ensures history { Reads J.opening front.old (λ m. result ≡ version m) front.new }
    {
        front.follow(&self.whole);
        self.book.version()
    }

    pub(crate) fn find(&self, name: &str, front: &mut Front<J>) -> Option<ScenarioId>
        ensures history { Reads J.opening front.old (λ m. result ≡ id_of name.now m.listing) front.new }
    {
        front.follow(&self.whole);
        self.book.id_of(name)
    }

    pub(crate) fn current(&self, front: &mut Front<J>) -> Result<Reading<A>, Memory>
        ensures history { Reads J.opening front.old (λ m. IfOk result (IsCurrentAt m)) front.new }
    {
        front.follow(&self.whole);
        self.book.reading()
    }

    pub(crate) fn settle(&self, seen: u64, front: &mut Front<J>) -> Settled
        requires { is_none (outcome_settled (settled seen (machine_of self.now.book)) self.now.stopped) ≡ false }
        ensures history { Settles J.opening front.old seen result front.new }
    {
        front.follow(&self.whole);
        self.settled_for(seen).unwrap()
    }
}
