// A scenario that is dropped and added again while a run of it is made.
use crate::desk_handle::DeskHandle;
use crate::known_log::{book_of, ten};
use crate::session_call::SessionCall;
use crate::threads::{Callers, Script, is_right_with};
use crate::wrong::{Wrong, right_if};
use book_machine::Reply;
use checking::Flags;
use chronicle::Naming;
use scenarios::ScenarioId;
use std::alloc::Global;
use std::sync::Wait;
use std::thread::Threads;
use version_book::Book;
use workers::{Gate, Session};

/// A worker holds a ticket of it.
const CLAIMED: u64 = 2;

/// It was dropped and added again.
const ADDED: u64 = 4;

/// A scenario is dropped and added again while a worker holds a ticket of it.
#[derive(Drop)]
struct AddedAgain {
    flags: Flags,
}

impl Gate for AddedAgain {
    fn before_work(&self, _ticket: u64) {
        self.flags.set(CLAIMED);
        self.flags.wait(ADDED);
    }

    fn before_finish(&self, _ticket: u64) {}
}

impl<R: Wait, J: Naming> DeskHandle<'_, R, Global, J> {
    fn adds_big(&self, session: &mut Session<Global, J>) -> Result<ScenarioId, Wrong> {
        let (name, scenario) = ("big", ten()?);
        match self.reply(session, &SessionCall::Add { name, scenario })? {
            Reply::Added { id } => Ok(id),
            _ => Err(Wrong::Reply),
        }
    }

    // Drops it and adds it again: the old id is gone, and of the new one nothing is shown yet.
    fn adds_again(&self, session: &mut Session<Global, J>, id: ScenarioId) -> Result<(), Wrong> {
        let dropped = self.reply(session, &SessionCall::Drop { name: "big" })?;
        let new = self.adds_big(session)?;
        let gone = self.reply(session, &SessionCall::View { id })?;
        let early = self.reply(session, &SessionCall::View { id: new })?;
        right_if(
            dropped == Reply::Dropped { id }
                && gone == Reply::NoSuchScenario
                && early == Reply::NotYet
                && self.find(session, "big") == Some(new),
            Wrong::Reply,
        )
    }
}

impl Script<Global> for AddedAgain {
    fn play<R: Wait, J: Naming>(
        &self,
        handle: &DeskHandle<'_, R, Global, J>,
        session: &mut Session<Global, J>,
    ) -> Result<(), Wrong> {
        let id = handle.adds_big(session)?;
        self.flags.wait(CLAIMED);
        let found = handle.adds_again(session, id);
        self.flags.set(ADDED);
        let _ = handle.settle(session);
        found
    }

    // A ticket was handed in that is unknown; it is wrong too where a flag did not come in time.
    fn judge(&self, book: &mut Book<Global>) -> Result<(), Wrong> {
        right_if(self.flags.are_in_time(), Wrong::Thread)?;
        right_if(has_unknown_ticket(book), Wrong::Journal)
    }
}

fn has_unknown_ticket(book: &Book<Global>) -> bool {
    let mut is_found = false;
    for note in book.journal() {
        is_found = is_found || matches!(note.reply, Reply::UnknownTicket);
    }
    is_found
}

/// The ticket of a scenario that was dropped meanwhile is unknown, and its id too.
pub(crate) fn is_right<R: Threads + Wait + Sync>(rt: &R, alloc: Global) -> Result<(), Wrong> {
    let book = book_of(alloc, 1)?;
    let again = AddedAgain {
        flags: Flags::new(),
    };
    is_right_with(rt, alloc, book, Callers::stopped(1, 1), &again, &again)
}
