// A desk whose journal has capacity for one note more.
use crate::answers::Unanswered;
use crate::desk_handle::DeskHandle;
use crate::desk_history::is_legal;
use crate::known_log::{Looks, ten, with_base};
use crate::session_call::SessionCall;
use crate::threads::{Callers, Script, is_right_with};
use crate::wrong::{Wrong, right_if};
use chronicle::Naming;
use job_table::Edit;
use scenarios::{Scenario, ScenarioId};
use std::alloc::Global;
use std::sync::Wait;
use std::thread::Threads;
use version_book::Book;
use workers::{NoGate, Session, WorkerEnd};

/// So many notes a journal has at most.
const NOTES: u64 = 1_000_000;

// Edits by which nothing changes but that each is noted, until one note more fits.
fn fills(book: &mut Book<Global>) {
    let none = Edit::Remove(99);
    for _ in 2..NOTES {
        let _refused = book.edit(0, &none);
    }
}

fn nearly_full(alloc: Global) -> Result<Book<Global>, Wrong> {
    let mut book = with_base(alloc)?;
    fills(&mut book);
    Ok(book)
}

impl<R: Wait, J: Naming> DeskHandle<'_, R, Global, J> {
    fn is_full(&self, session: &mut Session<Global, J>, call: &SessionCall<'_, Global>) -> bool {
        matches!(self.answer(session, call), Err(Unanswered::JournalFull))
    }

    fn are_full(
        &self,
        session: &mut Session<Global, J>,
        base: ScenarioId,
        scenario: Scenario,
    ) -> bool {
        let name = "more";
        self.is_full(session, &SessionCall::Edit(&Edit::Remove(1)))
            && self.is_full(session, &SessionCall::Add { name, scenario })
            && self.is_full(session, &SessionCall::Drop { name: "base" })
            && self.is_full(session, &SessionCall::Retry { id: base })
            && self.is_full(session, &SessionCall::View { id: base })
    }

    // Is refused each call, by which nothing changes.
    fn is_refused(&self, session: &mut Session<Global, J>) -> Result<(), Wrong> {
        let Some(base) = self.find(session, "base") else {
            return Err(Wrong::Input);
        };
        right_if(self.are_full(session, base, ten()?), Wrong::Reply)?;
        let unchanged = Looks {
            version: 0,
            base: Some(base),
            more: None,
            seen: 0,
            listed: 0,
        };
        right_if(self.looks(session) == unchanged, Wrong::Changed)
    }
}

/// A session waits until a worker has filled the journal by its claim, and has so ended.
#[derive(Drop)]
struct Refused {
    alloc: Global,
}

impl Script<Global> for Refused {
    fn play<R: Wait, J: Naming>(
        &self,
        handle: &DeskHandle<'_, R, Global, J>,
        session: &mut Session<Global, J>,
    ) -> Result<(), Wrong> {
        right_if(handle.is_stopped(session), Wrong::Settled)?;
        handle.is_refused(session)?;
        right_if(handle.is_stopped(session), Wrong::Settled)
    }

    fn judge(&self, book: &mut Book<Global>) -> Result<(), Wrong> {
        right_if(book.journal().len() as u64 == NOTES, Wrong::Listed)?;
        is_legal(self.alloc, book.journal())
    }
}

/// A worker ends at a full journal, a session is refused each call then, and the desk closes.
pub(crate) fn is_right<R: Threads + Wait + Sync>(rt: &R, alloc: Global) -> Result<(), Wrong> {
    let callers = Callers {
        sessions: 1,
        workers: 1,
        end: WorkerEnd::Full,
    };
    let book = nearly_full(alloc)?;
    is_right_with(rt, alloc, book, callers, &NoGate, &Refused { alloc })
}
