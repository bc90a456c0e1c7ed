// Two sessions edit, a worker runs, and both see the same.
ghost use Rattle.std.specs.Prelude.{◌≡◌};
ghost use Rattle.version_book.specs.Book.{machine_of};

use crate::desk_handle::DeskHandle;
use crate::known_log::{fifth, with_base};
use crate::open_desk::OpenDesk;
use crate::session_call::SessionCall;
use crate::threads::{Script, closes, play_all};
use crate::wrong::{Wrong, right_if};
use book_machine::Reply;
use chronicle::{Naming, Unnamed};
use job_table::Edit;
use std::alloc::Global;
use std::marker::Brand;
use std::sync::Wait;
use std::thread::Threads;
use version_book::{Book, FinishFault, FinishRefusal};
use workers::{NoGate, Session, Worker, WorkerEnd};

impl<R: Wait, J: Naming> DeskHandle<'_, R, Global, J> {
    fn sees_second(&self, session: &mut Session<Global, J>) -> bool {
        match self.find(session, "base") {
            Some(id) => matches!(
                self.known(session, &SessionCall::View { id }),
                Ok(Reply::Shown { version: 2 })
            ),
            None => false,
        }
    }

    fn is_edited(
        &self,
        session: Option<&mut Session<Global, J>>,
        edit: &Edit<Global>,
        version: u64,
    ) -> bool {
        match session {
            Some(session) => self.makes(session, edit, version),
            None => false,
        }
    }

    fn is_second(&self, session: Option<&mut Session<Global, J>>) -> bool {
        match session {
            Some(session) => session.version(self.rt, self.desk) == 2,
            None => false,
        }
    }

    // Whether job 5 joins by one session, job 4 leaves by the other, and the first, which has seen its
    // own edit alone, then reads the second version.
    fn are_edited(&self, sessions: &mut Vec<Session<Global, J>>, joins: &Edit<Global>) -> bool {
        self.is_edited(sessions.get_mut(0), joins, 1)
            && self.is_edited(sessions.get_mut(1), &Edit::Remove(4), 2)
            && self.is_second(sessions.get_mut(0))
    }
}

/// A session settles and looks.
struct Looking;

impl Script<Global> for Looking {
    fn play<R: Wait, J: Naming>(
        &self,
        handle: &DeskHandle<'_, R, Global, J>,
        session: &mut Session<Global, J>,
    ) -> Result<(), Wrong> {
        right_if(handle.is_done(session), Wrong::Settled)?;
        right_if(handle.sees_second(session), Wrong::Seen)?;
        let looks = handle.looks(session);
        right_if(looks.version == 2 && looks.seen == 2, Wrong::Seen)?;
        right_if(handle.is_read(session), Wrong::Reply)
    }

    // The book has a note of `base`, two edits, a claim with its finish, and two views, and the ticket
    // is closed.
    fn judge(&self, book: &mut Book<Global>) -> Result<(), Wrong> {
        right_if(book.journal().len() == 7, Wrong::Journal)?;
        match book.finish_delivered(0, 1) {
            Err(FinishRefusal::Fault(FinishFault::UnknownTicket)) => Ok(()),
            _ => Err(Wrong::Journal),
        }
    }
}

fn plays<R: Threads + Wait + Sync, J: Naming + Send + Sync>(
    rt: &R,
    alloc: Global,
    open: &mut OpenDesk<Global, J>,
) -> Result<(), Wrong> {
    let joins = fifth(alloc)?;
    let handle = DeskHandle {
        rt,
        desk: &open.desk,
    };
    right_if(handle.are_edited(&mut open.sessions, &joins), Wrong::Reply)?;
    play_all(rt, alloc, open, &NoGate, &Looking, WorkerEnd::Stopped)
}

fn rejoined<J: Naming>(
    mut open: OpenDesk<Global, J>,
    last: Session<Global, J>,
) -> Result<OpenDesk<Global, J>, Wrong> {
    match open.sessions.push(last) {
        Ok(()) => Ok(open),
        Err(_) => Err(Wrong::Memory),
    }
}

fn manned<J: Naming>(
    mut open: OpenDesk<Global, J>,
    last: Worker<Global, J>,
) -> Result<OpenDesk<Global, J>, Wrong> {
    match open.workers.push(last) {
        Ok(()) => Ok(open),
        Err(_) => Err(Wrong::Memory),
    }
}

// The desk, after it did not close without the last session.
fn without_session<J: Naming>(mut open: OpenDesk<Global, J>) -> Result<OpenDesk<Global, J>, Wrong> {
    match open.sessions.pop() {
        Some(last) => rejoined(open.still_out()?, last),
        None => Err(Wrong::Input),
    }
}

// The desk, after it did not close without the last worker.
fn without_worker<J: Naming>(mut open: OpenDesk<Global, J>) -> Result<OpenDesk<Global, J>, Wrong> {
    match open.workers.pop() {
        Some(last) => manned(open.still_out()?, last),
        None => Err(Wrong::Input),
    }
}

// Whether the desk doesn't close without a session, and closes with all callers.
fn closes_whole<J: Naming>(open: OpenDesk<Global, J>) -> Result<(), Wrong> {
    closes(without_session(open)?, &Looking)
}

fn plays_on<J: Naming + Send + Sync, R: Threads + Wait + Sync>(
    rt: &R,
    alloc: Global,
    book: Book<Global>,
    unnamed: Unnamed,
) -> Result<(), Wrong>
    requires name { unnamed ≡ J.book }
    requires opening { J.opening ≡ machine_of book }
{
    let idle = OpenDesk::<Global, J>::new(rt, alloc, book, unnamed, 2, 1)?;
    let mut open = without_worker(without_session(idle)?)?;
    let found = plays(rt, alloc, &mut open);
    found.and(closes_whole(open))
}

/// Two sessions see one version, and the desk closes with all its callers alone, whether or not they
/// called.
pub(crate) fn is_right<R: Threads + Wait + Sync>(rt: &R, alloc: Global) -> Result<(), Wrong> {
    let book = with_base(alloc)?;
    plays_on::<Brand, R>(rt, alloc, book, Unnamed::new())
}
