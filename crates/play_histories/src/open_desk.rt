ghost use Rattle.std.specs.Prelude.{◌≡◌};
ghost use Rattle.version_book.specs.Book.{machine_of};

use crate::wrong::Wrong;
use chronicle::{Naming, Unnamed};
use std::alloc::Allocator;
use std::sync::Wait;
use version_book::Book;
use workers::{CloseFault, Desk, Session, Worker, close};

/// A desk with its sessions and workers.
#[derive(Drop)]
pub(crate) struct OpenDesk<A: Allocator + Copy, J: Naming> {
    pub(crate) desk: Desk<A, J>,
    pub(crate) sessions: Vec<Session<A, J>, A>,
    pub(crate) workers: Vec<Worker<A, J>, A>,
}

// Opens so many sessions.
fn sessions_of<R: Wait, A: Allocator + Copy, J: Naming>(
    rt: &R,
    alloc: A,
    desk: &Desk<A, J>,
    count: usize,
) -> Result<Vec<Session<A, J>, A>, Wrong> {
    let mut sessions = Vec::with_capacity(alloc, count)?;
    for _ in 0..count {
        match desk.open_session(rt) {
            Some(session) => sessions.push(session)?,
            None => return Err(Wrong::Input),
        }
    }
    Ok(sessions)
}

// Opens so many workers.
fn workers_of<R: Wait, A: Allocator + Copy, J: Naming>(
    rt: &R,
    alloc: A,
    desk: &Desk<A, J>,
    count: usize,
) -> Result<Vec<Worker<A, J>, A>, Wrong> {
    let mut workers = Vec::with_capacity(alloc, count)?;
    for _ in 0..count {
        match desk.open_worker(rt) {
            Some(worker) => workers.push(worker)?,
            None => return Err(Wrong::Input),
        }
    }
    Ok(workers)
}

impl<A: Allocator + Copy, J: Naming> OpenDesk<A, J> {
    /// A desk over a book with so many callers; Memory where a growth is refused.
    pub(crate) fn new<R: Wait>(
        rt: &R,
        alloc: A,
        book: Book<A>,
        unnamed: Unnamed,
        sessions: usize,
        workers: usize,
    ) -> Result<OpenDesk<A, J>, Wrong>
        requires name { unnamed ≡ J.book }
        requires opening { J.opening ≡ machine_of book }
    {
        let desk = Desk::new(alloc, book, unnamed);
        let sessions = sessions_of(rt, alloc, &desk, sessions)?;
        let workers = workers_of(rt, alloc, &desk, workers)?;
        Ok(OpenDesk {
            desk,
            sessions,
            workers,
        })
    }

    /// The book, once the desk is closed.
    pub(crate) fn close(self) -> Result<Book<A>, Wrong> {
        match close(self.desk, self.sessions, self.workers) {
            Ok(book) => Ok(book),
            Err(_) => Err(Wrong::Close),
        }
    }

    /// All that is handed back where the desk does not close, since a caller is still out.
    pub(crate) fn still_out(self) -> Result<OpenDesk<A, J>, Wrong> {
        match close(self.desk, self.sessions, self.workers) {
            Err((CloseFault::StillOut, desk, sessions, workers)) => Ok(OpenDesk {
                desk,
                sessions,
                workers,
            }),
            _ => Err(Wrong::Close),
        }
    }
}
