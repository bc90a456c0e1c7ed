// A session that settles after what was given up is tried again, with a worker and at a stopped desk.
ghost use Rattle.std.specs.Prelude.{◌≡◌};
ghost use Rattle.version_book.specs.Book.{machine_of};

use crate::desk_handle::DeskHandle;
use crate::known_log::with_base;
use crate::open_desk::OpenDesk;
use crate::threads::{Callers, Script, is_right_with};
use crate::wrong::{Wrong, right_if};
use chronicle::{Naming, Unnamed};
use std::alloc::Global;
use std::marker::Brand;
use std::sync::Wait;
use std::thread::Threads;
use version_book::Book;
use workers::{NoGate, Session, Settled, Worker, WorkerEnd};

fn gives_up(book: &mut Book<Global>) -> bool {
    match book.claim(0) {
        Ok(Some(task)) => book.give_up(0, task.ticket()).is_ok(),
        _ => false,
    }
}

fn given_up(alloc: Global) -> Result<Book<Global>, Wrong> {
    let mut book = with_base(alloc)?;
    if gives_up(&mut book) {
        Ok(book)
    } else {
        Err(Wrong::Input)
    }
}

impl<R: Wait, J: Naming> DeskHandle<'_, R, Global, J> {
    fn retries(&self, session: &mut Session<Global, J>) -> bool {
        match self.find(session, "base") {
            Some(id) => session.retry(self.rt, self.desk, id).is_ok(),
            None => false,
        }
    }

    // Whether a session waits for nothing at a desk that is stopped while a scenario is due, and a worker
    // ends there and has called nothing.
    fn are_stopped(
        &self,
        session: &mut Session<Global, J>,
        worker: &mut Worker<Global, J>,
    ) -> bool {
        let is_due = self.retries(session);
        self.desk.stop(self.rt);
        is_due
            && self.is_stopped(session)
            && worker.run(self.rt, self.desk, &NoGate) == WorkerEnd::Stopped
            && worker.list().is_empty()
    }
}

/// What was given up has failed; it is tried again while a worker runs, and settles.
struct TriesAgain;

impl Script<Global> for TriesAgain {
    fn play<R: Wait, J: Naming>(
        &self,
        handle: &DeskHandle<'_, R, Global, J>,
        session: &mut Session<Global, J>,
    ) -> Result<(), Wrong> {
        right_if(
            matches!(handle.settle(session), Settled::Failed(1))
                && handle.retries(session)
                && handle.is_done(session),
            Wrong::Settled,
        )
    }

    fn judge(&self, book: &mut Book<Global>) -> Result<(), Wrong> {
        right_if(!book.journal().is_empty(), Wrong::Journal)
    }
}

fn stop_both<R: Wait, J: Naming>(rt: &R, open: &mut OpenDesk<Global, J>) -> Result<(), Wrong> {
    let handle = DeskHandle {
        rt,
        desk: &open.desk,
    };
    match (open.sessions.first_mut(), open.workers.first_mut()) {
        (Some(session), Some(worker)) => {
            right_if(handle.are_stopped(session, worker), Wrong::Ended)
        }
        _ => Err(Wrong::Input),
    }
}

fn is_left_on<J: Naming, R: Wait>(
    rt: &R,
    alloc: Global,
    book: Book<Global>,
    unnamed: Unnamed,
) -> Result<(), Wrong>
    requires name { unnamed ≡ J.book }
    requires opening { J.opening ≡ machine_of book }
{
    let mut open = OpenDesk::<Global, J>::new(rt, alloc, book, unnamed, 1, 1)?;
    stop_both(rt, &mut open)
}

fn is_left<R: Wait>(rt: &R, alloc: Global) -> Result<(), Wrong> {
    let book = given_up(alloc)?;
    is_left_on::<Brand, R>(rt, alloc, book, Unnamed::new())
}

// Whether what was given up settles once it is tried again while a worker runs.
fn is_settled<R: Threads + Wait + Sync>(rt: &R, alloc: Global) -> Result<(), Wrong> {
    let book = given_up(alloc)?;
    let callers = Callers::stopped(1, 1);
    is_right_with(rt, alloc, book, callers, &NoGate, &TriesAgain)
}

/// What was given up settles once it is tried again; a stopped desk leaves what is due.
pub(crate) fn is_right<R: Threads + Wait + Sync>(rt: &R, alloc: Global) -> Result<(), Wrong> {
    is_settled(rt, alloc)?;
    is_left(rt, alloc)
}
