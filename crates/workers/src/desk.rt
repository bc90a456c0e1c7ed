// `closed` is all of the history where `close` handed the desk back.
ghost use Rattle.std.specs.Prelude.{◌≡◌, false, is_none, length, IfSome};
ghost use Rattle.std.specs.Sync.Mutex.{mutex_guard_value};
ghost use Rattle.book_machine.specs.declared.caller.Caller.TheVariants as caller;
ghost use Rattle.book_machine.specs.Machine.{settled};
ghost use Rattle.version_book.specs.Book.{machine_of};
ghost use Rattle.workers.specs.Callers.{IsNewSession, IsNewWorker};
ghost use Rattle.workers.specs.History.{EndsOpened, Stops};
ghost use Rattle.workers.specs.Readings.{is_idle};
ghost use Rattle.workers.specs.Settling.{outcome_settled};

use crate::session::Session;
use crate::shared::Shared;
use crate::worker::Worker;
use chronicle::{Front, Naming, Unnamed};
use std::alloc::Allocator;
use std::sync::{Condvar, Mutex, MutexGuard, Wait};
use version_book::Book;

/// A book that sessions and workers share, under one lock for all their calls.
///
/// The notes that the book had when the desk was made are the opening ones. The callers' lists, the
/// desk's history and `close` speak of the later ones.
#[derive(Drop)]
pub struct Desk<A: Allocator + Copy, J: Naming> {
    pub(crate) alloc: A,
    pub(crate) opening: usize,
    pub(crate) shared: Mutex<Shared<A, J>>,
    pub(crate) changed: Condvar,
    pub(crate) closed: Option<Front<J>>,
    pub ghost opened_at: { opening ≡ J.opening.notes },
}

impl<A: Allocator + Copy, J: Naming> Desk<A, J> {
    /// A desk over a book, without callers; it takes no memory. Its callers' lists are allocated with
    /// `alloc`. Its history begins at the book's state.
    pub fn new(alloc: A, book: Book<A>, unnamed: Unnamed) -> Desk<A, J>
        requires name { unnamed ≡ J.book }
        requires opening { J.opening ≡ machine_of book }
        ensures { result.opening ≡ length book.journal }
    {
        Desk {
            alloc,
            opening: book.journal().len(),
            shared: Mutex::new(Shared::new(book, unnamed.named::<J>())),
            changed: Condvar::new(),
            closed: None,
        }
    }

    /// A session, numbered from 0 on; None after 64. It may wait for the lock, and takes no memory.
    /// The history that it knows ends where it was opened.
    pub fn open_session<R: Wait>(&self, rt: &R) -> Option<Session<A, J>>
        ensures new { IfSome result IsNewSession }
        ensures opened { IfSome result (λ s. EndsOpened (caller.Session s.number) s.front) }
    {
        let (number, front) = self.shared.lock(rt).next_session()?;
        Some(Session::new(self.alloc, number, front))
    }

    /// A worker, numbered from 0 on; None after 64. It may wait for the lock, and takes no memory.
    /// The history that it knows ends where it was opened.
    pub fn open_worker<R: Wait>(&self, rt: &R) -> Option<Worker<A, J>>
        ensures new { IfSome result IsNewWorker }
        ensures opened { IfSome result (λ w. EndsOpened (caller.Worker w.number) w.front) }
    {
        let (number, front) = self.shared.lock(rt).next_worker()?;
        Some(Worker::new(self.alloc, number, front))
    }

    /// Stops the desk and wakes all that wait: workers end, and sessions no longer wait for runs.
    pub fn stop<R: Wait>(&self, rt: &R) {
        self.shared.lock(rt).stop();
        self.changed.notify_all();
    }

    pub(crate) fn stop_for<R: Wait>(&self, rt: &R, front: &mut Front<J>)
        ensures { Stops front.old front.new }
    {
        self.shared.lock(rt).stop_for(front);
        self.changed.notify_all();
    }

    pub(crate) fn when_busy<R: Wait>(&self, rt: &R) -> MutexGuard<'_, Shared<A, J>>
        ensures { is_idle (mutex_guard_value result).stopped (mutex_guard_value result).book.state ≡ false }
    {
        self.changed
            .wait_while(rt, self.shared.lock(rt), |shared| shared.is_idle())
    }

    pub(crate) fn when_settled<R: Wait>(&self, rt: &R, seen: u64) -> MutexGuard<'_, Shared<A, J>>
        ensures { is_none (outcome_settled (settled seen (machine_of (mutex_guard_value result).book)) (mutex_guard_value result).stopped) ≡ false }
    {
        self.changed.wait_while(
            rt,
            self.shared.lock(rt),
            |shared| shared.settled_for(seen).is_none(),
        )
    }
}
