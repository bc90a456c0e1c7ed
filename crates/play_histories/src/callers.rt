// How many callers a desk opens.
use crate::desk_handle::DeskHandle;
use crate::known_log::book_of;
use crate::threads::{Callers, Script, is_right_with};
use crate::wrong::{Wrong, right_if};
use chronicle::Naming;
use std::alloc::Global;
use std::sync::Wait;
use std::thread::Threads;
use version_book::Book;
use workers::{NoGate, Session};

/// So many sessions, and so many workers, a desk opens at most.
const MOST: usize = 64;

/// Opens one more.
struct OneMore;

impl Script<Global> for OneMore {
    fn play<R: Wait, J: Naming>(
        &self,
        handle: &DeskHandle<'_, R, Global, J>,
        _session: &mut Session<Global, J>,
    ) -> Result<(), Wrong> {
        let is_last = handle.desk.open_session(handle.rt).is_none()
            && handle.desk.open_worker(handle.rt).is_none();
        right_if(is_last, Wrong::Opened)
    }

    fn judge(&self, book: &mut Book<Global>) -> Result<(), Wrong> {
        right_if(book.journal().is_empty(), Wrong::Opened)
    }
}

/// A desk opens 64 sessions and 64 workers and no more, and closes with them.
pub(crate) fn is_right<R: Threads + Wait + Sync>(rt: &R, alloc: Global) -> Result<(), Wrong> {
    let book = book_of(alloc, 1)?;
    let callers = Callers::stopped(MOST, MOST);
    is_right_with(rt, alloc, book, callers, &NoGate, &OneMore)
}
