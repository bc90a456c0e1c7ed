// Two workers run, and the one that was given the older ticket hands in last.
use crate::desk_handle::DeskHandle;
use crate::known_log::with_base;
use crate::threads::{Callers, Script, is_right_with};
use crate::wrong::{Wrong, right_if};
use book_machine::{Call, Note, Reply};
use checking::Flags;
use chronicle::Naming;
use job_table::Edit;
use std::alloc::Global;
use std::sync::Wait;
use std::thread::Threads;
use version_book::Book;
use workers::{Gate, Session};

/// The first ticket was claimed.
const CLAIMED: u64 = 2;

/// An edit was answered.
const EDITED: u64 = 4;

/// The first ticket's run was made.
const WORKED: u64 = 8;

/// The second one's run was published.
const PUBLISHED: u64 = 16;

/// The first ticket is held before its work until an edit was answered, and then before its finish until
/// the second one's finish was answered. The second is held before its work until the first is about to
/// be handed in. So no worker holds the lock while it works, and they work beside each other.
#[derive(Drop)]
struct Held {
    flags: Flags,
}

impl Gate for Held {
    fn before_work(&self, ticket: u64) {
        if ticket == 1 {
            self.flags.set(CLAIMED);
            self.flags.wait(EDITED);
        } else {
            self.flags.wait(WORKED);
        }
    }

    fn before_finish(&self, ticket: u64) {
        if ticket == 1 {
            self.flags.set(WORKED);
            self.flags.wait(PUBLISHED);
        }
    }
}

impl Script<Global> for Held {
    fn play<R: Wait, J: Naming>(
        &self,
        handle: &DeskHandle<'_, R, Global, J>,
        session: &mut Session<Global, J>,
    ) -> Result<(), Wrong> {
        self.flags.wait(CLAIMED);
        let is_edited = handle.makes(session, &Edit::Remove(4), 1);
        self.flags.set(EDITED);
        let is_settled = handle.is_done(session);
        self.flags.set(PUBLISHED);
        right_if(is_edited && is_settled, Wrong::Reply)
    }

    // The first finish was stale; it is wrong too where a flag did not come in time.
    fn judge(&self, book: &mut Book<Global>) -> Result<(), Wrong> {
        right_if(self.flags.are_in_time(), Wrong::Thread)?;
        right_if(is_first_stale(book), Wrong::Journal)
    }
}

// Whether this is the finish of the first ticket, which was answered that a newer run is published.
fn is_stale(note: &Note<Global>) -> bool {
    match (&note.call, &note.reply) {
        (Call::Finish { ticket, fits }, Reply::Stale { published }) => {
            *ticket == 1 && *fits && *published == 1
        }
        _ => false,
    }
}

fn is_first_stale(book: &Book<Global>) -> bool {
    let mut is_found = false;
    for note in book.journal() {
        is_found = is_found || is_stale(note);
    }
    is_found
}

/// A late run is stale.
pub(crate) fn is_right<R: Threads + Wait + Sync>(rt: &R, alloc: Global) -> Result<(), Wrong> {
    let book = with_base(alloc)?;
    let held = Held {
        flags: Flags::new(),
    };
    is_right_with(rt, alloc, book, Callers::stopped(1, 2), &held, &held)
}
