// Each growth at a desk refused in turn, from the first one until a history meets no refusal.
ghost use Rattle.std.specs.Prelude.{◌≡◌};
ghost use Rattle.version_book.specs.Book.{machine_of};

use crate::analyst::First;
use crate::desk_handle::DeskHandle;
use crate::growing::{Growing, Wants, played};
use crate::known_log::{fifth, with_base};
use crate::open_desk::OpenDesk;
use crate::threads::closes;
use crate::wrong::{Wrong, right_if};
use chronicle::{Naming, Unnamed};
use refusing::Refusing;
use std::alloc::{Allocator, Global};
use std::marker::Brand;
use std::sync::Wait;
use std::thread::Threads;
use version_book::Book;

/// All that may come first.
const FIRSTS: [First; 8] = [
    First::Edit,
    First::Add,
    First::Drop,
    First::Retry,
    First::View,
    First::Read,
    First::Work,
    First::Run,
];

// All wants of a history whose desk is closed: also those of the tickets that were given up.
fn with_given_up(wants: Wants, given_up: u64, first: First) -> Wants {
    Wants {
        all: wants.all.saturating_add(given_up),
        was_first: wants.was_first || (first == First::Run && given_up > 0),
    }
}

fn played_at<R: Threads + Wait + Sync, A: Allocator + Copy + Send + Sync, J: Naming + Send + Sync>(
    rt: &R,
    open: &mut OpenDesk<A, J>,
    script: &Growing<'_, A>,
    first: First,
) -> Result<Wants, Wrong> {
    let handle = DeskHandle {
        rt,
        desk: &open.desk,
    };
    played(
        &handle,
        &mut open.sessions,
        &mut open.workers,
        script,
        first,
    )
}

// Plays a history at a desk over this book, closes it and judges its journal; none where a growth was
// refused before.
fn history_on<J: Naming + Send + Sync, R: Threads + Wait + Sync, A: Allocator + Copy + Send + Sync>(
    rt: &R,
    alloc: A,
    book: Book<A>,
    unnamed: Unnamed,
    script: &Growing<'_, A>,
    first: First,
) -> Result<Option<Wants>, Wrong>
    requires name { unnamed ≡ J.book }
    requires opening { J.opening ≡ machine_of book }
{
    let Ok(mut open) = OpenDesk::<A, J>::new(rt, alloc, book, unnamed, 1, 1) else {
        return Ok(None);
    };
    let played = played_at(rt, &mut open, script, first);
    let closed = closes(open, script);
    let wants = played?;
    closed?;
    Ok(Some(with_given_up(wants, script.given_up(), first)))
}

fn history_with<R: Threads + Wait + Sync, A: Allocator + Copy + Send + Sync>(
    rt: &R,
    alloc: A,
    script: &Growing<'_, A>,
    first: First,
) -> Result<Option<Wants>, Wrong> {
    match with_base(alloc) {
        Ok(book) => history_on::<Brand, R, A>(rt, alloc, book, Unnamed::new(), script, first),
        Err(_) => Ok(None),
    }
}

fn history_of<R: Threads + Wait + Sync, A: Allocator + Copy + Send + Sync>(
    rt: &R,
    alloc: A,
    enough: A,
    first: First,
) -> Result<Option<Wants>, Wrong> {
    match fifth(alloc) {
        Ok(joins) => history_with(rt, alloc, &Growing::new(enough, &joins), first),
        Err(_) => Ok(None),
    }
}

/// What came of a history while the growth of a number was refused.
#[derive(Clone, Copy)]
enum Met {
    /// There was no such growth.
    Nothing,
    /// It was refused before the history began.
    Before,
    /// Memory ran out once, at what came first or later.
    Once { by_first: bool },
}

fn met_at<R: Threads + Wait + Sync>(
    rt: &R,
    alloc: Global,
    nth: u64,
    first: First,
) -> Result<Met, Wrong> {
    let heap = Refusing::new(alloc, nth);
    let enough = Refusing::new(alloc, 0);
    let Some(wants) = history_of(rt, &heap, &enough, first)? else {
        return Ok(Met::Before);
    };
    match (heap.refused(), wants.all) {
        (false, 0) => Ok(Met::Nothing),
        (true, 1) => Ok(Met::Once {
            by_first: wants.was_first,
        }),
        _ => Err(Wrong::Wants),
    }
}

/// More growths than are made.
const MANY: u64 = 100_000;

// Refuses each growth in turn; at one of them what comes first runs out of memory.
fn is_right_after<R: Threads + Wait + Sync>(
    rt: &R,
    alloc: Global,
    first: First,
) -> Result<(), Wrong> {
    let mut was_answered = false;
    for nth in 1..MANY {
        match met_at(rt, alloc, nth, first)? {
            Met::Nothing => return right_if(was_answered, Wrong::Unreported),
            Met::Before => {}
            Met::Once { by_first } => was_answered = was_answered || by_first,
        }
    }
    Err(Wrong::Endless)
}

/// Refuses each growth in turn, with each call once the first one: every history ends, nothing changes
/// by a refused call, each refused growth is answered once, and every desk closes with a legal journal.
pub(crate) fn is_right<R: Threads + Wait + Sync>(rt: &R, alloc: Global) -> Result<(), Wrong> {
    for first in FIRSTS {
        is_right_after(rt, alloc, first)?;
    }
    Ok(())
}
