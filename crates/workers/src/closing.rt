ghost use Rattle.std.specs.Prelude.{◌≡◌, ◌↔◌, IfOk, IfErr, IsTrue, Some, drop};
ghost use Rattle.std.specs.List.{All};
ghost use Rattle.chronicle.specs.Fronts.{Begins};
ghost use Rattle.version_book.specs.Book.{machine_of};
ghost use Rattle.version_book.specs.Sound.{IsBook};
ghost use Rattle.workers.specs.Callers.{SessionView, WorkerView};
ghost use Rattle.workers.specs.Closing.{AreOpened, IsTheirs, IsAnswered, SpeaksAgainst, StandInOne, StaysFor};

use crate::close_fault::CloseFault;
use crate::desk::Desk;
use crate::listing::is_answered;
use crate::parts::later_notes;
use crate::roster::are_opened;
use crate::session::Session;
use crate::shared::Shared;
use crate::worker::Worker;
use chronicle::{Naming, Whole};
use std::alloc::Allocator;
use std::sync::{Condvar, Mutex};
use version_book::Book;

/// Why a desk is not closed, and what it was to be closed with, which is handed back.
pub type NotClosed<D, A, J> = (CloseFault, D, Vec<Session<A, J>, A>, Vec<Worker<A, J>, A>);

fn sessions_begin<A: Allocator + Copy, J: Naming>(
    sessions: &[Session<A, J>],
    whole: &Whole<J>,
) -> bool
    ensures { IsTrue result ↔ All (λ (s : SessionView). Begins s.front whole.now) sessions.now }
{
    for session in sessions {
        if !session.begins(whole) {
            return false;
        }
    }
    true
}

fn workers_begin<A: Allocator + Copy, J: Naming>(workers: &[Worker<A, J>], whole: &Whole<J>) -> bool
    ensures { IsTrue result ↔ All (λ (w : WorkerView). Begins w.front whole.now) workers.now }
{
    for worker in workers {
        if !worker.begins(whole) {
            return false;
        }
    }
    true
}

fn is_theirs<A: Allocator + Copy, J: Naming>(
    shared: &Shared<A, J>,
    opening: usize,
    sessions: &[Session<A, J>],
    workers: &[Worker<A, J>],
) -> bool
    requires { opening ≡ J.opening.notes }
    ensures { IsTrue result ↔ IsTheirs shared.now.history sessions.now workers.now }
{
    if !shared.is_kept() {
        return false;
    }
    if !sessions_begin(sessions, &shared.whole) {
        return false;
    }
    if !workers_begin(workers, &shared.whole) {
        return false;
    }
    is_answered(
        sessions,
        workers,
        later_notes(shared.book.journal(), opening),
    )
}

fn fault_of<A: Allocator + Copy, J: Naming>(
    shared: &Shared<A, J>,
    opening: usize,
    sessions: &[Session<A, J>],
    workers: &[Worker<A, J>],
) -> Option<CloseFault>
    requires { opening ≡ J.opening.notes }
    ensures { SpeaksAgainst (AreOpened shared.now.history sessions.now workers.now) (IsTheirs shared.now.history sessions.now workers.now) result }
{
    if !are_opened(shared, sessions, workers) {
        return Some(CloseFault::StillOut);
    }
    if is_theirs(shared, opening, sessions, workers) {
        None
    } else {
        Some(CloseFault::Mismatch)
    }
}

fn closed<A: Allocator + Copy, J: Naming>(
    shared: Shared<A, J>,
    opening: usize,
    sessions: Vec<Session<A, J>, A>,
    workers: Vec<Worker<A, J>, A>,
) -> Result<Book<A>, NotClosed<Shared<A, J>, A, J>>
    requires { opening ≡ J.opening.notes }
    ensures book { IfOk result IsBook }
    ensures all { IfOk result (λ b. AreOpened shared.history sessions.items workers.items) }
    ensures outcome { IfOk result (λ b. IsAnswered sessions.items workers.items (drop opening b.journal)) }
    ensures history { IfOk result (λ b. StandInOne J.opening sessions.items workers.items (drop opening b.journal) (machine_of b)) }
    ensures fault { IfErr result (λ e. StaysFor e.0 (Some e.1.history) sessions.items workers.items) }
    ensures back { IfErr result (λ e. (e.2 ≡ sessions) × (e.3 ≡ workers)) }
{
    let _is_kept = shared.is_kept();
    match fault_of(&shared, opening, &sessions, &workers) {
        None => Ok(shared.into_book()),
        Some(fault) => Err((fault, shared, sessions, workers)),
    }
}

fn reopened<A: Allocator + Copy, J: Naming>(
    alloc: A,
    opening: usize,
    changed: Condvar,
    outcome: NotClosed<Shared<A, J>, A, J>,
) -> NotClosed<Desk<A, J>, A, J>
    requires { opening ≡ J.opening.notes }
    ensures fault { result.0 ≡ outcome.0 }
    ensures closed { result.1.closed ≡ Some outcome.1.history }
    ensures back { (result.1.opening ≡ opening) × (result.2 ≡ outcome.2) × (result.3 ≡ outcome.3) }
{
    let (fault, shared, sessions, workers) = outcome;
    let desk = Desk {
        alloc,
        opening,
        closed: Some(shared.whole.front()),
        shared: Mutex::new(shared),
        changed,
    };
    (fault, desk, sessions, workers)
}

/// Closes a desk, given all its callers, each with the list of its own calls, and returns the book; it
/// takes no memory and waits for nobody.
///
/// At Ok all callers that were opened are handed in, each caller's list is its part of the notes after
/// the opening ones, in order, and none of these notes is anyone else's: each reply to a caller stands in
/// one legal history, of which each caller has seen a beginning, and which leads from where the desk was
/// opened to where the book stands.
/// StillOut where the sessions and workers are not all that the desk opened; Mismatch where a list is
/// not its caller's part of the notes, or a note is of none of them. All is then returned, and the desk
/// has all of its history.
pub fn close<A: Allocator + Copy, J: Naming>(
    desk: Desk<A, J>,
    sessions: Vec<Session<A, J>, A>,
    workers: Vec<Worker<A, J>, A>,
) -> Result<Book<A>, NotClosed<Desk<A, J>, A, J>>
    ensures book { IfOk result IsBook }
    ensures outcome { IfOk result (λ b. IsAnswered sessions.items workers.items (drop desk.opening b.journal)) }
    ensures history { IfOk result (λ b. StandInOne J.opening sessions.items workers.items (drop desk.opening b.journal) (machine_of b)) }
    ensures fault { IfErr result (λ e. StaysFor e.0 e.1.closed sessions.items workers.items) }
    ensures back { IfErr result (λ e. (e.1.opening ≡ desk.opening) × (e.2 ≡ sessions) × (e.3 ≡ workers)) }
{
    let Desk {
        alloc,
        opening,
        shared,
        changed,
        ..
    } = desk;
    match closed(shared.into_inner(), opening, sessions, workers) {
        Ok(book) => Ok(book),
        Err(outcome) => Err(reopened(alloc, opening, changed, outcome)),
    }
}
