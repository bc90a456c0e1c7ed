// Whether the callers' lists are the notes of a journal.
ghost use Rattle.std.specs.Prelude.{◌≡◌, ◌↔◌, IsTrue, map, true};
ghost use Rattle.std.specs.List.{All, list_any};
ghost use Rattle.book_machine.specs.declared.caller.Caller.TheVariants as caller;
ghost use Rattle.book_machine.specs.History.{Noted};
ghost use Rattle.book_machine.specs.Noted.{noted_of};
ghost use Rattle.workers.specs.Callers.{SessionView, WorkerView};
ghost use Rattle.workers.specs.Lists.{same_caller};
ghost use Rattle.workers.specs.Closing.{IsAnswered, SessionsTell, WorkersTell, is_known};

use crate::parts::{is_part, is_same_caller};
use crate::session::Session;
use crate::worker::Worker;
use book_machine::{Caller, Note};
use chronicle::Naming;
use std::alloc::Allocator;

fn sessions_tell<A: Allocator + Copy, J: Naming>(
    sessions: &[Session<A, J>],
    notes: &[Note<A>],
) -> bool
    ensures { IsTrue result ↔ SessionsTell sessions.now (map noted_of notes.now) }
{
    for session in sessions {
        if !is_part(Caller::Session(session.number()), session.list(), notes) {
            return false;
        }
    }
    true
}

fn workers_tell<A: Allocator + Copy, J: Naming>(workers: &[Worker<A, J>], notes: &[Note<A>]) -> bool
    ensures { IsTrue result ↔ WorkersTell workers.now (map noted_of notes.now) }
{
    for worker in workers {
        if !is_part(Caller::Worker(worker.number()), worker.list(), notes) {
            return false;
        }
    }
    true
}

fn is_of_session<A: Allocator + Copy, J: Naming>(sessions: &[Session<A, J>], who: Caller) -> bool
    ensures { result ≡ list_any (λ (s : SessionView). same_caller who (caller.Session s.number)) sessions.now }
{
    sessions.iter().any(|session| is_same_caller(who, Caller::Session(session.number())))
}

fn is_of_worker<A: Allocator + Copy, J: Naming>(workers: &[Worker<A, J>], who: Caller) -> bool
    ensures { result ≡ list_any (λ (w : WorkerView). same_caller who (caller.Worker w.number)) workers.now }
{
    workers.iter().any(|worker| is_same_caller(who, Caller::Worker(worker.number())))
}

fn is_of_caller<A: Allocator + Copy, J: Naming>(
    sessions: &[Session<A, J>],
    workers: &[Worker<A, J>],
    note: &Note<A>,
) -> bool
    ensures { result ≡ is_known sessions.now workers.now (noted_of note.now) }
{
    is_of_session(sessions, note.caller) || is_of_worker(workers, note.caller)
}

fn are_known<A: Allocator + Copy, J: Naming>(
    sessions: &[Session<A, J>],
    workers: &[Worker<A, J>],
    notes: &[Note<A>],
) -> bool
    ensures { IsTrue result ↔ All (λ (n : Noted). is_known sessions.now workers.now n ≡ true) (map noted_of notes.now) }
{
    for note in notes {
        if !is_of_caller(sessions, workers, note) {
            return false;
        }
    }
    true
}

pub(crate) fn is_answered<A: Allocator + Copy, J: Naming>(
    sessions: &[Session<A, J>],
    workers: &[Worker<A, J>],
    notes: &[Note<A>],
) -> bool
    ensures { IsTrue result ↔ IsAnswered sessions.now workers.now (map noted_of notes.now) }
{
    if !sessions_tell(sessions, notes) {
        return false;
    }
    if !workers_tell(workers, notes) {
        return false;
    }
    are_known(sessions, workers, notes)
}
