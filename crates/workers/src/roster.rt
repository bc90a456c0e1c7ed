ghost use Rattle.std.specs.Prelude.{◌≡◌, ◌↔◌, ◌<◌, ℕ, true, IsTrue};
ghost use Rattle.workers.specs.Closing.{AreAll, AreOpened, has_session, has_worker};

use crate::session::Session;
use crate::shared::Shared;
use crate::worker::Worker;
use chronicle::Naming;
use std::alloc::Allocator;

fn has_session<A: Allocator + Copy, J: Naming>(sessions: &[Session<A, J>], number: u64) -> bool
    ensures { result ≡ has_session sessions.now number }
{
    sessions.iter().any(|session| session.number() == number)
}

fn has_worker<A: Allocator + Copy, J: Naming>(workers: &[Worker<A, J>], number: u64) -> bool
    ensures { result ≡ has_worker workers.now number }
{
    workers.iter().any(|worker| worker.number() == number)
}

fn are_sessions_in<A: Allocator + Copy, J: Naming>(sessions: &[Session<A, J>], opened: u64) -> bool
    ensures { IsTrue result ↔ ((k : ℕ) → k < opened → has_session sessions.now k ≡ true) }
{
    for number in 0..opened {
        if !has_session(sessions, number) {
            return false;
        }
    }
    true
}

fn are_workers_in<A: Allocator + Copy, J: Naming>(workers: &[Worker<A, J>], opened: u64) -> bool
    ensures { IsTrue result ↔ ((k : ℕ) → k < opened → has_worker workers.now k ≡ true) }
{
    for number in 0..opened {
        if !has_worker(workers, number) {
            return false;
        }
    }
    true
}

fn are_all<A: Allocator + Copy, J: Naming>(
    shared: &Shared<A, J>,
    sessions: &[Session<A, J>],
    workers: &[Worker<A, J>],
) -> bool
    ensures { IsTrue result ↔ AreAll shared.now.sessions shared.now.workers sessions.now workers.now }
{
    sessions.len() as u64 == shared.sessions
        && workers.len() as u64 == shared.workers
        && are_sessions_in(sessions, shared.sessions)
        && are_workers_in(workers, shared.workers)
}

pub(crate) fn are_opened<A: Allocator + Copy, J: Naming>(
    shared: &Shared<A, J>,
    sessions: &[Session<A, J>],
    workers: &[Worker<A, J>],
) -> bool
    ensures { IsTrue result ↔ AreOpened shared.now.history sessions.now workers.now }
{
    if !shared.is_kept() {
        return true;
    }
    are_all(shared, sessions, workers)
}
