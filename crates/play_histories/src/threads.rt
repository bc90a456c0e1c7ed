// Sessions and workers at a desk, each on a thread of its own.
ghost use Rattle.std.specs.Prelude.{◌≡◌};
ghost use Rattle.version_book.specs.Book.{machine_of};

use crate::desk_handle::DeskHandle;
use crate::open_desk::OpenDesk;
use crate::wrong::{Wrong, right_if};
use chronicle::{Naming, Unnamed};
use std::alloc::{Allocator, Global};
use std::marker::Brand;
use std::sync::Wait;
use std::sync::atomic::{AtomicBool, Ordering};
use std::thread;
use std::thread::Threads;
use version_book::Book;
use workers::{Desk, Gate, Session, Worker, WorkerEnd};

/// What a session does on its thread.
pub(crate) trait Script<A: Allocator + Copy> {
    /// Plays; the first thing that is wrong.
    fn play<R: Wait, J: Naming>(
        &self,
        handle: &DeskHandle<'_, R, A, J>,
        session: &mut Session<A, J>,
    ) -> Result<(), Wrong>;

    /// Judges the book, once all have played and the desk is closed; the first thing that is wrong.
    fn judge(&self, book: &mut Book<A>) -> Result<(), Wrong>;
}

/// Has a session play.
pub(crate) fn plays<R: Wait, A: Allocator + Copy, S: Script<A>, J: Naming>(
    rt: &R,
    desk: &Desk<A, J>,
    session: &mut Session<A, J>,
    script: &S,
) -> Result<(), Wrong> {
    script.play(&DeskHandle { rt, desk }, session)
}

/// Has a worker work until it ends, and sets the flag where it ends otherwise than it should.
pub(crate) fn works<R: Wait, A: Allocator + Copy, G: Gate, J: Naming>(
    rt: &R,
    desk: &Desk<A, J>,
    worker: &mut Worker<A, J>,
    gate: &G,
    end: WorkerEnd,
    ends_otherwise: &AtomicBool,
) {
    if worker.run(rt, desk, gate) != end {
        ends_otherwise.store(true, Ordering::SeqCst);
    }
}

// Runs all on threads of their own, and stops the desk once the sessions have ended; the first thing
// that is wrong. The flag is set where a worker ends otherwise than it should.
fn run_all<
    R: Threads + Wait + Sync,
    G: Gate + Sync,
    S: Script<Global> + Sync,
    J: Naming + Send + Sync,
>(
    rt: &R,
    alloc: Global,
    desk: &Desk<Global, J>,
    sessions: &mut Vec<Session<Global, J>>,
    workers: &mut Vec<Worker<Global, J>>,
    gate: &G,
    script: &S,
    end: WorkerEnd,
    ends_otherwise: &AtomicBool,
) -> Result<(), Wrong> {
    thread::scope(thread::scope_env(), rt, |scope| {
        let mut found = Ok(());
        for worker in workers.iter_mut() {
            if scope
                .spawn(move || works(rt, desk, worker, gate, end, ends_otherwise))
                .is_err()
            {
                found = Err(Wrong::Thread);
            }
        }
        let mut calls = Vec::new(alloc);
        for session in sessions.iter_mut() {
            match scope.spawn(move || plays(rt, desk, session, script)) {
                Ok(call) => found = found.and(calls.push(call).map_err(|_| Wrong::Memory)),
                Err(_) => found = Err(Wrong::Thread),
            }
        }
        if found.is_err() {
            desk.stop(rt);
        }
        for call in calls {
            found = found.and(call.join(rt));
        }
        desk.stop(rt);
        found
    })
}

/// Has all callers of a desk play, where each worker is to end so; the first thing that is wrong.
pub(crate) fn play_all<
    R: Threads + Wait + Sync,
    G: Gate + Sync,
    S: Script<Global> + Sync,
    J: Naming + Send + Sync,
>(
    rt: &R,
    alloc: Global,
    open: &mut OpenDesk<Global, J>,
    gate: &G,
    script: &S,
    end: WorkerEnd,
) -> Result<(), Wrong> {
    let ends_otherwise = AtomicBool::new(false);
    run_all(
        rt,
        alloc,
        &open.desk,
        &mut open.sessions,
        &mut open.workers,
        gate,
        script,
        end,
        &ends_otherwise,
    )?;
    right_if(!ends_otherwise.load(Ordering::SeqCst), Wrong::Ended)
}

/// How many callers there are, and how each worker is to end.
#[derive(Clone, Copy)]
pub(crate) struct Callers {
    pub(crate) sessions: usize,
    pub(crate) workers: usize,
    pub(crate) end: WorkerEnd,
}

impl Callers {
    /// So many sessions and workers, which end where the desk is stopped.
    pub(crate) fn stopped(sessions: usize, workers: usize) -> Callers {
        Callers {
            sessions,
            workers,
            end: WorkerEnd::Stopped,
        }
    }
}

/// Closes a desk, and has the book judged.
pub(crate) fn closes<A: Allocator + Copy, S: Script<A>, J: Naming>(
    open: OpenDesk<A, J>,
    script: &S,
) -> Result<(), Wrong> {
    match open.close() {
        Ok(mut book) => script.judge(&mut book),
        Err(wrong) => Err(wrong),
    }
}

fn is_right_on<
    J: Naming + Send + Sync,
    R: Threads + Wait + Sync,
    G: Gate + Sync,
    S: Script<Global> + Sync,
>(
    rt: &R,
    alloc: Global,
    book: Book<Global>,
    unnamed: Unnamed,
    callers: Callers,
    gate: &G,
    script: &S,
) -> Result<(), Wrong>
    requires name { unnamed ≡ J.book }
    requires opening { J.opening ≡ machine_of book }
{
    let (sessions, workers) = (callers.sessions, callers.workers);
    let mut open = OpenDesk::<Global, J>::new(rt, alloc, book, unnamed, sessions, workers)?;
    let found = play_all(rt, alloc, &mut open, gate, script, callers.end);
    found.and(closes(open, script))
}

/// Has these callers play at a desk over a book, closes it and has the book judged; the first thing that
/// is wrong.
pub(crate) fn is_right_with<R: Threads + Wait + Sync, G: Gate + Sync, S: Script<Global> + Sync>(
    rt: &R,
    alloc: Global,
    book: Book<Global>,
    callers: Callers,
    gate: &G,
    script: &S,
) -> Result<(), Wrong> {
    is_right_on::<Brand, R, G, S>(rt, alloc, book, Unnamed::new(), callers, gate, script)
}
