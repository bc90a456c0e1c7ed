// What a session and a worker play at a desk on an allocator that may refuse a growth.
use crate::analyst::First;
use crate::desk_handle::DeskHandle;
use crate::desk_history::is_legal;
use crate::threads::{Script, plays, works};
use crate::wrong::{Wrong, right_if};
use book_machine::{Call, Note, Reply};
use chronicle::Naming;
use job_table::Edit;
use std::alloc::Allocator;
use std::sync::Wait;
use std::sync::atomic::{AtomicBool, AtomicU64, Ordering};
use std::thread;
use std::thread::Threads;
use version_book::Book;
use workers::{Desk, Gate, NoGate, Session, Worker, WorkerEnd};

/// What a session plays beside a worker: the edit by which the fifth job joins, how often it ran
/// out of memory, whether a run was not there, and how often a ticket was given up. Beside the
/// allocator that refuses there is one that has enough.
#[derive(Drop)]
pub(crate) struct Growing<'a, A: Allocator + Copy> {
    enough: A,
    pub(crate) joins: &'a Edit<A>,
    pub(crate) wants: AtomicU64,
    misses: AtomicBool,
    given_up: AtomicU64,
}

impl<'a, A: Allocator + Copy> Growing<'a, A> {
    pub(crate) fn new(enough: A, joins: &'a Edit<A>) -> Growing<'a, A> {
        Growing {
            enough,
            joins,
            wants: AtomicU64::new(0),
            misses: AtomicBool::new(false),
            given_up: AtomicU64::new(0),
        }
    }
}

fn given_up<A: Allocator + Copy>(notes: &[Note<A>]) -> u64 {
    let mut count = 0u64;
    for note in notes {
        count = count.saturating_add(u64::from(matches!(note.call, Call::GiveUp { .. })));
    }
    count
}

impl<A: Allocator + Copy> Growing<'_, A> {
    /// How often a ticket was given up, once the journal was judged.
    pub(crate) fn given_up(&self) -> u64 {
        self.given_up.load(Ordering::SeqCst)
    }
}

impl<A: Allocator + Copy> Script<A> for Growing<'_, A> {
    fn play<R: Wait, J: Naming>(
        &self,
        handle: &DeskHandle<'_, R, A, J>,
        session: &mut Session<A, J>,
    ) -> Result<(), Wrong> {
        if !self.plays(handle, session)? {
            self.misses.store(true, Ordering::SeqCst);
        }
        Ok(())
    }

    // Judges the journal with memory enough, and counts the tickets that were given up.
    fn judge(&self, book: &mut Book<A>) -> Result<(), Wrong> {
        self.given_up
            .store(given_up(book.journal()), Ordering::SeqCst);
        is_legal(self.enough, book.journal())
    }
}

/// Stops the desk before a run is made.
#[derive(Drop)]
struct Stopping<'a, R, A: Allocator + Copy, J: Naming> {
    rt: &'a R,
    desk: &'a Desk<A, J>,
}

impl<R: Wait, A: Allocator + Copy, J: Naming> Gate for Stopping<'_, R, A, J> {
    fn before_work(&self, _ticket: u64) {
        self.desk.stop(self.rt);
    }

    fn before_finish(&self, _ticket: u64) {}
}

/// What came of a history: how often memory ran out, and whether it did at what came
/// first.
#[derive(Clone, Copy)]
pub(crate) struct Wants {
    pub(crate) all: u64,
    pub(crate) was_first: bool,
}

fn last_reply<A: Allocator + Copy, J: Naming>(worker: &Worker<A, J>) -> Option<Reply> {
    match worker.list().last() {
        Some(listed) => Some(listed.reply),
        None => None,
    }
}

// Has the worker make one run, for which it stops the desk, and a session look then; whether the worker
// ended where memory ran out.
fn works_once<R: Wait, A: Allocator + Copy, J: Naming>(
    handle: &DeskHandle<'_, R, A, J>,
    session: &mut Session<A, J>,
    worker: &mut Worker<A, J>,
    script: &Growing<'_, A>,
) -> Result<bool, Wrong> {
    let (rt, desk) = (handle.rt, handle.desk);
    let end = worker.run(rt, desk, &Stopping { rt, desk });
    script.looks_after(handle, session, last_reply(worker))?;
    match end {
        WorkerEnd::Full => Err(Wrong::Ended),
        WorkerEnd::Memory => Ok(true),
        WorkerEnd::Stopped => Ok(false),
    }
}

// Has the session make all calls while the worker runs, each on a thread of its own.
fn plays_with<R: Threads + Wait + Sync, A: Allocator + Copy + Send + Sync, J: Naming + Send + Sync>(
    rt: &R,
    desk: &Desk<A, J>,
    sessions: &mut Vec<Session<A, J>, A>,
    workers: &mut Vec<Worker<A, J>, A>,
    script: &Growing<'_, A>,
    has_ended: &AtomicBool,
) -> Result<(), Wrong> {
    thread::scope(thread::scope_env(), rt, |scope| {
        for worker in workers.iter_mut() {
            if scope
                .spawn(move || works(rt, desk, worker, &NoGate, WorkerEnd::Stopped, has_ended))
                .is_err()
            {
                desk.stop(rt);
            }
        }
        let mut played = Err(Wrong::Input);
        for session in sessions.iter_mut() {
            match scope.spawn(move || plays(rt, desk, session, script)) {
                Ok(play) => played = play.join(rt),
                Err(_) => played = Err(Wrong::Thread),
            }
        }
        desk.stop(rt);
        played
    })
}

// Has the session make all calls while the worker runs; whether the worker ended before the desk was
// stopped, as where memory runs out. Runs are missing only then.
fn plays_beside<
    R: Threads + Wait + Sync,
    A: Allocator + Copy + Send + Sync,
    J: Naming + Send + Sync,
>(
    handle: &DeskHandle<'_, R, A, J>,
    sessions: &mut Vec<Session<A, J>, A>,
    workers: &mut Vec<Worker<A, J>, A>,
    script: &Growing<'_, A>,
) -> Result<bool, Wrong> {
    let has_ended = AtomicBool::new(false);
    let (rt, desk) = (handle.rt, handle.desk);
    plays_with(rt, desk, sessions, workers, script, &has_ended)?;
    let has_ended = has_ended.load(Ordering::SeqCst);
    let has_missed = script.misses.load(Ordering::SeqCst);
    right_if(has_ended || !has_missed, Wrong::Ended)?;
    Ok(has_ended)
}

// What came of a history in which a worker may have ended before its time.
fn wants_of<A: Allocator + Copy>(
    script: &Growing<'_, A>,
    has_ended: bool,
    was_first: bool,
) -> Wants {
    let outcome = script.wants.load(Ordering::SeqCst);
    Wants {
        all: outcome.saturating_add(u64::from(has_ended)),
        was_first,
    }
}

/// Plays a history, and returns how often memory ran out, except at a given-up ticket.
pub(crate) fn played<
    R: Threads + Wait + Sync,
    A: Allocator + Copy + Send + Sync,
    J: Naming + Send + Sync,
>(
    handle: &DeskHandle<'_, R, A, J>,
    sessions: &mut Vec<Session<A, J>, A>,
    workers: &mut Vec<Worker<A, J>, A>,
    script: &Growing<'_, A>,
    first: First,
) -> Result<Wants, Wrong> {
    let (Some(session), Some(worker)) = (sessions.first_mut(), workers.first_mut()) else {
        return Err(Wrong::Input);
    };
    if matches!(first, First::Work | First::Run) {
        let has_ended = works_once(handle, session, worker, script)?;
        return Ok(wants_of(script, has_ended, has_ended && first == First::Work));
    }
    script.begins(handle, session, first)?;
    let was_answered = script.wants.load(Ordering::SeqCst) > 0;
    let has_ended = plays_beside(handle, sessions, workers, script)?;
    Ok(wants_of(script, has_ended, was_answered))
}
