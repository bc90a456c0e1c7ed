// Scripts side by side: a thread for each, and one for each worker. Once the scripts' have ended the desk is
// stopped, and the workers end; where a thread cannot be started it is stopped at once. It does not happen
// that the callers' lists are not the book's history, or a session does not have the number of its script.
ghost use Rattle.std.specs.Prelude.{◌≡◌, IfErr, IfOk, OnOk, map, vec_len};
ghost use Rattle.std.specs.List.{All};
ghost use Rattle.version_book.specs.Book.{machine_of};
ghost use Rattle.workers.specs.Callers.{WorkerView};
ghost use Rattle.easybook.specs.Along.{AreAnsweredAlong, AreWork};
ghost use Rattle.easybook.specs.DeskRules.{AreAtDesk};
ghost use Rattle.easybook.specs.Shared.{IsSharedFault};

use crate::fault::ProgramFault;
use crate::script_list::ScriptList;
use crate::script_thread::{ScriptThread, Workplace};
use crate::worker_thread::WorkerThread;
use crate::works::Works;
use chronicle::{Naming, Unnamed};
use std::alloc::Allocator;
use std::sync::Wait;
use std::thread;
use std::thread::Threads;
use swf_text::Memory;
use version_book::Book;
use workers::{CloseFault, Desk, Gate, Session, Worker, close};

fn threads_of<A: Allocator + Copy, J: Naming + Works, R: Wait>(
    rt: &R,
    alloc: A,
    desk: &Desk<A, J>,
    count: usize,
) -> Result<Vec<ScriptThread<A, J>, A>, Memory>
    ensures { IfOk result (λ threads. vec_len threads ≡ count) }
{
    let mut threads = Vec::with_capacity(alloc, count)?;
    for _ in 0..count {
        let session = desk.open_session(rt).ok_or(Memory)?;
        threads.push(ScriptThread::new(session))?;
    }
    Ok(threads)
}

fn workers_of<A: Allocator + Copy, J: Naming + Works, R: Wait>(
    rt: &R,
    alloc: A,
    desk: &Desk<A, J>,
    count: u32,
) -> Result<Vec<WorkerThread<A, J>, A>, Memory>
    ensures { IfOk result (λ workers. vec_len workers ≡ count) }
{
    let mut workers = Vec::with_capacity(alloc, count as usize)?;
    for _ in 0..count {
        let worker = desk.open_worker(rt).ok_or(Memory)?;
        workers.push(WorkerThread::new(worker))?;
    }
    Ok(workers)
}

fn run_threads<
    A: Allocator + Copy + Send + Sync,
    J: Naming + Works + Send + Sync,
    R: Threads + Wait + Sync,
    G: Gate + Sync,
>(
    rt: &R,
    alloc: A,
    place: &Workplace<'_, A, J, R>,
    threads: &mut Vec<ScriptThread<A, J>, A>,
    workers: &mut Vec<WorkerThread<A, J>, A>,
    gate: &G,
) -> bool {
    thread::scope(thread::scope_env(), rt, |scope| {
        let mut all = true;
        for worker in workers.iter_mut() {
            if scope.spawn(move || worker.run(place, gate)).is_err() {
                all = false;
            }
        }
        let mut handles = Vec::new(alloc);
        for thread in threads.iter_mut() {
            match scope.spawn(move || thread.work(place)) {
                Ok(handle) => {
                    if handles.push(handle).is_err() {
                        all = false;
                    }
                }
                Err(_) => all = false,
            }
        }
        if !all {
            place.stop();
        }
        for handle in handles {
            handle.join(rt);
        }
        place.stop();
        all
    })
}

fn take_output<A: Allocator + Copy, J: Naming + Works>(
    sessions: &mut Vec<Session<A, J>, A>,
    texts: &mut Vec<Vec<u8, A>, A>,
    thread: ScriptThread<A, J>,
) -> Result<(), ProgramFault>
    requires { AreAtDesk A J.opening J.comments J.scripts sessions.old.items (map (λ t. t.items) texts.old.items) }
    ensures outputs { OnOk result (AreAtDesk A J.opening J.comments J.scripts sessions.new.items (map (λ t. t.items) texts.new.items)) }
    ensures fault { IfErr result IsSharedFault }
{
    let answered = thread.answered.ok_or(Memory)?;
    let (session, text) = answered.into_both();
    if session.number() != texts.len() as u64 {
        return Err(ProgramFault::Close(CloseFault::Mismatch));
    }
    sessions.push(session)?;
    texts.push(text)?;
    Ok(())
}

/// The sessions, and the text that the script of each produced.
#[derive(Drop)]
struct Outputs<A: Allocator + Copy, J: Naming> {
    sessions: Vec<Session<A, J>, A>,
    texts: Vec<Vec<u8, A>, A>,
}

fn outputs_of<A: Allocator + Copy, J: Naming + Works>(
    alloc: A,
    threads: Vec<ScriptThread<A, J>, A>,
) -> Result<Outputs<A, J>, ProgramFault>
    ensures outputs { IfOk result (λ outputs. AreAtDesk A J.opening J.comments J.scripts outputs.sessions.items (map (λ t. t.items) outputs.texts.items)) }
    ensures fault { IfErr result IsSharedFault }
{
    let mut sessions = Vec::with_capacity(alloc, threads.len())?;
    let mut texts = Vec::with_capacity(alloc, threads.len())?;
    for thread in threads {
        take_output(&mut sessions, &mut texts, thread)?;
    }
    Ok(Outputs { sessions, texts })
}

fn workers_in<A: Allocator + Copy, J: Naming + Works>(
    alloc: A,
    threads: Vec<WorkerThread<A, J>, A>,
) -> Result<Vec<Worker<A, J>, A>, Memory>
    ensures { IfOk result (λ workers. All (λ (w : WorkerView). AreWork w.list) workers.items) }
{
    let mut workers = Vec::with_capacity(alloc, threads.len())?;
    for thread in threads {
        workers.push(thread.into_worker())?;
    }
    Ok(workers)
}

pub(crate) fn run_scripts<
    A: Allocator + Copy + Send + Sync,
    J: Naming + Works + Send + Sync,
    R: Threads + Wait + Sync,
    G: Gate + Sync,
>(
    rt: &R,
    alloc: A,
    book: Book<A>,
    unnamed: Unnamed,
    comments: &[Vec<u8, A>],
    scripts: &[Vec<u8, A>],
    workers: u32,
    gate: &G,
) -> Result<Vec<Vec<u8, A>, A>, ProgramFault>
    requires name { unnamed ≡ J.book }
    requires opening { J.opening ≡ machine_of book }
    requires comments { J.comments ≡ map (λ c. c.items) comments.now }
    requires scripts { J.scripts ≡ map (λ s. s.items) scripts.now }
    ensures along { IfOk result (λ texts. AreAnsweredAlong A (map (λ c. c.items) comments.now) (machine_of book) (map (λ s. s.items) scripts.now) (map (λ t. t.items) texts.items)) }
    ensures fault { IfErr result IsSharedFault }
{
    let desk = Desk::<A, J>::new(alloc, book, unnamed);
    let list = ScriptList::<A, J>::new(comments, scripts);
    let mut threads = threads_of(rt, alloc, &desk, list.count())?;
    let mut pool = workers_of(rt, alloc, &desk, workers)?;
    let place = Workplace {
        rt,
        alloc,
        desk: &desk,
        scripts: &list,
    };
    let are_started = run_threads(rt, alloc, &place, &mut threads, &mut pool, gate);
    let Outputs { sessions, texts } = outputs_of(alloc, threads)?;
    if !are_started || texts.len() != list.count() {
        return Err(ProgramFault::Memory);
    }
    let callers = workers_in(alloc, pool)?;
    match close(desk, sessions, callers) {
        Ok(_) => Ok(texts),
        Err((fault, _, _, _)) => Err(ProgramFault::Close(fault)),
    }
}
