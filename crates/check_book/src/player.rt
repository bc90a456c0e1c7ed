use crate::other_runs::{other_run, run_of};
use crate::rows::{Answered, Said};
use checking::{Written, edit_of, table_of};
use checkpoints::Run;
use refusing::Outcome;
use rejoin::Work;
use scenarios::{Order, Scenario, ScenarioId};
use std::alloc::Allocator;
use std::sync::Arc;
use swf_text::Memory;
use version_book::{
    Analyst, Book, BookSession, FinishFault, FinishRefusal, Named, Published, Refusal, Task,
};

/// What is answered where a growth is refused.
const MEMORY: Answered = Answered::Refused("Memory");

/// A session with a book, the worker that calls it too, the ids that it gave, and its tasks, ticket by
/// ticket.
#[derive(Drop)]
pub(crate) struct Player<A: Allocator + Copy> {
    pub(crate) alloc: A,
    pub(crate) analyst: BookSession<A>,
    pub(crate) worker: u64,
    pub(crate) ids: Vec<ScenarioId, A>,
    pub(crate) tasks: Vec<Task<A>, A>,
}

fn refused<F: Named>(refusal: &Refusal<F>) -> Answered {
    Answered::Refused(refusal.name())
}

// What a claim is answered of a task: its ticket and version, and the base's version and edits.
fn of_task<A: Allocator + Copy>(task: &Task<A>) -> Answered {
    let base = task.base().map(|base| (base.version(), base.edits().len()));
    Answered::Claimed(task.ticket(), task.version(), base)
}

fn of_work<A: Allocator + Copy>(made: Result<(Arc<Run<A>, A>, Option<Work>), Memory>) -> Answered {
    match made {
        Ok((_run, work)) => Answered::Made(work.map(|work| (work.handled, work.reused))),
        Err(Memory) => MEMORY,
    }
}

fn unfinished(refusal: &FinishRefusal) -> Answered {
    match refusal {
        Refusal::Fault(FinishFault::Stale { published }) => Answered::Stale(*published),
        other => refused(other),
    }
}

fn of_finish(finished: Result<u64, FinishRefusal>) -> Answered {
    match finished {
        Ok(version) => Answered::Number(version),
        Err(refusal) => unfinished(&refusal),
    }
}

fn of_view<A: Allocator + Copy>(published: &Published<A>) -> Answered {
    match published.copy() {
        Ok(copy) => Answered::Number(copy.version()),
        Err(Memory) => MEMORY,
    }
}

// The session has seen this version.
fn see<A: Allocator + Copy>(analyst: &mut BookSession<A>, version: u64) {
    analyst.seen = version;
}

impl<A: Allocator + Copy> Player<A> {
    /// A book of a log, in segments of so many event seconds; none where memory is short, or the log is
    /// none.
    pub(crate) fn new(alloc: A, log: &[u8], spacing: u32) -> Option<Player<A>> {
        let book = Book::new(alloc, table_of(alloc, log)?, spacing).ok()?;
        Some(Player {
            alloc,
            analyst: BookSession::new(book),
            worker: 1,
            ids: Vec::with_capacity(alloc, 2).ok()?,
            tasks: Vec::with_capacity(alloc, 4).ok()?,
        })
    }

    pub(crate) fn edit(&mut self, written: Written) -> Answered {
        let Some(edit) = edit_of(self.alloc, written) else {
            return MEMORY;
        };
        match self.analyst.edit(&edit) {
            Ok(version) => Answered::Number(version),
            Err(refusal) => refused(&refusal),
        }
    }

    fn add_ten(&mut self, name: &str) -> Answered {
        match Scenario::new(10, 1000) {
            Some(scenario) => self.add(name, scenario),
            None => Answered::Nothing,
        }
    }

    pub(crate) fn add(&mut self, name: &str, scenario: Scenario) -> Answered {
        match self.analyst.add_scenario(name, scenario) {
            Ok(id) => self.keep_id(id),
            Err(refusal) => refused(&refusal),
        }
    }

    fn keep_id(&mut self, id: ScenarioId) -> Answered {
        match self.ids.push(id) {
            Ok(()) => Answered::Number(u64::from(id.number())),
            Err(_) => Answered::Nothing,
        }
    }

    pub(crate) fn drop_named(&mut self, name: &str) -> Answered {
        match self.analyst.drop_scenario(name) {
            Ok(id) => Answered::Number(u64::from(id.number())),
            Err(refusal) => refused(&refusal),
        }
    }

    pub(crate) fn retry(&mut self, place: usize) -> Answered {
        let Some(id) = self.ids.get(place) else {
            return Answered::Nothing;
        };
        match self.analyst.retry(*id) {
            Ok(()) => Answered::Done,
            Err(refusal) => refused(&refusal),
        }
    }

    pub(crate) fn view(&mut self, place: usize, seen: u64) -> Answered {
        let Some(id) = self.ids.get(place) else {
            return Answered::Nothing;
        };
        see(&mut self.analyst, seen);
        match self.analyst.view(*id) {
            Ok(published) => of_view(&published),
            Err(refusal) => refused(&refusal),
        }
    }

    pub(crate) fn claim(&mut self) -> Answered {
        match self.analyst.book.claim(self.worker) {
            Ok(Some(task)) => self.keep(task),
            Ok(None) => Answered::Nothing,
            Err(refusal) => refused(&refusal),
        }
    }

    fn keep(&mut self, task: Task<A>) -> Answered {
        let answered = of_task(&task);
        match self.tasks.push(task) {
            Ok(()) => answered,
            Err(_) => Answered::Nothing,
        }
    }

    fn task(&mut self, ticket: u64) -> Option<&mut Task<A>> {
        self.tasks.get_mut(ticket.wrapping_sub(1) as usize)
    }

    pub(crate) fn deliver(&mut self, ticket: u64) -> Answered {
        match self.task(ticket) {
            Some(task) => of_work(task.deliver()),
            None => Answered::Nothing,
        }
    }

    pub(crate) fn run(&mut self, ticket: u64) -> Option<Arc<Run<A>, A>> {
        let (run, _work) = self.task(ticket)?.work().ok()?;
        Some(run)
    }

    pub(crate) fn other(&mut self, ticket: u64, field: u8) -> Option<Arc<Run<A>, A>> {
        let alloc = self.alloc;
        other_run(alloc, self.task(ticket)?, field)
    }

    pub(crate) fn finish(&mut self, ticket: u64, run: Option<Arc<Run<A>, A>>) -> Answered {
        match run {
            Some(run) => of_finish(self.analyst.book.finish(self.worker, ticket, run)),
            None => MEMORY,
        }
    }

    fn finish_other(&mut self, ticket: u64, field: u8) -> Answered {
        let run = self.other(ticket, field);
        self.finish(ticket, run)
    }

    fn under(&mut self, ticket: u64, procs: u64, order: Order) -> Option<Arc<Run<A>, A>> {
        let scenario = Scenario::new(procs, 1000)?.ordered(order);
        let alloc = self.alloc;
        run_of(alloc, self.task(ticket)?.table().copy().ok()?, scenario)
    }

    fn finish_under(&mut self, ticket: u64, procs: u64, order: Order) -> Answered {
        let run = self.under(ticket, procs, order);
        self.finish(ticket, run)
    }

    fn finish_of(&mut self, ticket: u64, other: u64) -> Answered {
        let run = self.run(other);
        self.finish(ticket, run)
    }

    fn hand_in(&mut self, ticket: u64) -> Answered {
        match self.run(ticket) {
            Some(run) => of_finish(self.analyst.book.hand_in(self.worker, ticket, run)),
            None => MEMORY,
        }
    }

    pub(crate) fn finish_left(&mut self, ticket: u64) -> Answered {
        match self.analyst.book.finish_delivered(self.worker, ticket) {
            Ok(Some(version)) => Answered::Number(version),
            Ok(None) => Answered::Nothing,
            Err(refusal) => unfinished(&refusal),
        }
    }

    pub(crate) fn give_up(&mut self, ticket: u64) -> Answered {
        match self.analyst.book.give_up(self.worker, ticket) {
            Ok(()) => Answered::Done,
            Err(refusal) => refused(&refusal),
        }
    }

    fn find(&mut self, name: &str) -> Answered {
        match self.analyst.find(name) {
            Some(id) => Answered::Number(u64::from(id.number())),
            None => Answered::Nothing,
        }
    }

    fn read(&mut self) -> Answered {
        match self.analyst.current() {
            Ok(reading) => Answered::Number(reading.version),
            Err(Memory) => MEMORY,
        }
    }

    fn answered(&mut self, said: Said) -> Answered {
        match said {
            Said::Edit(written) => self.edit(written),
            Said::Add(name) => self.add_ten(name),
            Said::DropNamed(name) => self.drop_named(name),
            Said::Retry(place) => self.retry(place),
            Said::View(place, seen) => self.view(place, seen),
            Said::Claim => self.claim(),
            Said::Deliver(ticket) => self.deliver(ticket),
            Said::Finish(ticket) => self.finish_of(ticket, ticket),
            Said::HandIn(ticket) => self.hand_in(ticket),
            Said::FinishOther(ticket, field) => self.finish_other(ticket, field),
            Said::FinishUnder(ticket, procs, order) => self.finish_under(ticket, procs, order),
            Said::FinishOf(ticket, other) => self.finish_of(ticket, other),
            Said::FinishLeft(ticket) => self.finish_left(ticket),
            Said::GiveUp(ticket) => self.give_up(ticket),
            Said::Find(name) => self.find(name),
            Said::Read => self.read(),
            Said::Settled(seen) => Answered::Settled(self.analyst.book.settled(seen)),
            Said::Notes => Answered::Number(self.analyst.book.journal().len() as u64),
        }
    }

    /// Whether so many calls leave as many notes.
    pub(crate) fn has_notes(&mut self, notes: usize) -> bool {
        for _ in 0..notes {
            if self.drop_named("none") == MEMORY {
                return false;
            }
        }
        self.analyst.book.journal().len() == notes
    }

    /// Says all this in turn, each once more where memory runs out.
    pub(crate) fn plays(&mut self, rows: &[(Said, Answered)]) -> Outcome {
        let mut outcome = Outcome::Right;
        for (said, want) in rows {
            let mut answered = self.answered(*said);
            if answered == MEMORY {
                outcome = Outcome::Memory;
                answered = self.answered(*said);
            }
            if answered != *want {
                return Outcome::Wrong;
            }
        }
        outcome
    }
}
