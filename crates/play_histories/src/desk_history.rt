// Eight sessions and four workers at one desk, each on a thread of its own.
use crate::desk_handle::DeskHandle;
use crate::known_log::{book_of, opening, ten};
use crate::session_call::SessionCall;
use crate::threads::{Callers, Script, is_right_with};
use crate::wrong::{Wrong, right_if};
use book_machine::{Note, Reply};
use checking::{Chance, Written, edit_of};
use chronicle::Naming;
use oracle_book::first_wrong;
use scenarios::{Scenario, ScenarioId};
use std::alloc::{Allocator, Global};
use std::sync::Wait;
use std::thread::Threads;
use version_book::Book;
use workers::{NoGate, Session};

/// How many sessions and workers there are.
const SESSIONS: usize = 8;

const WORKERS: usize = 4;

/// How many calls a session makes that are noted.
const CALLS: usize = 1_250;

/// In so many calls it settles once.
const ROUND: usize = 50;

/// The stream of chances of each session.
const STREAM: u64 = 31;

/// Jobs that join.
const JOINING: [&[u8]; 8] = [
    b"5 4 -1 500 2 -1 -1 2 500 -1 1 8 -1 -1 -1 -1 -1 -1\n",
    b"6 0 -1 30 -1 -1 -1 9 40 -1 1 1 -1 -1 -1 -1 -1 -1\n",
    b"7 5 -1 0 -1 -1 -1 1 0 -1 1 2 -1 -1 -1 -1 -1 -1\n",
    b"8 10 -1 25 -1 -1 -1 4 20 -1 1 7 -1 -1 -1 -1 -1 -1\n",
    b"9 35 -1 5 -1 -1 -1 10 5 -1 1 8 -1 -1 -1 -1 -1 -1\n",
    b"10 20 -1 15 -1 -1 -1 6 30 -1 1 2 -1 -1 -1 -1 -1 -1\n",
    b"11 0 -1 20 -1 -1 -1 2 35 -1 1 7 -1 -1 -1 -1 -1 -1\n",
    b"12 15 -1 30 -1 -1 -1 8 10 -1 1 1 -1 -1 -1 -1 -1 -1\n",
];

/// The fields that are changed, by which jobs come later, run longer, or take and ask for more or less.
const FIELDS: [u8; 4] = [2, 4, 8, 9];

/// The values that they get.
const VALUES: [&[u8]; 4] = [b"0", b"3.5", b"7", b"35"];

/// The names of scenarios.
const NAMES: [&str; 4] = ["base", "big", "fast", "s-1"];

/// How many kinds of replies are counted.
const KINDS: usize = 9;

/// How often each of them surely comes.
const FEWEST: u64 = 20;

// An edit of one of the jobs 1 to 12, some of which there are.
fn written(chance: &mut Chance) -> Written {
    let number = 1 + chance.below(12);
    match chance.below(4) {
        0 => Written::Remove(number),
        1 => Written::Insert(JOINING[chance.place(8)]),
        _ => Written::Change(number, FIELDS[chance.place(4)], VALUES[chance.place(4)]),
    }
}

fn name(chance: &mut Chance) -> &'static str {
    NAMES[chance.place(4)]
}

impl<R: Wait, J: Naming> DeskHandle<'_, R, Global, J> {
    fn edits(
        &self,
        alloc: Global,
        session: &mut Session<Global, J>,
        chance: &mut Chance,
    ) -> Result<Reply, Wrong> {
        match edit_of(alloc, written(chance)) {
            Some(edit) => self.reply(session, &SessionCall::Edit(&edit)),
            None => Err(Wrong::Input),
        }
    }

    fn adds(
        &self,
        session: &mut Session<Global, J>,
        chance: &mut Chance,
        name: &'static str,
    ) -> Result<Reply, Wrong> {
        match Scenario::new(4 + chance.below(13), 1000) {
            Some(scenario) => self.reply(session, &SessionCall::Add { name, scenario }),
            None => Err(Wrong::Input),
        }
    }

    // A call of a scenario that stands, or that another session just dropped; of none, one more.
    fn tries(&self, session: &mut Session<Global, J>, chance: &mut Chance) -> Result<Reply, Wrong> {
        let name = name(chance);
        match self.find(session, name) {
            Some(id) if chance.below(4) == 0 => self.reply(session, &SessionCall::Retry { id }),
            Some(id) => self.reply(session, &SessionCall::View { id }),
            None => self.adds(session, chance, name),
        }
    }

    fn calls(
        &self,
        alloc: Global,
        session: &mut Session<Global, J>,
        chance: &mut Chance,
    ) -> Result<Reply, Wrong> {
        match chance.below(8) {
            0..=2 => self.edits(alloc, session, chance),
            3 => {
                let name = name(chance);
                self.adds(session, chance, name)
            }
            4 => self.reply(session, &SessionCall::Drop { name: name(chance) }),
            _ => self.tries(session, chance),
        }
    }

    // Settles, and looks at a scenario that stood before: it shows a run of what was seen, unless another
    // session dropped it.
    fn sees(&self, session: &mut Session<Global, J>, id: ScenarioId) -> Result<Reply, Wrong> {
        right_if(self.is_done(session), Wrong::Settled)?;
        match self.reply(session, &SessionCall::View { id })? {
            Reply::NotYet | Reply::Behind { .. } => Err(Wrong::Settled),
            reply => Ok(reply),
        }
    }

    fn settles(&self, session: &mut Session<Global, J>) -> Result<Reply, Wrong> {
        match self.find(session, "base") {
            Some(id) => self.sees(session, id),
            None => self.reply(
                session,
                &SessionCall::Add {
                    name: "base",
                    scenario: ten()?,
                },
            ),
        }
    }

    fn turn(
        &self,
        alloc: Global,
        session: &mut Session<Global, J>,
        chance: &mut Chance,
        place: usize,
    ) -> Result<Reply, Wrong> {
        if place % ROUND == 0 {
            self.settles(session)
        } else {
            self.calls(alloc, session, chance)
        }
    }
}

/// What comes by chance, from the numbers that a session's own number determines.
#[derive(Drop)]
struct Chances {
    alloc: Global,
}

impl Script<Global> for Chances {
    fn play<R: Wait, J: Naming>(
        &self,
        handle: &DeskHandle<'_, R, Global, J>,
        session: &mut Session<Global, J>,
    ) -> Result<(), Wrong> {
        let mut chance = Chance::new(session.number(), STREAM);
        for place in 0..CALLS {
            handle.turn(self.alloc, session, &mut chance, place)?;
        }
        right_if(session.list().len() == CALLS, Wrong::Listed)
    }

    // The journal is legal, and has the calls of all sessions and what comes of them.
    fn judge(&self, book: &mut Book<Global>) -> Result<(), Wrong> {
        let notes = book.journal();
        right_if(notes.len() >= SESSIONS * CALLS, Wrong::Listed)?;
        right_if(fewest(notes) >= FEWEST, Wrong::Seldom)?;
        is_legal(self.alloc, notes)
    }
}

/// Whether the plain program goes over the notes of the known log as the book did.
pub(crate) fn is_legal<A: Allocator + Copy>(alloc: A, notes: &[Note<A>]) -> Result<(), Wrong> {
    let wrong = first_wrong(alloc, opening(alloc)?, notes)?;
    right_if(wrong.is_none(), Wrong::Journal)
}

// The kind of a reply, from 0; that of replies that are not counted is the number of kinds.
fn kind_of(reply: &Reply) -> usize {
    match reply {
        Reply::Edited { .. } => 0,
        Reply::Added { .. } => 1,
        Reply::Dropped { .. } => 2,
        Reply::Retried => 3,
        Reply::Shown { .. } => 4,
        Reply::Claimed { base: Some(_), .. } => 5,
        Reply::Finished { .. } => 6,
        Reply::EditRefused(_) => 7,
        Reply::AddRefused(_) => 8,
        _ => KINDS,
    }
}

// How often the rarest kind of replies came.
fn fewest(notes: &[Note<Global>]) -> u64 {
    let mut counts = [0u64; 9];
    for note in notes {
        if let Some(count) = counts.get_mut(kind_of(&note.reply)) {
            *count = count.saturating_add(1);
        }
    }
    let mut fewest = u64::MAX;
    for count in counts.iter() {
        fewest = fewest.min(*count);
    }
    fewest
}

/// Plays all sessions beside all workers, closes the desk and judges its journal.
pub(crate) fn is_right<R: Threads + Wait + Sync>(rt: &R, alloc: Global) -> Result<(), Wrong> {
    let book = book_of(alloc, 3)?;
    let callers = Callers::stopped(SESSIONS, WORKERS);
    is_right_with(rt, alloc, book, callers, &NoGate, &Chances { alloc })
}
