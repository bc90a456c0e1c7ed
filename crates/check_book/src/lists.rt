// Lists of calls that are made up, valid ones and others, by several sessions and workers, who may hand in
// or give up what another one claimed, late and again.
use crate::histories::are_right;
use crate::player::Player;
use crate::rows::{Answered, LONG};
use crate::tally::Tally;
use checking::{Chance, FOUR, Written};
use checkpoints::Run;
use scenarios::{Order, Scenario, ScenarioId, ScenarioList};
use std::alloc::Global;
use std::sync::Arc;
use version_book::Analyst;

/// The stream of chances of each list.
const STREAM: u64 = 31;

/// How many lists of 20 to 60 calls there are, 50 of each length.
const SHORT_LISTS: u64 = 2_050;

/// How many lists there are with those in which 64 scenarios and 256 tickets stand.
const LISTS: u64 = SHORT_LISTS + 4;

/// The calls of such a list.
const CROWDED_CALLS: u64 = 1_000;

/// Of these so many fill the book.
const CROWDING: u64 = 700;

/// How often each kind of replies surely comes.
const FEWEST: u64 = 50;

/// The logs that are opened.
const LOGS: [&[u8]; 3] = [b"", FOUR, LONG];

/// Jobs that join.
const JOBS: [&[u8]; 11] = [
    b"0 5 -1 10 -1 -1 -1 3 15 -1 1 0 -1 -1 -1 -1 -1 -1\n",
    b"1 0 -1 30 -1 -1 -1 9 40 -1 1 1 -1 -1 -1 -1 -1 -1\n",
    b"2 5 -1 0 -1 -1 -1 1 0 -1 1 2 -1 -1 -1 -1 -1 -1\n",
    b"3 10 -1 25 -1 -1 -1 4 20 -1 1 0 -1 -1 -1 -1 -1 -1\n",
    b"4 35 -1 5 -1 -1 -1 11 5 -1 1 1 -1 -1 -1 -1 -1 -1\n",
    b"5 20 -1 15 -1 -1 -1 6 30 -1 1 2 -1 -1 -1 -1 -1 -1\n",
    b"6 0 -1 20 -1 -1 -1 2 35 -1 1 0 -1 -1 -1 -1 -1 -1\n",
    b"7 15 -1 30 -1 -1 -1 8 10 -1 1 1 -1 -1 -1 -1 -1 -1\n",
    b"8 30 -1 10 -1 -1 -1 5 25 -1 1 2 -1 -1 -1 -1 -1 -1\n",
    b"9 25 -1 5 -1 -1 -1 10 40 -1 1 0 -1 -1 -1 -1 -1 -1\n",
    b"10 5 -1 20 -1 -1 -1 7 20 -1 1 1 -1 -1 -1 -1 -1 -1\n",
];

/// The fields that are changed: two that are none to be changed, and of the others those that touch
/// jobs, the status, and the user.
const FIELDS: [u8; 8] = [1, 2, 4, 8, 9, 11, 12, 19];

/// The values that fields get. A submit time is not negative, and a status is not 2 to 4.
const VALUES: [&[u8]; 8] = [b"-1", b"0", b"1", b"2", b"3.5", b"7", b"20", b"35"];

/// Good names, and three that no scenario may have.
const NAMES: [&str; 8] = [
    "base",
    "big",
    "fast",
    "s-1",
    "x_2",
    "Base",
    "",
    "seventeen-bytes-1",
];

/// The names where there are to be many scenarios.
const CROWD: [&str; 80] = [
    "s0", "s1", "s2", "s3", "s4", "s5", "s6", "s7", "s8", "s9", "s10", "s11", "s12", "s13", "s14",
    "s15", "s16", "s17", "s18", "s19", "s20", "s21", "s22", "s23", "s24", "s25", "s26", "s27",
    "s28", "s29", "s30", "s31", "s32", "s33", "s34", "s35", "s36", "s37", "s38", "s39", "s40",
    "s41", "s42", "s43", "s44", "s45", "s46", "s47", "s48", "s49", "s50", "s51", "s52", "s53",
    "s54", "s55", "s56", "s57", "s58", "s59", "s60", "s61", "s62", "s63", "s64", "s65", "s66",
    "s67", "s68", "s69", "s70", "s71", "s72", "s73", "s74", "s75", "s76", "s77", "s78", "s79",
];

/// What the estimates are multiplied by, in thousandths.
const FACTORS: [u64; 3] = [500, 1000, 1500];

/// A ticket that no book gives here.
const NO_TICKET: u64 = 1_000_000;

fn written(chance: &mut Chance) -> Written {
    let number = chance.below(11);
    match chance.below(6) {
        0 => Written::Remove(number),
        1 | 2 => Written::Insert(JOBS[chance.place(11)]),
        _ => Written::Change(number, FIELDS[chance.place(8)], VALUES[chance.place(8)]),
    }
}

// A name, good or bad; where there are to be many scenarios, one of eighty good ones.
fn name(chance: &mut Chance, is_crowded: bool) -> &'static str {
    if is_crowded {
        CROWD[chance.place(80)]
    } else {
        NAMES[chance.place(8)]
    }
}

// A scenario on 4 to 16 processors.
fn scenario(chance: &mut Chance) -> Option<Scenario> {
    let procs = 4 + chance.below(13);
    let factor = FACTORS[chance.place(3)];
    let orders = Order::all();
    let order = orders[chance.place(orders.len())];
    Some(Scenario::new(procs, factor)?.ordered(order))
}

// A version that a session may have seen: the first, the current, a later, or any.
fn seen(chance: &mut Chance, version: u64) -> u64 {
    let version = version.min(1_000_000);
    match chance.below(4) {
        0 => 0,
        1 => version,
        2 => version + 1,
        _ => chance.below(version + 1),
    }
}

// The place of an id, which may stand, be dropped, or not be given yet.
fn place(chance: &mut Chance) -> usize {
    if chance.below(4) == 0 {
        chance.place(8)
    } else {
        chance.place(3)
    }
}

// A list gives the ids 1 to 8, as a book does to its first scenarios.
fn add_ids(ids: &mut Vec<ScenarioId>, list: &mut ScenarioList<Global>) -> Option<()> {
    let scenario = Scenario::new(10, 1000)?;
    for name in ["a", "b", "c", "d", "e", "f", "g", "h"] {
        ids.push(list.add(name, scenario).ok()?).ok()?;
    }
    Some(())
}

impl Player<Global> {
    // Of all tickets that were given often the last one, and else any, or one that never was.
    fn ticket(&self, chance: &mut Chance) -> u64 {
        let last = (self.tasks.len() as u64).min(NO_TICKET);
        match chance.below(20) {
            0 => NO_TICKET,
            1..=6 => last,
            _ => chance.below(last + 1),
        }
    }

    // A run for a ticket: mostly its task's, but also another task's, or that of another log.
    fn run_for(&mut self, chance: &mut Chance, ticket: u64) -> Option<Arc<Run<Global>, Global>> {
        match chance.below(16) {
            0 => {
                let other = self.ticket(chance);
                self.run(other)
            }
            1 => self.other(ticket, 3),
            _ => self.run(ticket),
        }
    }

    fn add_made(&mut self, chance: &mut Chance, is_crowded: bool) -> Answered {
        let name = name(chance, is_crowded);
        match scenario(chance) {
            Some(scenario) => self.add(name, scenario),
            None => Answered::Nothing,
        }
    }

    fn finish_made(&mut self, chance: &mut Chance) -> Answered {
        let ticket = self.ticket(chance);
        match self.run_for(chance, ticket) {
            Some(run) => self.finish(ticket, Some(run)),
            None => self.claim(),
        }
    }

    fn crowd(&mut self, chance: &mut Chance) -> Answered {
        match chance.below(20) {
            0 => self.edit(written(chance)),
            1..=7 => self.add_made(chance, true),
            _ => self.claim(),
        }
    }

    fn call(&mut self, chance: &mut Chance, is_crowded: bool) -> Answered {
        match chance.below(40) {
            0..=8 => self.edit(written(chance)),
            9..=12 => self.add_made(chance, is_crowded),
            13 => self.drop_named(name(chance, is_crowded)),
            14 => self.retry(place(chance)),
            15..=21 => self.claim(),
            22 => {
                let ticket = self.ticket(chance);
                self.deliver(ticket)
            }
            23 => {
                let ticket = self.ticket(chance);
                self.finish_left(ticket)
            }
            24..=33 => self.finish_made(chance),
            34 | 35 => {
                let ticket = self.ticket(chance);
                self.give_up(ticket)
            }
            _ => {
                let seen = seen(chance, self.analyst.version());
                self.view(place(chance), seen)
            }
        }
    }

    // Makes so many calls, of which the first ones fill the book with scenarios and tickets.
    fn play(&mut self, chance: &mut Chance, calls: u64, crowding: u64) {
        for place in 0..calls {
            self.analyst.number = chance.below(4);
            self.worker = chance.below(4);
            let _answered = if place < crowding {
                self.crowd(chance)
            } else {
                self.call(chance, crowding > 0)
            };
        }
    }
}

// Plays a list, at whose end its session settles, and counts its replies; whether all are right. None
// where memory is short.
fn plays_right(alloc: Global, seed: u64, tally: &mut Tally) -> Option<bool> {
    let mut chance = Chance::new(seed, STREAM);
    let log = LOGS[chance.place(3)];
    let mut player = Player::new(alloc, log, 1 + (seed % 3) as u32)?;
    add_ids(&mut player.ids, &mut ScenarioList::new(alloc))?;
    if seed < SHORT_LISTS {
        player.play(&mut chance, 20 + seed % 41, 0);
    } else {
        player.play(&mut chance, CROWDED_CALLS, CROWDING);
    }
    let _settled = player.analyst.settle();
    tally.add(player.analyst.book.journal());
    are_right(alloc, log, player.analyst.book.journal()).ok()
}

#[test]
fn made_up_lists_are_answered_as_the_plain_program_says(rt: HostRuntime) {
    let mut tally = Tally::NONE;
    for seed in 0..LISTS {
        assert!(rt;
            plays_right(rt.alloc(), seed, &mut tally) == Some(true),
            "list {seed}"
        );
    }
    assert!(rt; tally.fewest() >= FEWEST);
    assert!(rt; tally.all() > 80_000, "{}", tally.all());
}
