//! Compares the product with the plain program of the definitions: on worked logs, whose starts are
//! answered, and on many generated ones, each in both orders; and what is made anew of an old run after
//! edits with a run from nothing. It prints how many were compared, and the seed of each log where
//! they differ.

mod compared;
mod edits;
mod found;
mod logs;
mod reruns;
mod standing;
mod sums;
mod work_set;
mod worked;

use crate::compare::compared::agreed;
use crate::compare::found::Found;
use crate::compare::logs::{add_large, add_small};
use checking::Chance;
use scenarios::{Order, Scenario};
use std::alloc::Global;

/// The second about which logs lie at midnight.
const BEFORE_MIDNIGHT: u64 = 86_370;

/// A kind of generated logs.
#[derive(Clone, Copy)]
enum Kind {
    Small,
    Midnight,
    Large,
    /// Logs that are edited, with a rerun after the edits.
    Edited,
}

/// What is compared of a kind.
#[derive(Clone, Copy)]
struct Plan {
    kind: Kind,
    /// What is printed of it.
    text: &'static str,
    /// How many logs there are.
    logs: u64,
    /// What is surely counted in all of these together: the jobs that start, but of edited logs the
    /// reruns that reused old segments, that worked a part of the event seconds, and that reused the last
    /// old segment but not all of them.
    fewest: [u64; 3],
}

const PLANS: [Plan; 4] = [
    Plan {
        kind: Kind::Small,
        text: "small logs: 2000 compared in 2 orders",
        logs: 2_000,
        fewest: [10_000, 0, 0],
    },
    Plan {
        kind: Kind::Midnight,
        text: "midnight logs: 24 compared in 2 orders",
        logs: 24,
        fewest: [150, 0, 0],
    },
    Plan {
        kind: Kind::Large,
        text: "large logs: 1000 compared in 2 orders",
        logs: 1_000,
        fewest: [100_000, 0, 0],
    },
    Plan {
        kind: Kind::Edited,
        text: "reruns: 2000 logs edited, compared in 2 orders at 3 spacings",
        logs: 2_000,
        fewest: [2_000, 2_000, 2_000],
    },
];

// The scenario of a generated log: ten processors and the estimates as they are, but for large logs.
fn scenario_of(kind: Kind, seed: u64) -> Option<Scenario> {
    let mut chance = Chance::new(seed, 11);
    match kind {
        Kind::Large => Scenario::new(chance.within(1, 1000), chance.within(1, 3000)),
        _ => Scenario::new(10, 1000),
    }
}

fn add_log(log: &mut String, kind: Kind, seed: u64, scenario: &Scenario) -> Option<()> {
    let mut chance = Chance::new(seed, 54);
    match kind {
        Kind::Midnight => add_small(log, &mut chance, BEFORE_MIDNIGHT),
        Kind::Large => add_large(log, &mut chance, scenario.procs()),
        _ => add_small(log, &mut chance, 0),
    }
}

fn compare_orders(alloc: Global, log: &[u8], scenario: Scenario, seed: u64, found: &mut Found) {
    let spacing = [1, 2, 7, 256][seed as usize % 4];
    for order in Order::all() {
        let starts = agreed(alloc, log, &scenario.ordered(*order), spacing);
        found.add(starts.map(|starts| [starts.len() as u64, 0, 0]));
    }
}

// Adds what a generated log gives in each order; none where it cannot be made.
fn compare_seed(alloc: Global, kind: Kind, seed: u64, found: &mut Found) -> Option<()> {
    let scenario = scenario_of(kind, seed)?;
    let mut log = String::new(alloc);
    add_log(&mut log, kind, seed, &scenario)?;
    compare_orders(alloc, log.as_bytes(), scenario, seed, found);
    Some(())
}

fn compare_log(alloc: Global, kind: Kind, seed: u64, found: &mut Found) {
    if let Kind::Edited = kind {
        return reruns::compare(alloc, seed, found);
    }
    if compare_seed(alloc, kind, seed, found).is_none() {
        found.add(None);
    }
}

// Tells what the comparison of all logs of a kind gave: whether enough was compared, nothing differs, and
// the lines are written.
fn tell<R: Print>(rt: &R, plan: &Plan, found: Found) -> bool {
    let (text, differences) = (plan.text, found.differences);
    let is_enough = found.has(&plan.fewest);
    let is_answered = println!(rt; "{text}, {differences} differences").is_ok();
    if !is_enough {
        // Where this line cannot be written, the status still tells.
        let _ = println!(rt; "{text}: too little was compared");
    }
    is_answered && is_enough && differences == 0
}

// Compares all logs of a kind: whether nothing differs.
fn compare<R: AllocGlobal + Print>(rt: &R, plan: &Plan) -> bool {
    let (text, mut found) = (plan.text, Found::NONE);
    for seed in 0..plan.logs {
        let before = found.differences;
        compare_log(rt.alloc(), plan.kind, seed, &mut found);
        if found.differences > before {
            // Where this line cannot be written, the next one still tells.
            let _ = println!(rt; "{text}: {seed} differs");
        }
    }
    tell(rt, plan, found)
}

// Compares all logs: whether nothing differs.
pub(crate) fn run<R: AllocGlobal + Print>(rt: &R) -> bool {
    let mut is_same = worked::compare(rt);
    for plan in &PLANS {
        is_same = compare(rt, plan) && is_same;
    }
    is_same
}
