// The event loop.
use crate::logs::{NOTED, outcome};
use checking::shared_table;
use cluster_state::{RunningNumber, Snapshot};
use easy_rule::Start;
use event_loop::{Engine, EngineFault, Stepped};
use refusing::Outcome;
use scenarios::{Job, Plan, Scenario};
use std::alloc::{Allocator, Global};
use std::process::Abort;

/// How the engine of the log goes on.
#[derive(Clone, Copy)]
pub(crate) enum Way {
    Steps,
    /// Each step into the same list.
    StepsInto,
    /// From second 3 on, by a snapshot.
    FromThree,
}

/// Whether these jobs start at these seconds, in this order.
pub(crate) fn are(starts: &[Start], wanted: &[(u64, u64)]) -> bool {
    starts.len() == wanted.len()
        && starts
            .iter()
            .zip(wanted)
            .all(|(start, want)| (start.number, start.at) == *want)
}

// Whether the engine stands there, after so many event seconds, with nobody left.
fn ends<A: Allocator + Copy>(engine: &Engine<A>, position: u64, handled: u64) -> bool {
    (engine.position(), engine.handled()) == (position, handled)
        && engine.standing() == 0
        && engine.next_event().is_none()
}

/// The event seconds of the four jobs, and how many jobs start there.
const STEPS: [(u64, usize); 8] = [
    (0, 1),
    (1, 0),
    (2, 1),
    (3, 0),
    (92, 1),
    (100, 1),
    (150, 0),
    (592, 0),
];

// Whether a step worked this second, and so many jobs start.
fn is_step<A: Allocator + Copy>(stepped: Option<Stepped<A>>, second: u64, count: usize) -> bool {
    stepped.is_some_and(|stepped| stepped.second() == second && stepped.starts().len() == count)
}

fn steps<A: Allocator + Copy>(engine: &mut Engine<A>) -> Result<bool, EngineFault> {
    for (second, count) in &STEPS {
        if !is_step(engine.step()?, *second, *count) {
            return Ok(false);
        }
    }
    Ok(engine.step()?.is_none() && ends(engine, 593, 8))
}

fn steps_into<A: Allocator + Copy>(
    engine: &mut Engine<A>,
    started: &mut Vec<Job, A>,
) -> Result<bool, EngineFault> {
    for (second, count) in &STEPS {
        if engine.step_into(started)? != Some(*second) || started.len() != *count {
            return Ok(false);
        }
    }
    Ok(engine.step_into(started)?.is_none() && started.is_empty())
}

// Whether these are all starts that are left from second 3 on.
fn finishes<A: Allocator + Copy>(engine: &mut Engine<A>) -> Result<bool, EngineFault> {
    Ok(are(&engine.finish()?, &[(4, 92), (2, 100)]) && ends(engine, 593, 5))
}

/// Who runs before second 3, and since when.
const RUNNING: [RunningNumber; 2] = [
    RunningNumber {
        number: 1,
        start: 0,
    },
    RunningNumber {
        number: 3,
        start: 2,
    },
];

// Whether these have started before second 3, in three event seconds, and job 2 waits there.
fn is_at_three<A: Allocator + Copy>(
    engine: &Engine<A>,
    starts: &[Start],
    snapshot: &Snapshot<A>,
) -> bool {
    (engine.position(), engine.handled()) == (3, 3)
        && are(starts, &[(1, 0), (3, 2)])
        && snapshot.waiting().eq(&[2])
        && snapshot.running().eq(&RUNNING)
}

// An engine that is resumed at second 3, to which another one of the table was advanced; none where
// that one stands otherwise there.
fn resumed_at_three<A: Allocator + Copy>(
    alloc: A,
    plan: Plan<A>,
) -> Result<Option<Engine<A>>, EngineFault> {
    let mut engine = Engine::new(alloc, plan.copy()?);
    let starts = engine.advance_to(3)?;
    let snapshot = engine.snapshot()?;
    if !is_at_three(&engine, &starts, &snapshot) {
        return Ok(None);
    }
    Ok(Some(Engine::resume(alloc, &snapshot, 3, plan)?))
}

fn goes_on<A: Allocator + Copy>(alloc: A, way: Way, plan: Plan<A>) -> Result<bool, EngineFault> {
    let begun = match way {
        Way::FromThree => resumed_at_three(alloc, plan)?,
        _ => Some(Engine::new(alloc, plan)),
    };
    let Some(mut engine) = begun else {
        return Ok(false);
    };
    match way {
        Way::Steps => steps(&mut engine),
        Way::StepsInto => steps_into(&mut engine, &mut Vec::new(alloc)),
        Way::FromThree => finishes(&mut engine),
    }
}

/// The engine of the log goes on.
pub(crate) fn goes<A: Allocator + Copy>(alloc: A, way: Way, scenario: Scenario) -> Outcome {
    match shared_table(alloc, NOTED) {
        Some(table) => outcome(goes_on(alloc, way, Plan::new(table, scenario)).map_err(|fault| fault
            == EngineFault::Memory)),
        None => Outcome::Before,
    }
}

/// A job of ten seconds at the last second at which one may be submitted.
const LAST: &[u8] = b"1 1000000000000 -1 10 1 -1 -1 1 10 -1 1 7 -1 -1 -1 -1 -1 -1\n";

// Whether it starts there, and two event seconds are worked: the engine visits no second before.
fn works_two(alloc: Global) -> Option<bool> {
    let plan = Plan::new(shared_table(alloc, LAST)?, Scenario::new(10, 1000)?);
    let mut engine = Engine::new(alloc, plan);
    let starts = engine.finish().ok()?;
    Some(are(&starts, &[(1, 1_000_000_000_000)]) && ends(&engine, 1_000_000_000_011, 2))
}

#[test]
fn a_job_at_the_last_second_takes_two_event_seconds(rt: HostRuntime) {
    assert!(rt; works_two(rt.alloc()) == Some(true));
}
