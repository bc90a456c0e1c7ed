// Each call that takes memory, with each of its growths refused in turn.
use crate::clusters::Deed;
use crate::engines::Way;
use crate::rerun_rows::GROWN;
use crate::runs::Use;
use crate::{clusters, engines, openings, plain, reruns, runs};
use checking::Written;
use refusing::{Outcome, Trial, survives_refusals};
use scenarios::{Order, Scenario};
use std::alloc::{Allocator, Global};

/// A call that takes memory.
#[derive(Clone, Copy)]
enum Call {
    Copy,
    Edit(Written),
    AddScenarios,
    OpenAndSave,
    Plan,
    Do(Deed),
    Go(Way),
    Simulate,
    Use(Use),
    Rerun,
}

/// A fifth job, with a partial line.
const FIFTH: &[u8] = b"5 4 -1 500 2 -1 -1 2 500 -1 1 8 -1 -1 -1 -1 -1 -1
5 4 -1 100 2 -1 -1 2 500 -1 2 8 -1 -1 -1 -1 -1 -1
";

/// All of them.
const CALLS: [Call; 20] = [
    Call::Copy,
    Call::Edit(Written::Insert(FIFTH)),
    Call::Edit(Written::Remove(1)),
    Call::Edit(Written::Change(3, 2, b"300")),
    Call::Edit(Written::Change(3, 4, b"300")),
    Call::AddScenarios,
    Call::OpenAndSave,
    Call::Plan,
    Call::Do(Deed::DecideBehind),
    Call::Do(Deed::Restore),
    Call::Do(Deed::StartTwo),
    Call::Go(Way::Steps),
    Call::Go(Way::StepsInto),
    Call::Go(Way::FromThree),
    Call::Simulate,
    Call::Use(Use::Parts),
    Call::Use(Use::Texts),
    Call::Use(Use::Again),
    Call::Use(Use::Beside),
    Call::Rerun,
];

/// A call, in an order of backfills.
#[derive(Clone, Copy)]
struct Ordered(Call, Order);

impl Trial for Ordered {
    fn outcome<A: Allocator + Copy>(&self, alloc: A) -> Outcome {
        let Some(ten) = Scenario::new(10, 1000) else {
            return Outcome::Wrong;
        };
        let scenario = ten.ordered(self.1);
        match self.0 {
            Call::Copy => openings::copies(alloc),
            Call::Edit(written) => openings::edits(alloc, written),
            Call::AddScenarios => openings::adds_scenarios(alloc, scenario),
            Call::OpenAndSave => openings::opens_and_saves(alloc),
            Call::Plan => plain::works(alloc, scenario),
            Call::Do(deed) => clusters::goes(alloc, deed, scenario),
            Call::Go(way) => engines::goes(alloc, way, scenario),
            Call::Simulate => runs::simulates(alloc, scenario),
            Call::Use(made) => runs::uses(alloc, made, scenario),
            Call::Rerun => reruns::reruns(alloc, &GROWN, scenario),
        }
    }
}

fn tells_memory(alloc: Global, call: Call) -> bool {
    Order::all()
        .iter()
        .all(|order| survives_refusals(alloc, &Ordered(call, *order)))
}

#[test]
fn calls_tell_memory(rt: HostRuntime) {
    for (place, call) in CALLS.iter().enumerate() {
        assert!(rt; tells_memory(rt.alloc(), *call), "call {place}");
    }
}
