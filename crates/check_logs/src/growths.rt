// Calls of lists that take memory, with each of their growths refused in turn.
use crate::{places, sorted, stretches};
use refusing::{Outcome, Trial, survives_refusals};
use std::alloc::Allocator;

/// A call that takes memory.
#[derive(Clone, Copy)]
enum Call {
    CapacityForGuests,
    CloseUp,
    CapacityForMarks,
    Insert,
    Single,
    Sort,
}

/// All of them.
const CALLS: [Call; 6] = [
    Call::CapacityForGuests,
    Call::CloseUp,
    Call::CapacityForMarks,
    Call::Insert,
    Call::Single,
    Call::Sort,
];

impl Trial for Call {
    fn outcome<A: Allocator + Copy>(&self, alloc: A) -> Outcome {
        match *self {
            Call::CapacityForGuests => places::reserves(alloc),
            Call::CloseUp => places::closes_up(alloc),
            Call::CapacityForMarks => sorted::reserves(alloc),
            Call::Insert => sorted::inserts(alloc),
            Call::Single => stretches::makes(alloc),
            Call::Sort => stretches::sorts(alloc),
        }
    }
}

#[test]
fn calls_tell_memory(rt: HostRuntime) {
    for (place, call) in CALLS.iter().enumerate() {
        assert!(rt; survives_refusals(rt.alloc(), call), "call {place}");
    }
}
