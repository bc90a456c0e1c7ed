// The one driver by which each growth of a call is refused in turn.
use crate::refusing_allocator::Refusing;
use std::alloc::{Allocator, Global};

/// What came of a call while one growth was refused.
#[derive(Clone, Copy, Debug, PartialEq, Eq)]
pub enum Outcome {
    /// The growth was refused before the call.
    Before,
    /// It answered that memory is short, and left all as it was.
    Memory,
    /// It answered as it should.
    Right,
    /// It answered otherwise.
    Wrong,
}

impl Outcome {
    /// Right where this holds.
    pub fn right_if(holds: bool) -> Outcome {
        if holds {
            Outcome::Right
        } else {
            Outcome::Wrong
        }
    }

    /// Right where a call that may be refused for memory alone went well.
    pub fn right_or_memory(went_well: bool) -> Outcome {
        if went_well {
            Outcome::Right
        } else {
            Outcome::Memory
        }
    }

    /// Out of memory where this holds: all is as it was.
    pub fn memory_if(holds: bool) -> Outcome {
        if holds {
            Outcome::Memory
        } else {
            Outcome::Wrong
        }
    }
}

/// A call that takes memory.
pub trait Trial {
    /// Makes the call on this allocator.
    fn outcome<A: Allocator + Copy>(&self, alloc: A) -> Outcome;
}

/// More growths than a trial makes.
const MANY: u64 = 10_000;

/// Refuses each growth in turn: whether the call answered that memory is short at one, never answered
/// otherwise, and answers as it should once none is refused.
pub fn survives_refusals<T: Trial>(alloc: Global, trial: &T) -> bool {
    let mut was_short = false;
    for nth in 1..MANY {
        let heap = Refusing::new(alloc, nth);
        let outcome = trial.outcome(&heap);
        if !heap.refused() {
            return was_short && outcome == Outcome::Right;
        }
        if outcome == Outcome::Right || outcome == Outcome::Wrong {
            return false;
        }
        was_short = was_short || outcome == Outcome::Memory;
    }
    false
}
