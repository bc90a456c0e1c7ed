use job_table::Edit;
use scenarios::{Scenario, ScenarioId};
use std::alloc::Allocator;

/// A call that a session makes at a desk.
#[derive(Clone, Copy)]
pub(crate) enum SessionCall<'a, A: Allocator + Copy> {
    Edit(&'a Edit<A>),
    Add { name: &'a str, scenario: Scenario },
    Drop { name: &'a str },
    Retry { id: ScenarioId },
    View { id: ScenarioId },
}
