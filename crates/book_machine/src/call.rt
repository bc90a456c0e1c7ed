ghost use Rattle.std.specs.Prelude.{◌≡◌, ◌↔◌, IsTrue};
ghost use Rattle.std.specs.Cmp.{partial_equiv_from_equiv};
ghost use Rattle.std.specs.Ordering.{on};
ghost use Rattle.std.proofs.lemmas.Cmp.{on_equiv};
ghost use Rattle.book_machine.specs.Noted.{call_of};
ghost use Rattle.book_machine.specs.Same.{same_call};
ghost use Rattle.book_machine.specs.Decided.{same_call-equiv};

use crate::name::NotedName;
use crate::noted_edit::NotedEdit;
use scenarios::{Scenario, ScenarioId};
use std::alloc::Allocator;

/// A call of the book, with its arguments. A run that is handed in is written as whether it fits
/// its ticket.
#[derive(Drop)]
pub enum Call<A: Allocator + Copy> {
    /// An edit of the log.
    Edit(NotedEdit<A>),
    /// A scenario is added under a name.
    AddScenario {
        name: NotedName<A>,
        scenario: Scenario,
    },
    /// The scenario with this name is dropped.
    DropScenario {
        name: NotedName<A>,
    },
    /// A scenario that was given up is to be tried again.
    Retry {
        id: ScenarioId,
    },
    /// A worker asks for a task.
    Claim,
    /// A worker hands in a run for a ticket.
    Finish {
        ticket: u64,
        fits: bool,
    },
    /// A worker gives a ticket up.
    GiveUp {
        ticket: u64,
    },
    /// A session that has seen this version looks at a scenario.
    View {
        id: ScenarioId,
        seen: u64,
    },
}

impl<A: Allocator + Copy> PartialEq for Call<A> {
    ghost eq = { on call_of same_call };

    ghost laws = { partial_equiv_from_equiv (on_equiv call_of same_call-equiv) };

    fn eq(&self, other: &Call<A>) -> bool {
        match (self, other) {
            (Call::Edit(one), Call::Edit(two)) => *one == *two,
            (
                Call::AddScenario { name, scenario },
                Call::AddScenario {
                    name: called,
                    scenario: under,
                },
            ) => *name == *called && *scenario == *under,
            (Call::DropScenario { name }, Call::DropScenario { name: called }) => *name == *called,
            (Call::Retry { id }, Call::Retry { id: of }) => id.number() == of.number(),
            (Call::Claim, Call::Claim) => true,
            (
                Call::Finish { ticket, fits },
                Call::Finish {
                    ticket: number,
                    fits: fitting,
                },
            ) => ticket == number && fits == fitting,
            (Call::GiveUp { ticket }, Call::GiveUp { ticket: number }) => ticket == number,
            (
                Call::View { id, seen },
                Call::View {
                    id: of,
                    seen: known,
                },
            ) => { id.number() == of.number() && seen == known }
            _ => false,
        }
    }
}

impl<A: Allocator + Copy> Eq for Call<A> {
    ghost laws = { on_equiv call_of same_call-equiv };
}

impl<A: Allocator + Copy> Call<A> {
    /// Whether both are one call with the same arguments.
    pub fn same(&self, other: &Call<A>) -> bool
        ensures { IsTrue result ↔ (call_of self.now ≡ call_of other.now) }
    {
        *self == *other
    }
}
