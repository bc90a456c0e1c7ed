// A ticket's `receiver` has what the ticket asks for, and the run that its task has left, if one is there: a
// run of the ticket's log and scenario, since no other can be left.
ghost use Rattle.std.specs.Prelude.{◌≡◌, ◌==◌, ◌&&◌, ◌↔◌, IfSome, IsTrue, Some};
ghost use Rattle.std.specs.Arc.{arc_value};
ghost use Rattle.tasks.specs.Tickets.{HasThoseOf, has_number};

use crate::delivery::{MadeRun, RunReceiver};
use checkpoints::Run;
use scenarios::ScenarioId;
use std::alloc::Allocator;
use std::marker::Model;
use std::sync::Arc;

/// A standing ticket: a run of this scenario is being made of this version's log.
#[derive(Drop)]
pub struct Ticket<A: Allocator + Copy> {
    pub(crate) number: u64,
    pub(crate) id: ScenarioId,
    pub(crate) version: u64,
    pub(crate) receiver: RunReceiver<A>,
}

impl<A: Allocator + Copy> Model for Ticket<A> {
    ghost use Rattle.tasks.specs.Tickets.{TicketView};

    ghost Value = { TicketView };

    ghost view = { λ t. record { number = t.number; id = t.id; version = t.version; log = t.receiver.log; scenario = t.receiver.scenario } };
}

impl<A: Allocator + Copy> Ticket<A> {
    pub(crate) fn has_number(&self, number: u64) -> bool
        ensures { result ≡ has_number number self.now }
    {
        self.number == number
    }

    pub(crate) fn is_for(&self, id: ScenarioId) -> bool
        ensures { result ≡ (self.now.id == id) }
    {
        self.id.number() == id.number()
    }

    pub(crate) fn is_of(&self, id: ScenarioId, version: u64) -> bool
        ensures { result ≡ (self.now.id == id && self.now.version == version) }
    {
        self.is_for(id) && self.version == version
    }

    /// The scenario's id.
    pub fn id(&self) -> ScenarioId
        ensures { result ≡ self.now.id }
    {
        self.id
    }

    /// The version of whose log the run is to be.
    pub fn version(&self) -> u64
        ensures { result ≡ self.now.version }
    {
        self.version
    }

    pub(crate) fn take_run(&mut self) -> Option<Arc<Run<A>, A>>
        ensures run { IfSome result (λ run. HasThoseOf (Some self.old) (arc_value run)) }
        ensures ticket { self.new ≡ self.old }
    {
        let MadeRun { run } = self.receiver.receive()?;
        Some(run)
    }

    /// Whether a run has the ticket's log and scenario. The logs are compared by value.
    pub fn fits(&self, run: &Run<A>) -> bool
        ensures { IsTrue result ↔ ((run.now.log ≡ self.now.log) × (run.now.scenario ≡ self.now.scenario)) }
    {
        let plan = self.receiver.request();
        run.scenario() == plan.scenario() && run.table().same(plan.table())
    }
}
