ghost use Rattle.version_book.specs.Names.{view_fault_name, too_many_tickets_name, finish_fault_name, unknown_ticket_name};

use crate::named::Named;

/// Why no run is shown, in the order of checks.
#[derive(Clone, Copy, Debug, PartialEq, Eq)]
pub enum ViewFault {
    /// No scenario of the book has the id.
    NoSuchScenario,
    /// Nothing is published for the scenario.
    NotYet,
    /// What is published is older than the version that the caller has seen.
    Behind { seen: u64, found: u64 },
}

impl Named for ViewFault {
    ghost name = { view_fault_name };

    fn name(&self) -> &'static str {
        match self {
            ViewFault::NoSuchScenario => "NoSuchScenario",
            ViewFault::NotYet => "NotYet",
            ViewFault::Behind { .. } => "Behind",
        }
    }
}

/// Why a claim gets no ticket: 256 stand.
#[derive(Clone, Copy, Debug, PartialEq, Eq)]
pub struct TooManyTickets;

impl Named for TooManyTickets {
    ghost name = { λ _. too_many_tickets_name };

    fn name(&self) -> &'static str {
        "TooManyTickets"
    }
}

/// Why a run is not published, in the order of checks.
#[derive(Clone, Copy, Debug, PartialEq, Eq)]
pub enum FinishFault {
    /// No such ticket stands.
    UnknownTicket,
    /// The run is not of the ticket's log and scenario; the ticket stands.
    Stranger,
    /// A run of this version, which is no older, is published already; the ticket is closed.
    Stale { published: u64 },
}

impl Named for FinishFault {
    ghost name = { finish_fault_name };

    fn name(&self) -> &'static str {
        match self {
            FinishFault::UnknownTicket => "UnknownTicket",
            FinishFault::Stranger => "Stranger",
            FinishFault::Stale { .. } => "Stale",
        }
    }
}

/// Why no ticket is given up: no such ticket stands.
#[derive(Clone, Copy, Debug, PartialEq, Eq)]
pub struct UnknownTicket;

impl Named for UnknownTicket {
    ghost name = { λ _. unknown_ticket_name };

    fn name(&self) -> &'static str {
        "UnknownTicket"
    }
}
