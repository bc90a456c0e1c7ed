use job_table::EditFault;
use scenarios::{AddFault, ScenarioId};

/// What a call was answered. Runs are written by their versions.
#[derive(Clone, Copy, Debug, PartialEq, Eq)]
pub enum Reply {
    /// An edit made this version.
    Edited {
        version: u64,
    },
    /// An edit was refused.
    EditRefused(EditFault),
    /// A scenario was added under this id.
    Added {
        id: ScenarioId,
    },
    /// A scenario was not added.
    AddRefused(AddFault),
    /// The scenario with this id was dropped.
    Dropped {
        id: ScenarioId,
    },
    /// No scenario has the name, or the id.
    NoSuchScenario,
    /// A scenario's mark was taken away.
    Retried,
    /// A claim found no scenario that is due.
    NoneDue,
    /// A claim got this ticket: a run of the scenario is to be made at this version, from the one
    /// published at the base version, if any.
    Claimed {
        ticket: u64,
        id: ScenarioId,
        version: u64,
        base: Option<u64>,
    },
    /// A claim found 256 standing tickets.
    TooManyTickets,
    /// A run was published at this version.
    Finished {
        version: u64,
    },
    /// The ticket doesn't stand.
    UnknownTicket,
    /// The run is not of the ticket's table and scenario.
    Stranger,
    /// As new a version was published already.
    Stale {
        published: u64,
    },
    /// The ticket was closed without a run.
    GivenUp,
    /// Nothing is published for the scenario.
    NotYet,
    /// What is published is older than what the caller has seen.
    Behind {
        seen: u64,
        found: u64,
    },
    /// The run of this version was shown.
    Shown {
        version: u64,
    },
}
