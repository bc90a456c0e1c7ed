ghost use Rattle.std.specs.Prelude.{◌≡◌, Some};
ghost use Rattle.version_book.specs.declared.refusal.Refusal.TheVariants as why;
ghost use Rattle.version_book.specs.Names.{refusal_name};
ghost use Rattle.version_book.specs.Answers.{refusal_of};

use crate::faults::{FinishFault, TooManyTickets, UnknownTicket, ViewFault};
use crate::named::Named;
use job_table::EditFault;
use scenarios::{AddFault, NoSuchScenario};
use std::fmt;
use swf_text::Memory;
use thiserror::Error;

/// Why a call of a book is refused: JournalFull before all others. Memory may come in place of a fault,
/// since a call takes the memory for its note before it looks for one. It displays as its name.
#[derive(Clone, Copy, Debug, PartialEq, Eq, Error)]
#[error_bound(F: Named + fmt::Debug)]
pub enum Refusal<F> {
    /// The journal has 1,000,000 notes.
    JournalFull,
    /// The call has this fault, which is never out of memory.
    Fault(F),
    /// A growth was refused.
    Memory,
}

/// Why an edit is not accepted.
pub type EditRefusal = Refusal<EditFault>;

/// Why a scenario is not added.
pub type AddRefusal = Refusal<AddFault>;

/// Why no scenario is dropped.
pub type DropRefusal = Refusal<NoSuchScenario>;

/// Why no mark is taken away.
pub type RetryRefusal = Refusal<NoSuchScenario>;

/// Why no run is shown.
pub type ViewRefusal = Refusal<ViewFault>;

/// Why a claim is refused.
pub type ClaimRefusal = Refusal<TooManyTickets>;

/// Why a run is not published.
pub type FinishRefusal = Refusal<FinishFault>;

/// Why no ticket is given up.
pub type GiveUpRefusal = Refusal<UnknownTicket>;

impl<F: Named> Named for Refusal<F> {
    ghost name = { refusal_name F.name };

    fn name(&self) -> &'static str {
        match self {
            Refusal::JournalFull => "JournalFull",
            Refusal::Fault(fault) => fault.name(),
            Refusal::Memory => "Memory",
        }
    }
}

impl<F: Named> fmt::Display for Refusal<F> {
    ghost output = { λ refusal. Some (refusal_name F.name refusal) };

    fn fmt<W: fmt::Write>(&self, f: &mut fmt::Formatter<W>) -> fmt::Result {
        f.write_str(self.name())
    }
}

impl<F> From<Memory> for Refusal<F> {
    ghost from_gives = { λ _ refusal. refusal ≡ why.Memory };

    fn from(_memory: Memory) -> Refusal<F> {
        Refusal::Memory
    }
}

impl From<AddFault> for AddRefusal {
    ghost from_gives = { λ fault refusal. refusal ≡ refusal_of fault };

    fn from(fault: AddFault) -> AddRefusal {
        match fault {
            AddFault::Memory => Refusal::Memory,
            fault => Refusal::Fault(fault),
        }
    }
}
