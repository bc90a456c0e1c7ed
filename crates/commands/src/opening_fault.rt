ghost use Rattle.std.specs.Prelude.{◌≡◌, Some};
ghost use Rattle.commands.specs.declared.opening_fault.OpenTextFault.TheVariants.{Memory as no_memory};
ghost use Rattle.commands.specs.Names.{open_fault_name};

use std::fmt;
use swf_text::Memory;
use thiserror::Error;

/// Why a log is not opened, in the order of checks.
#[derive(Clone, Copy, Debug, PartialEq, Eq, Error)]
pub enum OpenTextFault {
    /// Neither the comments nor the caller name a scenario or a machine's size.
    NoMachine,
    /// The machine has not 1 to 16,777,216 processors.
    BadMachine,
    /// A growth was refused.
    Memory,
}

impl fmt::Display for OpenTextFault {
    ghost output = { λ fault. Some (open_fault_name fault) };

    fn fmt<W: fmt::Write>(&self, f: &mut fmt::Formatter<W>) -> fmt::Result {
        f.write_str(match self {
            OpenTextFault::NoMachine => "NoMachine",
            OpenTextFault::BadMachine => "BadMachine",
            OpenTextFault::Memory => "Memory",
        })
    }
}

impl From<Memory> for OpenTextFault {
    ghost from_gives = { λ _ fault. fault ≡ no_memory };

    fn from(_memory: Memory) -> OpenTextFault {
        OpenTextFault::Memory
    }
}
