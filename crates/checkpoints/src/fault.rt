ghost use Rattle.std.specs.Prelude.{◌≡◌, Some};
ghost use Rattle.checkpoints.specs.declared.fault.RunFault.TheVariants as faults;
ghost use Rattle.checkpoints.specs.Names.{run_fault_name};

use std::fmt;
use swf_text;
use thiserror::Error;

/// Why there is no run.
#[derive(Clone, Copy, Debug, PartialEq, Eq, Error)]
pub enum RunFault {
    /// The spacing is not within 1 to 65,536 event seconds.
    BadSpacing,
    /// A growth was refused.
    Memory,
}

impl fmt::Display for RunFault {
    ghost output = { λ fault. Some (run_fault_name fault) };

    fn fmt<W: fmt::Write>(&self, f: &mut fmt::Formatter<W>) -> fmt::Result {
        f.write_str(match self {
            RunFault::BadSpacing => "BadSpacing",
            RunFault::Memory => "Memory",
        })
    }
}

impl From<swf_text::Memory> for RunFault {
    ghost from_gives = { λ _ fault. fault ≡ faults.Memory };

    fn from(_memory: swf_text::Memory) -> RunFault {
        RunFault::Memory
    }
}
