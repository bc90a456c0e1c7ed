ghost use Rattle.std.specs.Prelude.{◌≡◌, Some};
ghost use Rattle.event_loop.specs.declared.fault.EngineFault.TheVariants as faults;
ghost use Rattle.event_loop.specs.Names.{engine_fault_name};

use std::fmt;
use swf_text;
use thiserror::Error;

/// Why an engine does not go on.
#[derive(Clone, Copy, Debug, PartialEq, Eq, Error)]
pub enum EngineFault {
    /// It ran out of memory before.
    Failed,
    /// A growth was refused.
    Memory,
}

impl fmt::Display for EngineFault {
    ghost output = { λ fault. Some (engine_fault_name fault) };

    fn fmt<W: fmt::Write>(&self, f: &mut fmt::Formatter<W>) -> fmt::Result {
        f.write_str(match self {
            EngineFault::Failed => "Failed",
            EngineFault::Memory => "Memory",
        })
    }
}

impl From<swf_text::Memory> for EngineFault {
    ghost from_gives = { λ _ fault. fault ≡ faults.Memory };

    fn from(_memory: swf_text::Memory) -> EngineFault {
        EngineFault::Memory
    }
}

impl From<EngineFault> for swf_text::Memory {
    ghost from_gives = { λ _ memory. memory ≡ record {} };

    fn from(_fault: EngineFault) -> swf_text::Memory {
        swf_text::Memory
    }
}
