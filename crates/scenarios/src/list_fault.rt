ghost use Rattle.std.specs.Prelude.{◌≡◌, Some};
ghost use Rattle.scenarios.specs.declared.list_fault.AddFault.TheVariants.{Memory as no_memory};
ghost use Rattle.scenarios.specs.Names.{add_fault_name, no_such_scenario_name};

use std::fmt;
use swf_text::Memory;
use thiserror::Error;

/// Why a scenario was not added, in the order of checks.
#[derive(Clone, Copy, Debug, PartialEq, Eq, Error)]
pub enum AddFault {
    /// The name is not 1 to 16 bytes of `a` to `z`, `0` to `9`, `-` and `_`.
    BadName,
    /// A scenario of this name stands in the list.
    NameTaken,
    /// 64 scenarios stand in the list, or the last id is used.
    TooMany,
    /// A growth was refused.
    Memory,
}

impl AddFault {
    /// The fault's name, which is the variant's own.
    pub fn name(&self) -> &'static str
        ensures { result.now ≡ add_fault_name self.now }
    {
        match self {
            AddFault::BadName => "BadName",
            AddFault::NameTaken => "NameTaken",
            AddFault::TooMany => "TooMany",
            AddFault::Memory => "Memory",
        }
    }
}

impl fmt::Display for AddFault {
    ghost output = { λ fault. Some (add_fault_name fault) };

    fn fmt<W: fmt::Write>(&self, f: &mut fmt::Formatter<W>) -> fmt::Result {
        f.write_str(self.name())
    }
}

impl From<Memory> for AddFault {
    ghost from_gives = { λ _ fault. fault ≡ no_memory };

    fn from(_memory: Memory) -> AddFault {
        AddFault::Memory
    }
}

/// No scenario of the list has the name.
#[derive(Clone, Copy, Debug, PartialEq, Eq, Error)]
pub struct NoSuchScenario;

impl NoSuchScenario {
    /// The fault's name, which is that of its type.
    pub fn name(&self) -> &'static str
        ensures { result.now ≡ no_such_scenario_name }
    {
        "NoSuchScenario"
    }
}

impl fmt::Display for NoSuchScenario {
    ghost output = { λ _. Some no_such_scenario_name };

    fn fmt<W: fmt::Write>(&self, f: &mut fmt::Formatter<W>) -> fmt::Result {
        f.write_str(self.name())
    }
}
