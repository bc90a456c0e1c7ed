ghost use Rattle.std.specs.Prelude.{◌≡◌, ◌≤◌, ℕ, List, length};
ghost use Rattle.job_table.specs.Names.{edit_fault_name};
ghost use Rattle.scenarios.specs.Names.{add_fault_name, no_such_scenario_name};
ghost use Rattle.version_book.specs.Names.{memory_name};

use job_table::EditFault;
use scenarios::{AddFault, NoSuchScenario};
use swf_text::Memory;

/// What a call may be refused for, by the name that scripts write of it.
pub trait Named {
    ghost name: { Self → List ℕ };

    /// The name, of at most 16 bytes: that of the variant, or of the type where it has none.
    fn name(&self) -> &'static str
        ensures name { result.now ≡ name self.now }
        ensures short { length result.now ≤ 16 };
}

impl Named for EditFault {
    ghost name = { edit_fault_name };

    fn name(&self) -> &'static str {
        EditFault::name(self)
    }
}

impl Named for AddFault {
    ghost name = { add_fault_name };

    fn name(&self) -> &'static str {
        AddFault::name(self)
    }
}

impl Named for NoSuchScenario {
    ghost name = { λ _. no_such_scenario_name };

    fn name(&self) -> &'static str {
        NoSuchScenario::name(self)
    }
}

impl Named for Memory {
    ghost name = { λ _. memory_name };

    fn name(&self) -> &'static str {
        "Memory"
    }
}
