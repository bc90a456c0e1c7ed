ghost use Rattle.std.specs.Prelude.{◌≡◌, Some};
ghost use Rattle.job_table.specs.declared.fault.EditFault.TheVariants as faults;
ghost use Rattle.job_table.specs.Names.{edit_fault_name};

use std::fmt;
use thiserror::Error;

/// Why an edit is refused, in the order of checks.
#[derive(Clone, Copy, Debug, PartialEq, Eq, Error)]
pub enum EditFault {
    /// No job has the number that is to be removed or changed.
    NoSuchJob,
    /// A job has the number of the entry that is to be inserted.
    DuplicateJob,
    /// The field to be changed is 0, 1 or above 18.
    BadField,
    /// Field 2 is to be negative, or field 11 a status of a partial line: 2, 3 or 4.
    BadValue,
    /// The table has 4,194,304 entries already.
    TableFull,
    /// A growth was refused.
    Memory,
}

impl EditFault {
    /// The fault's name, which is the variant's own.
    pub fn name(&self) -> &'static str
        ensures { result.now ≡ edit_fault_name self.now }
    {
        match self {
            EditFault::NoSuchJob => "NoSuchJob",
            EditFault::DuplicateJob => "DuplicateJob",
            EditFault::BadField => "BadField",
            EditFault::BadValue => "BadValue",
            EditFault::TableFull => "TableFull",
            EditFault::Memory => "Memory",
        }
    }
}

impl fmt::Display for EditFault {
    ghost output = { λ fault. Some (edit_fault_name fault) };

    fn fmt<W: fmt::Write>(&self, f: &mut fmt::Formatter<W>) -> fmt::Result {
        f.write_str(self.name())
    }
}

impl From<swf_text::Memory> for EditFault {
    ghost from_gives = { λ _ fault. fault ≡ faults.Memory };

    fn from(_memory: swf_text::Memory) -> EditFault {
        EditFault::Memory
    }
}
