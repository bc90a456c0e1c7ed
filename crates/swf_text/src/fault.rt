ghost use Rattle.std.specs.Prelude.{◌≡◌, Some};
ghost use Rattle.swf_text.specs.declared.fault.FaultKind.TheVariants.{Memory as no_memory};
ghost use Rattle.swf_text.specs.Names.{kind_name, kind_text, fault_text, entry_fault_name, write_fault_name};
ghost use Rattle.swf_text.specs.Fault.{kind_of};

use crate::line::LineFault;
use crate::memory::Memory;
use std::alloc::{AllocError, AllocFailed};
use std::fmt;
use thiserror::Error;

/// Why a line ends the reading of a log, in the order of checks.
#[derive(Clone, Copy, Debug, PartialEq, Eq, Error)]
pub enum FaultKind {
    /// The line has more than 65,536 bytes, its line feed not counted.
    LineTooLong,
    /// A job line has a byte of 0x80 or above.
    NotAscii,
    /// A job line has not exactly eighteen words.
    FieldCount,
    /// The word of this field, counted from 1, is the first that is no number.
    BadNumber(u8),
    /// Field 1 is no whole number of at least 0.
    BadJobNumber,
    /// Field 2 of a summary line is negative.
    BadSubmit,
    /// A partial line has not the job number of the last entry before it.
    OrphanPartial,
    /// The job number of a summary line stands on an earlier one.
    DuplicateJob,
    /// The line would be entry 4,194,305.
    TooManyJobs,
    /// A growth was refused.
    Memory,
}

impl FaultKind {
    /// The kind's name, which is the variant's own.
    pub fn name(&self) -> &'static str
        ensures { result.now ≡ kind_name self.now }
    {
        match self {
            FaultKind::LineTooLong => "LineTooLong",
            FaultKind::NotAscii => "NotAscii",
            FaultKind::FieldCount => "FieldCount",
            FaultKind::BadNumber(_) => "BadNumber",
            FaultKind::BadJobNumber => "BadJobNumber",
            FaultKind::BadSubmit => "BadSubmit",
            FaultKind::OrphanPartial => "OrphanPartial",
            FaultKind::DuplicateJob => "DuplicateJob",
            FaultKind::TooManyJobs => "TooManyJobs",
            FaultKind::Memory => "Memory",
        }
    }
}

impl fmt::Display for FaultKind {
    ghost output = { λ fault. Some (kind_text fault) };

    fn fmt<W: fmt::Write>(&self, f: &mut fmt::Formatter<W>) -> fmt::Result {
        match self {
            FaultKind::BadNumber(field) => write!(f, "BadNumber {field}"),
            kind => f.write_str(kind.name()),
        }
    }
}

impl From<LineFault> for FaultKind {
    ghost from_gives = { λ fault kind. kind ≡ kind_of fault };

    fn from(fault: LineFault) -> FaultKind {
        match fault {
            LineFault::LineTooLong => FaultKind::LineTooLong,
            LineFault::NotAscii => FaultKind::NotAscii,
            LineFault::FieldCount => FaultKind::FieldCount,
            LineFault::BadNumber(place) => FaultKind::BadNumber(place),
        }
    }
}

impl From<Memory> for FaultKind {
    ghost from_gives = { λ _ kind. kind ≡ no_memory };

    fn from(_memory: Memory) -> FaultKind {
        FaultKind::Memory
    }
}

impl From<AllocError> for FaultKind {
    ghost from_gives = { λ _ kind. kind ≡ no_memory };

    fn from(_error: AllocError) -> FaultKind {
        FaultKind::Memory
    }
}

impl<T: Drop> From<AllocFailed<T>> for FaultKind {
    ghost from_gives = { λ _ kind. kind ≡ no_memory };

    fn from(_error: AllocFailed<T>) -> FaultKind {
        FaultKind::Memory
    }
}

/// The first faulty line of a log, counted from 1, and its first fault.
#[derive(Clone, Copy, Debug, PartialEq, Eq, Error)]
pub struct SwfFault {
    pub line: u64,
    pub kind: FaultKind,
}

impl fmt::Display for SwfFault {
    ghost output = { λ fault. Some (fault_text fault) };

    fn fmt<W: fmt::Write>(&self, f: &mut fmt::Formatter<W>) -> fmt::Result {
        let line = self.line;
        let kind = self.kind;
        write!(f, "line {line}: {kind}")
    }
}

/// Why lines make no entry, in the order of checks.
#[derive(Clone, Copy, Debug, PartialEq, Eq, Error)]
pub enum EntryFault {
    /// Field 1 of the summary line is no whole number of at least 0.
    BadJobNumber,
    /// Field 2 of the summary line is negative.
    BadSubmit,
    /// The summary line has the status of a partial line: 2, 3 or 4.
    BadStatus,
    /// A partial line has another job number, or a status other than 2, 3 and 4.
    BadPart,
}

impl fmt::Display for EntryFault {
    ghost output = { λ fault. Some (entry_fault_name fault) };

    fn fmt<W: fmt::Write>(&self, f: &mut fmt::Formatter<W>) -> fmt::Result {
        f.write_str(match self {
            EntryFault::BadJobNumber => "BadJobNumber",
            EntryFault::BadSubmit => "BadSubmit",
            EntryFault::BadStatus => "BadStatus",
            EntryFault::BadPart => "BadPart",
        })
    }
}

/// Why bytes were not written whole.
#[derive(Clone, Copy, Debug, PartialEq, Eq, Error)]
pub enum WriteFault {
    /// The writer answered an error, or took no byte.
    Device,
}

impl fmt::Display for WriteFault {
    ghost output = { λ fault. Some (write_fault_name fault) };

    fn fmt<W: fmt::Write>(&self, f: &mut fmt::Formatter<W>) -> fmt::Result {
        f.write_str(match self {
            WriteFault::Device => "Device",
        })
    }
}
