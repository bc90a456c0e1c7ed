ghost use Rattle.std.specs.Prelude.{◌≡◌, Some};
ghost use Rattle.easybook.specs.declared.fault.ProgramFault.TheVariants.{Memory as OutOfMemory, Write as WriteFailed};
ghost use Rattle.std.specs.IoError.{error_kind};
ghost use Rattle.easybook.specs.Texts.{fault_line};
ghost use Rattle.easybook.specs.Fault.{fault_of, fault_of_opening, fault_of_talk};
ghost use Rattle.easybook.specs.Input.{fault_of_reader};

use commands::OpenTextFault;
use scripts::LiveFault;
use std::alloc::{AllocError, AllocFailed};
use std::io::ErrorKind;
use std::{fmt, io};
use swf_text::{FaultKind, Memory, SwfFault, WriteFault};
use thiserror::Error;
use workers::CloseFault;

/// Why the program ends without all of its output. It displays as the line that the program writes.
#[derive(Clone, Copy, Debug, PartialEq, Eq, Error)]
pub enum ProgramFault {
    /// The log's first faulty line.
    Log(SwfFault),
    /// No comment is a scenario, and nothing names the machine's size.
    NoMachine,
    /// The machine's size is not 1 to 16,777,216 processors.
    BadMachine,
    /// The input has more bytes than its limit.
    TooLong,
    /// A reader returned an error, or a file cannot be opened.
    Read,
    /// A writer returned an error, or took no byte.
    Write,
    /// The lists of the sessions and workers are not the book's history, or one of them is still out.
    Close(CloseFault),
    /// A growth, or the start of a thread, was refused.
    Memory,
}

impl fmt::Display for ProgramFault {
    ghost output = { λ fault. Some (fault_line fault) };

    fn fmt<W: fmt::Write>(&self, f: &mut fmt::Formatter<W>) -> fmt::Result {
        match self {
            ProgramFault::Log(fault) => fault.fmt(f),
            ProgramFault::NoMachine => f.write_str("no machine size"),
            ProgramFault::BadMachine => f.write_str("bad machine size"),
            ProgramFault::TooLong => f.write_str("input too long"),
            ProgramFault::Read => f.write_str("read failed"),
            ProgramFault::Write => f.write_str("write failed"),
            ProgramFault::Close(_) => f.write_str("histories differ"),
            ProgramFault::Memory => f.write_str("out of memory"),
        }
    }
}

impl From<SwfFault> for ProgramFault {
    ghost from_gives = { λ fault given. given ≡ fault_of fault };

    fn from(fault: SwfFault) -> ProgramFault {
        match fault.kind {
            FaultKind::Memory => ProgramFault::Memory,
            _ => ProgramFault::Log(fault),
        }
    }
}

impl From<OpenTextFault> for ProgramFault {
    ghost from_gives = { λ fault given. given ≡ fault_of_opening fault };

    fn from(fault: OpenTextFault) -> ProgramFault {
        match fault {
            OpenTextFault::NoMachine => ProgramFault::NoMachine,
            OpenTextFault::BadMachine => ProgramFault::BadMachine,
            OpenTextFault::Memory => ProgramFault::Memory,
        }
    }
}

impl From<LiveFault> for ProgramFault {
    ghost from_gives = { λ fault given. given ≡ fault_of_talk fault };

    fn from(fault: LiveFault) -> ProgramFault {
        match fault {
            LiveFault::Read => ProgramFault::Read,
            LiveFault::Write => ProgramFault::Write,
            LiveFault::Memory => ProgramFault::Memory,
        }
    }
}

/// A reader returned an error, or a file cannot be opened: Memory where it is out of memory, else Read.
impl From<io::Error> for ProgramFault {
    ghost from_gives = { λ error fault. fault ≡ fault_of_reader (error_kind error) };

    fn from(error: io::Error) -> ProgramFault {
        match error.kind() {
            ErrorKind::OutOfMemory => ProgramFault::Memory,
            _ => ProgramFault::Read,
        }
    }
}

impl From<WriteFault> for ProgramFault {
    ghost from_gives = { λ _ fault. fault ≡ WriteFailed };

    fn from(_fault: WriteFault) -> ProgramFault {
        ProgramFault::Write
    }
}

impl From<Memory> for ProgramFault {
    ghost from_gives = { λ _ fault. fault ≡ OutOfMemory };

    fn from(_memory: Memory) -> ProgramFault {
        ProgramFault::Memory
    }
}

impl From<AllocError> for ProgramFault {
    ghost from_gives = { λ _ fault. fault ≡ OutOfMemory };

    fn from(_error: AllocError) -> ProgramFault {
        ProgramFault::Memory
    }
}

impl<T: Drop> From<AllocFailed<T>> for ProgramFault {
    ghost from_gives = { λ _ fault. fault ≡ OutOfMemory };

    fn from(_error: AllocFailed<T>) -> ProgramFault {
        ProgramFault::Memory
    }
}
