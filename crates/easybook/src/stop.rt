ghost use Rattle.std.specs.Prelude.{◌≡◌, Some};
ghost use Rattle.easybook.specs.declared.fault.ProgramFault.TheVariants.{Memory as OutOfMemory};
ghost use Rattle.std.specs.IoError.{error_kind};
ghost use Rattle.easybook.specs.declared.stop.Stop.TheVariants.{Fault as fault_stop, Words as words_stop};
ghost use Rattle.easybook.specs.Texts.{stop_line};
ghost use Rattle.easybook.specs.Stop.{status_of, stop_of_kind};

use crate::fault::ProgramFault;
use crate::words::WordsFault;
use std::alloc::AllocFailed;
use std::io::ErrorKind;
use std::{fmt, io};
use thiserror::Error;

/// Why the program ends without all of its output. It displays as the line that the program writes.
#[derive(Clone, Copy, Debug, PartialEq, Eq, Error)]
pub enum Stop {
    /// The words are bad, or memory ran out while options were made of them.
    Words(WordsFault),
    /// Memory ran out while the words were had, or they are good and this fault came later.
    Fault(ProgramFault),
}

impl fmt::Display for Stop {
    ghost output = { λ stop. Some (stop_line stop) };

    fn fmt<W: fmt::Write>(&self, f: &mut fmt::Formatter<W>) -> fmt::Result {
        match self {
            Stop::Words(why) => why.fmt(f),
            Stop::Fault(why) => why.fmt(f),
        }
    }
}

impl Stop {
    /// The exit status: 2 for bad arguments, otherwise 1.
    pub fn status(&self) -> u8
        ensures { result ≡ status_of self.now }
    {
        match self {
            Stop::Words(WordsFault::BadWords) => 2,
            _ => 1,
        }
    }
}

impl From<WordsFault> for Stop {
    ghost from_gives = { λ fault stop. stop ≡ words_stop fault };

    fn from(fault: WordsFault) -> Stop {
        Stop::Words(fault)
    }
}

impl From<ProgramFault> for Stop {
    ghost from_gives = { λ fault stop. stop ≡ fault_stop fault };

    fn from(fault: ProgramFault) -> Stop {
        Stop::Fault(fault)
    }
}

/// The words could not be read: one is not UTF-8, or memory ran out.
impl From<io::Error> for Stop {
    ghost from_gives = { λ error stop. stop ≡ stop_of_kind (error_kind error) };

    fn from(error: io::Error) -> Stop {
        match error.kind() {
            ErrorKind::OutOfMemory => Stop::Fault(ProgramFault::Memory),
            _ => Stop::Words(WordsFault::BadWords),
        }
    }
}

impl<T: Drop> From<AllocFailed<T>> for Stop {
    ghost from_gives = { λ _ stop. stop ≡ fault_stop OutOfMemory };

    fn from(_error: AllocFailed<T>) -> Stop {
        Stop::Fault(ProgramFault::Memory)
    }
}
