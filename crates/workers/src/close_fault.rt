ghost use Rattle.std.specs.Prelude.{Some};
ghost use Rattle.workers.specs.Names.{close_fault_name};

use std::fmt;
use thiserror::Error;

/// Why a desk is not closed, in the order of checks.
#[derive(Clone, Copy, Debug, PartialEq, Eq, Error)]
pub enum CloseFault {
    /// A session or worker that the desk opened is missing.
    StillOut,
    /// A list is not its caller's part of the journal, or a note is of none of these callers.
    Mismatch,
}

impl fmt::Display for CloseFault {
    ghost output = { λ fault. Some (close_fault_name fault) };

    fn fmt<W: fmt::Write>(&self, f: &mut fmt::Formatter<W>) -> fmt::Result {
        f.write_str(match self {
            CloseFault::StillOut => "StillOut",
            CloseFault::Mismatch => "Mismatch",
        })
    }
}
