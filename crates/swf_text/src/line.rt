ghost use Rattle.std.specs.Prelude.{Some};
ghost use Rattle.swf_text.specs.Names.{line_fault_text};

use crate::fault::FaultKind;
use crate::value::Value;
use std::fmt;
use thiserror::Error;

/// The eighteen values of a job line, field 1 first.
#[derive(Clone, Copy, Debug, PartialEq, Eq)]
pub struct Fields(pub [Value; 18]);

/// What is wrong with a line by itself, in the order in which it is looked for.
#[derive(Clone, Copy, Debug, PartialEq, Eq, Error)]
pub enum LineFault {
    /// The line has more than 65,536 bytes, its line feed not counted.
    LineTooLong,
    /// A job line has a byte of 0x80 or above.
    NotAscii,
    /// A job line has not exactly eighteen words.
    FieldCount,
    /// The word of this field, counted from 1, is the first that is no number.
    BadNumber(u8),
}

impl fmt::Display for LineFault {
    ghost output = { λ fault. Some (line_fault_text fault) };

    fn fmt<W: fmt::Write>(&self, f: &mut fmt::Formatter<W>) -> fmt::Result {
        FaultKind::from(*self).fmt(f)
    }
}

/// What one line is.
#[derive(Clone, Copy, Debug, PartialEq, Eq)]
pub enum LineRead {
    /// Nothing but blanks.
    Blank,
    /// The first byte that is no blank is `;`.
    Comment,
    /// Eighteen numbers between blanks.
    Job(Fields),
    /// None of these.
    Fault(LineFault),
}
