ghost use Rattle.std.specs.Prelude.{◌≡◌, Some};
ghost use Rattle.commands.specs.Names.{command_fault_name, command_fault_text};

use std::fmt;
use thiserror::Error;

/// Why a line is no command, in the order of checks.
#[derive(Clone, Copy, Debug, PartialEq, Eq, Error)]
pub enum CommandFault {
    /// The line has more than 65,536 bytes, its line feed not counted.
    TooLong,
    /// The first word is no command.
    Unknown,
    /// Too few or too many words follow the first.
    Words,
    /// The word at this place is the first that can't stand there; the word behind the command is
    /// at place 1.
    BadWord(u8),
    /// A growth was refused. No command takes memory today.
    Memory,
}

impl CommandFault {
    /// The fault's name, which is the variant's own.
    pub fn name(&self) -> &'static str
        ensures { result.now ≡ command_fault_name self.now }
    {
        match self {
            CommandFault::TooLong => "TooLong",
            CommandFault::Unknown => "Unknown",
            CommandFault::Words => "Words",
            CommandFault::BadWord(_) => "BadWord",
            CommandFault::Memory => "Memory",
        }
    }
}

impl fmt::Display for CommandFault {
    ghost output = { λ fault. Some (command_fault_text fault) };

    fn fmt<W: fmt::Write>(&self, f: &mut fmt::Formatter<W>) -> fmt::Result {
        match self {
            CommandFault::BadWord(place) => write!(f, "BadWord {place}"),
            fault => f.write_str(fault.name()),
        }
    }
}
