ghost use Rattle.std.specs.Prelude.{◌≡◌, Some};
ghost use Rattle.scenarios.specs.Names.{skip_name};

use std::fmt;
use thiserror::Error;

/// Why an entry of a log is not simulated.
#[derive(Clone, Copy, Debug, PartialEq, Eq, Error)]
pub enum Skip {
    /// Neither the requested nor the allocated processors are above 0.
    NoSize,
    /// The run time is negative.
    NoRun,
    /// It takes more processors than the machine has.
    TooLarge,
    /// Its estimate is above 100,000,000 seconds.
    TooLong,
}

impl Skip {
    /// The reason's name, which is the variant's own.
    pub fn name(&self) -> &'static str
        ensures { result.now ≡ skip_name self.now }
    {
        match self {
            Skip::NoSize => "NoSize",
            Skip::NoRun => "NoRun",
            Skip::TooLarge => "TooLarge",
            Skip::TooLong => "TooLong",
        }
    }
}

impl fmt::Display for Skip {
    ghost output = { λ skip. Some (skip_name skip) };

    fn fmt<W: fmt::Write>(&self, f: &mut fmt::Formatter<W>) -> fmt::Result {
        f.write_str(self.name())
    }
}
