ghost use Rattle.std.specs.Prelude.{◌≡◌, ◌≤◌};

use std::marker::Model;

/// The number of an added scenario: from 1, one more for each that is added, never used again.
#[derive(Clone, Copy, Debug, PartialEq, Eq)]
pub struct ScenarioId {
    number: u32,
}

impl Model for ScenarioId {
    ghost use Rattle.std.specs.Prelude.{ℕ, ◌≤◌};

    ghost Value = { ℕ };

    ghost view = { λ id. id.number };

    ghost invariant = { λ id. 1 ≤ id.number };

    ghost inverse = { λ n. record { number = n } };
}

impl ScenarioId {
    pub(crate) fn of(number: u32) -> ScenarioId
        requires { 1 ≤ number }
        ensures { result ≡ number }
    {
        ScenarioId { number }
    }

    /// The number, 1 to 4,294,967,295.
    pub fn number(&self) -> u32
        ensures value { result ≡ self.now }
        ensures counted { 1 ≤ result }
    {
        self.number
    }
}
