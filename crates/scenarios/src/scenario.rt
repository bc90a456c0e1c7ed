ghost use Rattle.std.specs.Prelude.{◌≡◌};
ghost use Rattle.scenarios.specs.declared.order.Order.TheVariants.{Arrival};
ghost use Rattle.scenarios.specs.Scenario.{scenario_with, IsScenario};

use crate::order::Order;
use std::marker::Model;

/// The largest machine, in processors.
pub const MAX_PROCS: u64 = 16_777_216;

/// The greatest factor, in thousandths.
pub const MAX_FACTOR: u64 = 100_000;

/// What a log is simulated under: a machine, a factor on the estimates, and the order of backfills.
///
/// Two scenarios are equal where all three are.
#[derive(Clone, Copy, Debug, PartialEq, Eq)]
pub struct Scenario {
    procs: u32,
    factor: u32,
    order: Order,
}

impl Model for Scenario {
    ghost use Rattle.scenarios.specs.Scenario.{ScenarioView, IsScenario};

    ghost Value = { ScenarioView };

    ghost view = { λ s. record { procs = s.procs; factor = s.factor; order = s.order } };

    ghost invariant = { λ s. IsScenario (record { procs = s.procs; factor = s.factor; order = s.order }) };

    ghost inverse = { λ s. record { procs = s.procs; factor = s.factor; order = s.order } };
}

impl Scenario {
    /// A machine of `procs` processors, estimates times `factor` thousandths, and backfills in
    /// order of arrival.
    ///
    /// None unless there are 1 to 16,777,216 processors and 1 to 100,000 thousandths.
    pub fn new(procs: u64, factor: u64) -> Option<Scenario>
        ensures { result ≡ scenario_with procs factor }
    {
        if procs < 1 || procs > MAX_PROCS || factor < 1 || factor > MAX_FACTOR {
            return None;
        }
        Some(Scenario {
            procs: procs as u32,
            factor: factor as u32,
            order: Order::Arrival,
        })
    }

    /// The same machine and factor, with backfills in this order.
    pub fn ordered(self, order: Order) -> Scenario
        ensures { result ≡ record self { order = order } }
    {
        Scenario {
            procs: self.procs,
            factor: self.factor,
            order,
        }
    }

    /// The machine's processors, 1 to 16,777,216.
    pub fn procs(&self) -> u64
        ensures value { result ≡ self.now.procs }
        ensures scenario { IsScenario self.now }
    {
        u64::from(self.procs)
    }

    /// What a base estimate is multiplied by, in thousandths, 1 to 100,000.
    pub fn factor(&self) -> u64
        ensures value { result ≡ self.now.factor }
        ensures scenario { IsScenario self.now }
    {
        u64::from(self.factor)
    }

    /// The order of backfills.
    pub fn order(&self) -> Order
        ensures { result ≡ self.now.order }
    {
        self.order
    }
}
