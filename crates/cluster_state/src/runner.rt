ghost use Rattle.std.specs.Prelude.{◌≡◌, ◌<◌, ◌^◌};
ghost use Rattle.scenarios.specs.Placed.{expected_end};
ghost use Rattle.cluster_state.specs.State.{busy};

use blocks::Ranked;
use scenarios::Placed;
use std::marker::Model;

#[derive(Clone, Copy)]
pub(crate) struct Runner {
    pub(crate) placed: Placed,
}

impl Model for Runner {
    ghost use Rattle.std.specs.Prelude.{◌<◌};
    ghost use Rattle.scenarios.specs.Limits.{seconds_end};
    ghost use Rattle.scenarios.specs.declared.placed.Placed.{Placed};

    ghost Value = { Placed };

    ghost view = { λ r. r.placed };

    ghost invariant = { λ r. r.placed.start < seconds_end };

    ghost inverse = { λ p. record { placed = p } };
}

impl Ranked for Runner {
    ghost major = { expected_end };

    ghost minor = { λ r. r.job.number };

    ghost weight = { λ r. r.job.size };

    fn major(&self) -> u128 {
        u128::from(self.placed.expected_end())
    }

    fn minor(&self) -> u64 {
        self.placed.job.number()
    }

    fn weight(&self) -> u64 {
        self.placed.job.size()
    }
}

pub(crate) fn held(running: &[Placed]) -> u64
    requires { busy running.now < 2 ^ 64 }
    ensures { result ≡ busy running.now }
{
    running.iter().map(|r| r.job.size()).sum()
}
