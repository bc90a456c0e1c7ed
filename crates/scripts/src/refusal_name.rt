ghost use Rattle.std.specs.Prelude.{◌≡◌, ◌≤◌, length};

use std::marker::Model;
use version_book::Named;

/// The name of a refusal, as it is written.
#[derive(Drop)]
pub(crate) struct RefusalName {
    name: &'static str,
    ghost short: { length name.now ≤ 16 },
}

impl Model for RefusalName {
    ghost use Rattle.std.specs.Prelude.{ℕ, List};

    ghost Value = { List ℕ };

    ghost view = { λ n. n.name.now };
}

impl RefusalName {
    pub(crate) fn of<N: Named>(why: &N) -> RefusalName
        ensures { result ≡ N.name why.now }
    {
        RefusalName { name: why.name() }
    }

    pub(crate) fn as_str(&self) -> &'static str
        ensures name { result.now ≡ self.now }
        ensures short { length result.now ≤ 16 }
    {
        self.name
    }
}
