ghost use Rattle.std.specs.Prelude.{[]};

use std::marker::Brand;

// Which scripts are worked side by side, and which comments their log has. Each call picks both.
pub(crate) trait Works {
    ghost use Rattle.std.specs.Prelude.{ℕ, List};

    ghost comments: { List (List ℕ) };

    ghost scripts: { List (List ℕ) };
}

impl Works for Brand {
    ghost comments = { [] };

    ghost scripts = { [] };
}
