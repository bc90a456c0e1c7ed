//! Where the rows of a schedule come from.

ghost use Rattle.std.specs.Prelude.{◌≡◌, ◌∷◌, [], List, MatchOption};
ghost use Rattle.checkpoints.specs.declared.row.Row.{Row as Given};

use checkpoints::{Row, Rows};
use std::alloc::Allocator;

/// Gives rows, one after another. What prints them beside what is written knows no lifetime of theirs.
pub(crate) trait Source {
    /// The rows that are left.
    ghost rows: { Self → List Given };

    /// The next row; None where none is left.
    fn next_row(&mut self) -> Option<Row>
        ensures { MatchOption result ((rows self.old ≡ []) × (rows self.new ≡ [])) (λ row. rows self.old ≡ row ∷ rows self.new) };
}

impl<'a, A: Allocator + Copy> Source for Rows<'a, A> {
    ghost rows = { λ rows. rows };

    fn next_row(&mut self) -> Option<Row> {
        self.next()
    }
}
