ghost use Rattle.std.specs.Prelude.{[]};
ghost use Rattle.book_machine.specs.Machine.{opened};

use std::marker::Brand;

/// Which history it is, and the state of the machine from which it goes on. Each call of a program
/// picks both.
pub trait Naming {
    ghost use Rattle.logbook.specs.Pages.{Book};
    ghost use Rattle.book_machine.specs.Machine.{Machine};

    ghost book: { Book };

    ghost opening: { Machine };
}

impl Naming for Brand {
    ghost book = { record { number = 0; log_name = 0; cells_name = 0 } };

    ghost opening = { opened [] };
}
