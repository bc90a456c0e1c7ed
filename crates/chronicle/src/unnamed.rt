ghost use Rattle.std.specs.Prelude.{◌≡◌};
ghost use Rattle.chronicle.specs.Fronts.{nothing_yet};

use crate::event::Event;
use crate::front::Front;
use crate::law::Law;
use crate::naming::Naming;
use crate::whole::Whole;
use logbook::{Seen, Start, Word};
use std::marker::{Model, PhantomData};

/// A history of no events, which no name was picked for yet. Contracts see it as the book that keeps
/// it.
#[derive(Drop)]
pub struct Unnamed {
    head: Word<Event, u64, Law>,
    seen: Seen<Event, u64, Law>,
}

impl Model for Unnamed {
    ghost use Rattle.std.specs.Prelude.{◌≡◌, []};
    ghost use Rattle.logbook.specs.Pages.{Book};
    ghost use Rattle.chronicle.specs.Rules.{head_of};

    ghost Value = { Book };

    ghost view = { λ u. u.seen.book };

    ghost invariant = { λ u. (u.seen.log ≡ []) × (u.head ≡ head_of u.seen.book) };
}

impl Unnamed {
    /// A history of no events. It takes no memory.
    pub fn new() -> Unnamed {
        let (seen, mut first, _second) = Seen::open(Start::alone(), 0, 0);
        Unnamed {
            head: Word::tracked(0, &mut first),
            seen,
        }
    }

    /// The history under the name that was picked for it.
    pub fn named<J: Naming>(self) -> Whole<J>
        requires { self ≡ J.book }
        ensures { result ≡ nothing_yet }
    {
        let Unnamed { head, seen } = self;
        Whole {
            head,
            front: Front {
                events: 0,
                is_kept: true,
                seen,
                of: PhantomData,
            },
        }
    }
}
