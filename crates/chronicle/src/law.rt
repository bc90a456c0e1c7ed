// The rule of the log, by which its word is its length; callers trade nothing. A step adds an event: the one
// that a note tells, that a caller was opened, or that the desk was stopped.
ghost use Rattle.std.specs.Prelude.{[], None};
ghost use base.Fml.{ftrue};
ghost use Rattle.chronicle.specs.Rules.{IsCounted, Adds};
ghost use Rattle.book_machine.specs.Noted.{noted_of};
ghost use Rattle.chronicle.specs.Events.{Called, Opened, Stopped};

use crate::event::Event;
use book_machine::{Caller, Note};
use logbook::{Gain, Plain, Play, Rule};
use std::alloc::Allocator;

pub struct Law;

impl Rule<Event, u64> for Law {
    ghost holds = { λ cells log. IsCounted cells log };

    ghost first = { [] };

    ghost hinted = { λ n log. Unit {0} };

    ghost shows = { λ log. [] };

    ghost keeps = { λ names log. ftrue };

    ghost moves = { λ ask before after answer. Unit {0} };
}

pub struct Nothing;

impl Gain<Event, u64> for Nothing {
    ghost after = { λ names about answer. ftrue };
}

pub struct Add;

impl Play<Event, u64> for Add {
    ghost then = { Adds };
}

impl<A: Allocator + Copy> Plain<Note<A>, Event, u64> for Add {
    ghost ask = { λ note. Called (noted_of note) };

    ghost state = { λ note. None };
}

impl Plain<Caller, Event, u64> for Add {
    ghost ask = { λ who. Opened who };

    ghost state = { λ who. None };
}

impl Plain<(), Event, u64> for Add {
    ghost ask = { λ nothing. Stopped };

    ghost state = { λ nothing. None };
}
