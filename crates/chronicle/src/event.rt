use std::marker::Model;

/// What happened at a desk, as contracts see it. The code makes none.
pub struct Event;

impl Model for Event {
    ghost use Rattle.chronicle.specs.Events.{Happened, Stopped};

    ghost Value = { Happened };

    ghost view = { λ e. Stopped };
}
