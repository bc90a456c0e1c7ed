ghost use Rattle.easybook.specs.DeskRules.{IsAnsweredAtDesk};

use crate::works::Works;
use chronicle::Naming;
use std::alloc::Allocator;
use std::marker::Model;
use workers::Session;

/// The text that the script of a session's number produced, worked by the session from when it was new
/// to the script's end.
#[derive(Drop)]
pub(crate) struct Answered<A: Allocator + Copy, J: Naming + Works> {
    pub(crate) session: Session<A, J>,
    pub(crate) text: Vec<u8, A>,
}

impl<A: Allocator + Copy, J: Naming + Works> Model for Answered<A, J> {
    ghost use Rattle.easybook.specs.DeskRules.{AnsweredView, IsAnsweredAtDesk};

    ghost Value = { AnsweredView };

    ghost view = { λ a. record { session = a.session; text = a.text.items } };

    ghost invariant = { λ a. IsAnsweredAtDesk A J.opening J.comments J.scripts (record { session = a.session; text = a.text.items }) };
}

impl<A: Allocator + Copy, J: Naming + Works> Answered<A, J> {
    pub(crate) fn into_both(self) -> (Session<A, J>, Vec<u8, A>)
        ensures { IsAnsweredAtDesk A J.opening J.comments J.scripts (record { session = result.0; text = result.1.items }) }
    {
        let Answered { session, text } = self;
        (session, text)
    }
}
