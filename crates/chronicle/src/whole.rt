ghost use Rattle.std.specs.Prelude.{◌≡◌, true};
ghost use Rattle.book_machine.specs.Noted.{noted_of};
ghost use Rattle.chronicle.specs.Events.{Called, Opened, Stopped, IsAccepted, IsLegalFrom, state_after};
ghost use Rattle.chronicle.specs.Fronts.{Adds};

use crate::event::Event;
use crate::front::Front;
use crate::law::{Add, Law};
use crate::naming::Naming;
use book_machine::{Caller, Note};
use logbook::Word;
use std::alloc::Allocator;
use std::marker::Model;

/// The history as who may add to it knows it. It is to lie under the lock under which the calls are
/// made. Contracts see it as a front that is all of it; where it was found not to be, which is never
/// when it runs, it is not kept.
#[derive(Drop)]
pub struct Whole<J: Naming> {
    pub(crate) head: Word<Event, u64, Law>,
    pub(crate) front: Front<J>,
}

impl<J: Naming> Model for Whole<J> {
    ghost use Rattle.std.specs.Prelude.{◌≡◌};
    ghost use Rattle.chronicle.specs.Fronts.{Seen};
    ghost use Rattle.chronicle.specs.Rules.{head_of};

    ghost Value = { Seen };

    ghost view = { λ w. w.front };

    ghost invariant = { λ w. w.head ≡ head_of J.book };
}

impl<J: Naming> Whole<J> {
    /// All of it, as a front.
    pub fn front(&self) -> Front<J>
        ensures all { result ≡ self.now }
        ensures legal { IsLegalFrom J.opening self.now.events }
    {
        let _events = self.front.count();
        self.front.again()
    }

    /// Whether it is kept. Its calls are a legal history.
    pub fn is_kept(&self) -> bool
        ensures kept { result ≡ self.now.kept }
        ensures legal { IsLegalFrom J.opening self.now.events }
    {
        let _events = self.front.count();
        self.front.is_kept()
    }

    /// Adds a call that was noted.
    #[tactic(auto, using(crate::proofs::Legal::legal_called))]
    pub fn call<A: Allocator + Copy>(&mut self, note: &Note<A>)
        requires { self.old.kept ≡ true → IsAccepted (state_after J.opening self.old.events) (noted_of note.now) }
        ensures { Adds self.old (Called (noted_of note.now)) self.new }
    {
        let _events = self.front.count();
        self.front.add::<Note<A>, Add>(&self.head, note);
    }

    /// Adds that this caller was opened.
    #[tactic(auto, using(crate::proofs::Legal::legal_opened))]
    pub fn open(&mut self, who: Caller)
        ensures { Adds self.old (Opened who) self.new }
    {
        let _events = self.front.count();
        self.front.add::<Caller, Add>(&self.head, &who);
    }

    /// Adds that the desk was stopped.
    #[tactic(auto, using(crate::proofs::Legal::legal_stopped))]
    pub fn stop(&mut self)
        ensures { Adds self.old Stopped self.new }
    {
        let _events = self.front.count();
        self.front.add::<(), Add>(&self.head, &());
    }
}
