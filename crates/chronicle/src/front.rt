ghost use Rattle.std.specs.Prelude.{◌≡◌, true, ◌↔◌, ◌++◌, ◌∷◌, [], length, IsTrue, IfSome};
ghost use mathlib.Core.List.{IsPrefix};
ghost use Rattle.chronicle.specs.Events.{IsLegalFrom};
ghost use Rattle.chronicle.specs.Fronts.{Adds, Begins, Follows};
ghost use Rattle.chronicle.specs.Rules.{head_of};

use crate::event::Event;
use crate::law::{Add, Law, Nothing};
use crate::naming::Naming;
use crate::whole::Whole;
use logbook::{Offer, Plain, Seen, Word};
use std::marker::{Model, PhantomData};

/// A beginning of the history that was seen. Contracts see it as its events, and whether it is kept:
/// a front that was found to begin no history is not, and none that runs is found so, which no
/// contract can say.
#[derive(Drop)]
pub struct Front<J: Naming> {
    pub(crate) events: u64,
    pub(crate) is_kept: bool,
    pub(crate) seen: Seen<Event, u64, Law>,
    pub(crate) of: PhantomData<J>,
}

impl<J: Naming> Model for Front<J> {
    ghost use Rattle.std.specs.Prelude.{◌≡◌, length};
    ghost use Rattle.chronicle.specs.Events.{IsLegalFrom};
    ghost use Rattle.chronicle.specs.Fronts.{Seen};

    ghost Value = { Seen };

    ghost view = { λ f. record { events = f.seen.log; kept = f.is_kept } };

    ghost invariant = { λ f. (f.events ≡ length f.seen.log) × (f.seen.book ≡ J.book) × IsLegalFrom J.opening f.seen.log };
}

impl<J: Naming> Front<J> {
    /// How many events it has. Its calls are a legal history.
    pub fn count(&self) -> u64
        ensures count { result ≡ length self.now.events }
        ensures legal { IsLegalFrom J.opening self.now.events }
    {
        let Front { events, .. } = self;
        *events
    }

    /// Whether it is kept.
    pub fn is_kept(&self) -> bool
        ensures { result ≡ self.now.kept }
    {
        self.is_kept
    }

    /// The same front once more.
    pub fn again(&self) -> Front<J>
        ensures { result ≡ self.now }
    {
        Front {
            events: self.events,
            is_kept: self.is_kept,
            seen: self.seen.again(),
            of: PhantomData,
        }
    }

    fn is_shorter(&self, other: &Front<J>) -> bool
        ensures { IsTrue result ↔ IsPrefix self.now.events other.now.events }
    {
        let mut both = self.seen.again();
        both.learn(&other.seen);
        self.events <= other.events
    }

    /// Whether it is kept and begins the history, which is kept too.
    pub fn begins(&self, whole: &Whole<J>) -> bool
        ensures { IsTrue result ↔ Begins self.now whole.now }
    {
        self.is_kept && whole.front.is_kept && self.is_shorter(&whole.front)
    }

    /// Becomes all of the history, which it begins; where it doesn't, it is not kept.
    pub fn follow(&mut self, whole: &Whole<J>)
        ensures { Follows self.old whole.now self.new }
    {
        if self.begins(whole) {
            *self = whole.front();
        } else {
            self.is_kept = false;
        }
    }

    // Adds to all of the history; a front that is not all of it is not kept.
    pub(crate) fn add<X, M: Plain<X, Event, u64>>(
        &mut self,
        head: &Word<Event, u64, Law>,
        about: &X,
    )
        requires head { head.now ≡ head_of J.book }
        requires legal { self.old.kept ≡ true → IsLegalFrom J.opening (self.old.events ++ M.ask about.now ∷ []) }
        ensures { Adds self.old (M.ask about.now) self.new }
    {
        if !self.is_kept {
            return;
        }
        match self.added::<X, M>(head, about) {
            Some(front) => *self = front,
            None => self.is_kept = false,
        }
    }

    fn added<X, M: Plain<X, Event, u64>>(
        &self,
        head: &Word<Event, u64, Law>,
        about: &X,
    ) -> Option<Front<J>>
        requires head { head.now ≡ head_of J.book }
        requires legal { IsLegalFrom J.opening (self.now.events ++ M.ask about.now ∷ []) }
        ensures { IfSome result (λ f. f ≡ record { events = self.now.events ++ M.ask about.now ∷ []; kept = true }) }
    {
        let events = self.events;
        if events == u64::MAX {
            return None;
        }
        let mut seen = self.seen.again();
        let mut offer: Offer<Event, u64, Law, Nothing> = seen.plain::<Nothing, X, M>(about);
        let mut pen = seen.no_pen();
        let found = head.compare_exchange::<Add, Nothing>(
            events,
            events + 1,
            &mut seen,
            &mut offer,
            &mut pen,
        );
        if found != events {
            return None;
        }
        Some(Front {
            events: events + 1,
            is_kept: true,
            seen,
            of: PhantomData,
        })
    }
}
