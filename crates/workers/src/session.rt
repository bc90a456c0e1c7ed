ghost use Rattle.std.specs.Prelude.{◌≡◌, ◌↔◌, ◌≤◌, IfOk, IsTrue, OnErr, map};
ghost use Rattle.job_table.specs.Edit.{edit_of};
ghost use Rattle.book_machine.specs.declared.caller.Caller.TheVariants as caller;
ghost use Rattle.book_machine.specs.Call.{AddScenario, DropScenario, Edit as Edits, Retry, View};
ghost use Rattle.chronicle.specs.Fronts.{Begins};
ghost use Rattle.version_book.specs.Answers.{add_answer, drop_answer, edit_answer, retry_answer, view_answer};
ghost use Rattle.workers.specs.Callers.{new_session, seen_after};
ghost use Rattle.workers.specs.History.{Calls, Views};
ghost use Rattle.workers.specs.Lists.{Gains, listed_of};
ghost use Rattle.workers.specs.Readings.{IsShownOnce};

use crate::desk::Desk;
use crate::listed_call::{ListedCall, reserve_call};
use book_machine::{Call, NotedEdit, NotedName};
use chronicle::{Front, Naming, Whole};
use job_table::Edit;
use scenarios::{Scenario, ScenarioId};
use std::alloc::Allocator;
use std::marker::Model;
use std::sync::Wait;
use swf_text::Memory;
use version_book::{AddRefusal, DropRefusal, EditRefusal, Published, RetryRefusal, ViewRefusal};

/// An analyst's session at a desk: its number, the list of its own calls with their replies, the greatest
/// version that an edit or a view returned, and the desk's history up to its last response.
///
/// Each call takes the desk that opened the session, and holds its lock for one call of the book. It
/// stands in the history behind all earlier responses to the session.
/// JournalFull and Memory are not listed; Memory comes first where the list cannot grow, or the call
/// cannot be copied for it.
#[derive(Drop)]
pub struct Session<A: Allocator + Copy, J: Naming> {
    alloc: A,
    number: u64,
    list: Vec<ListedCall<A>, A>,
    pub(crate) seen: u64,
    pub(crate) front: Front<J>,
}

impl<A: Allocator + Copy, J: Naming> Model for Session<A, J> {
    ghost use Rattle.std.specs.Prelude.{map};
    ghost use Rattle.workers.specs.Callers.{SessionView};
    ghost use Rattle.workers.specs.Lists.{listed_of};

    ghost Value = { SessionView };

    ghost view = { λ s. record { number = s.number; list = map listed_of s.list.items; seen = s.seen; front = s.front } };
}

impl<A: Allocator + Copy, J: Naming> Session<A, J> {
    pub(crate) fn new(alloc: A, number: u64, front: Front<J>) -> Session<A, J>
        ensures { result ≡ new_session number front }
    {
        Session {
            alloc,
            number,
            list: Vec::new(alloc),
            seen: 0,
            front,
        }
    }

    /// Its number.
    pub fn number(&self) -> u64
        ensures { result ≡ self.now.number }
    {
        self.number
    }

    /// Its own calls and their replies, in their order.
    pub fn list(&self) -> &[ListedCall<A>]
        ensures { map listed_of result.now ≡ self.now.list }
    {
        self.list.as_slice()
    }

    /// The greatest version that an edit or a view returned; 0 at first.
    pub fn seen(&self) -> u64
        ensures { result ≡ self.now.seen }
    {
        self.seen
    }

    pub(crate) fn begins(&self, whole: &Whole<J>) -> bool
        ensures { IsTrue result ↔ Begins self.now.front whole.now }
    {
        self.front.begins(whole)
    }

    /// Edits the log, as `Book::edit` does, and has then seen the new version. All that wait are woken.
    pub fn edit<R: Wait>(
        &mut self,
        rt: &R,
        desk: &Desk<A, J>,
        edit: &Edit<A>,
    ) -> Result<u64, EditRefusal>
        ensures list { Gains self.old.list self.new.list (Edits (edit_of edit.now)) (edit_answer result) }
        ensures history { Calls J.opening self.old.front (caller.Session self.old.number) (Edits (edit_of edit.now)) (edit_answer result) self.new.front }
        ensures number { self.new.number ≡ self.old.number }
        ensures seen { self.new.seen ≡ seen_after self.old.seen result }
    {
        let call = Call::Edit(NotedEdit::new(self.alloc, edit)?);
        reserve_call(&mut self.list)?;
        let outcome = desk
            .shared
            .lock(rt)
            .edit_for(self.number, &mut self.list, &mut self.front, call, edit);
        if let Ok(version) = outcome {
            self.seen = self.seen.max(version);
            desk.changed.notify_all();
        }
        outcome
    }

    /// Adds a scenario, as `Book::add_scenario` does. All that wait are woken.
    pub fn add_scenario<R: Wait>(
        &mut self,
        rt: &R,
        desk: &Desk<A, J>,
        name: &str,
        scenario: Scenario,
    ) -> Result<ScenarioId, AddRefusal>
        ensures list { Gains self.old.list self.new.list (AddScenario name.now scenario) (add_answer result) }
        ensures history { Calls J.opening self.old.front (caller.Session self.old.number) (AddScenario name.now scenario) (add_answer result) self.new.front }
        ensures number { self.new.number ≡ self.old.number }
        ensures seen { self.new.seen ≡ self.old.seen }
    {
        let call = Call::AddScenario {
            name: NotedName::new(self.alloc, name)?,
            scenario,
        };
        reserve_call(&mut self.list)?;
        let outcome = desk.shared.lock(rt).add_for(
            self.number,
            &mut self.list,
            &mut self.front,
            call,
            name,
            scenario,
        );
        if outcome.is_ok() {
            desk.changed.notify_all();
        }
        outcome
    }

    /// Drops the scenario with this name, as `Book::drop_scenario` does. All that wait are woken.
    pub fn drop_scenario<R: Wait>(
        &mut self,
        rt: &R,
        desk: &Desk<A, J>,
        name: &str,
    ) -> Result<ScenarioId, DropRefusal>
        ensures list { Gains self.old.list self.new.list (DropScenario name.now) (drop_answer result) }
        ensures history { Calls J.opening self.old.front (caller.Session self.old.number) (DropScenario name.now) (drop_answer result) self.new.front }
        ensures number { self.new.number ≡ self.old.number }
        ensures seen { self.new.seen ≡ self.old.seen }
    {
        let call = Call::DropScenario {
            name: NotedName::new(self.alloc, name)?,
        };
        reserve_call(&mut self.list)?;
        let outcome = desk
            .shared
            .lock(rt)
            .drop_for(self.number, &mut self.list, &mut self.front, call, name);
        if outcome.is_ok() {
            desk.changed.notify_all();
        }
        outcome
    }

    /// Has a scenario that was given up tried again, as `Book::retry` does. All that wait are woken.
    pub fn retry<R: Wait>(
        &mut self,
        rt: &R,
        desk: &Desk<A, J>,
        id: ScenarioId,
    ) -> Result<(), RetryRefusal>
        ensures list { Gains self.old.list self.new.list (Retry id) (retry_answer result) }
        ensures history { Calls J.opening self.old.front (caller.Session self.old.number) (Retry id) (retry_answer result) self.new.front }
        ensures number { self.new.number ≡ self.old.number }
        ensures seen { self.new.seen ≡ self.old.seen }
    {
        reserve_call(&mut self.list)?;
        let outcome = desk
            .shared
            .lock(rt)
            .retry_for(self.number, &mut self.list, &mut self.front, id);
        if outcome.is_ok() {
            desk.changed.notify_all();
        }
        outcome
    }

    /// What is published for a scenario, as `Book::view` returns it: its version is not below the one
    /// that this session has seen, and is from then on the one that it has seen.
    pub fn view<R: Wait>(
        &mut self,
        rt: &R,
        desk: &Desk<A, J>,
        id: ScenarioId,
    ) -> Result<Published<A>, ViewRefusal>
        ensures list { Gains self.old.list self.new.list (View id self.old.seen) (view_answer result) }
        ensures history { Views J.opening self.old.front (caller.Session self.old.number) id self.old.seen result self.new.front }
        ensures number { self.new.number ≡ self.old.number }
        ensures seen { IfOk result (λ p. (self.old.seen ≤ p.version) × (self.new.seen ≡ p.version)) }
        ensures err { OnErr result (self.new.seen ≡ self.old.seen) }
        ensures shown { IfOk result (IsShownOnce id self.old.seen) }
    {
        reserve_call(&mut self.list)?;
        let outcome = desk.shared.lock(rt).view_for(
            self.number,
            &mut self.list,
            &mut self.front,
            id,
            self.seen,
        );
        if let Ok(published) = &outcome {
            self.seen = published.version();
        }
        outcome
    }
}
