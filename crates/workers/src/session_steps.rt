// What a session does while it holds the lock: one call of the book, which its list then gains.
ghost use Rattle.std.specs.Prelude.{◌≡◌, ◌<◌, map, IfOk, vec_len, vec_capacity};
ghost use Rattle.job_table.specs.Edit.{edit_of};
ghost use Rattle.book_machine.specs.declared.caller.Caller.TheVariants as caller;
ghost use Rattle.book_machine.specs.Call.{AddScenario, DropScenario, Edit as Edits, Retry, View};
ghost use Rattle.book_machine.specs.Noted.{call_of};
ghost use Rattle.version_book.specs.Answers.{add_answer, drop_answer, edit_answer, retry_answer, view_answer};
ghost use Rattle.version_book.specs.Sound.{IsBook};
ghost use Rattle.version_book.specs.Steps.{Answers};
ghost use Rattle.version_book.specs.Tasks.{IsShownFor};
ghost use Rattle.workers.specs.History.{Calls, Views};
ghost use Rattle.workers.specs.Lists.{Gains, listed_of};

use crate::hearing::{followed, notes_in};
use crate::listed_call::{ListedCall, keep};
use crate::shared::Shared;
use book_machine::Call;
use chronicle::{Front, Naming};
use job_table::Edit;
use scenarios::{Scenario, ScenarioId};
use std::alloc::Allocator;
use version_book::{AddRefusal, DropRefusal, EditRefusal, Published, RetryRefusal, ViewRefusal};

impl<A: Allocator + Copy, J: Naming> Shared<A, J> {
    pub(crate) fn edit_for(
        &mut self,
        session: u64,
        list: &mut Vec<ListedCall<A>, A>,
        front: &mut Front<J>,
        call: Call<A>,
        edit: &Edit<A>,
    ) -> Result<u64, EditRefusal>
        requires capacity { vec_len list.old < vec_capacity list.old }
        requires call { call_of call ≡ Edits (edit_of edit.now) }
        ensures book { Answers self.old.book self.new.book (caller.Session session) (Edits (edit_of edit.now)) (edit_answer result) }
        ensures list { Gains (map listed_of list.old.items) (map listed_of list.new.items) (Edits (edit_of edit.now)) (edit_answer result) }
        ensures history { Calls J.opening front.old (caller.Session session) (Edits (edit_of edit.now)) (edit_answer result) front.new }
    {
        let notes = notes_in(&self.book);
        front.follow(&self.whole);
        let outcome = self.book.edit(session, edit);
        let reply = followed(&mut self.whole, front, &self.book, notes);
        keep(list, call, reply);
        outcome
    }

    pub(crate) fn add_for(
        &mut self,
        session: u64,
        list: &mut Vec<ListedCall<A>, A>,
        front: &mut Front<J>,
        call: Call<A>,
        name: &str,
        scenario: Scenario,
    ) -> Result<ScenarioId, AddRefusal>
        requires capacity { vec_len list.old < vec_capacity list.old }
        requires call { call_of call ≡ AddScenario name.now scenario }
        ensures book { Answers self.old.book self.new.book (caller.Session session) (AddScenario name.now scenario) (add_answer result) }
        ensures list { Gains (map listed_of list.old.items) (map listed_of list.new.items) (AddScenario name.now scenario) (add_answer result) }
        ensures history { Calls J.opening front.old (caller.Session session) (AddScenario name.now scenario) (add_answer result) front.new }
    {
        let notes = notes_in(&self.book);
        front.follow(&self.whole);
        let outcome = self.book.add_scenario(session, name, scenario);
        let reply = followed(&mut self.whole, front, &self.book, notes);
        keep(list, call, reply);
        outcome
    }

    pub(crate) fn drop_for(
        &mut self,
        session: u64,
        list: &mut Vec<ListedCall<A>, A>,
        front: &mut Front<J>,
        call: Call<A>,
        name: &str,
    ) -> Result<ScenarioId, DropRefusal>
        requires capacity { vec_len list.old < vec_capacity list.old }
        requires call { call_of call ≡ DropScenario name.now }
        ensures book { Answers self.old.book self.new.book (caller.Session session) (DropScenario name.now) (drop_answer result) }
        ensures list { Gains (map listed_of list.old.items) (map listed_of list.new.items) (DropScenario name.now) (drop_answer result) }
        ensures history { Calls J.opening front.old (caller.Session session) (DropScenario name.now) (drop_answer result) front.new }
    {
        let notes = notes_in(&self.book);
        front.follow(&self.whole);
        let outcome = self.book.drop_scenario(session, name);
        let reply = followed(&mut self.whole, front, &self.book, notes);
        keep(list, call, reply);
        outcome
    }

    pub(crate) fn retry_for(
        &mut self,
        session: u64,
        list: &mut Vec<ListedCall<A>, A>,
        front: &mut Front<J>,
        id: ScenarioId,
    ) -> Result<(), RetryRefusal>
        requires capacity { vec_len list.old < vec_capacity list.old }
        ensures book { Answers self.old.book self.new.book (caller.Session session) (Retry id) (retry_answer result) }
        ensures list { Gains (map listed_of list.old.items) (map listed_of list.new.items) (Retry id) (retry_answer result) }
        ensures history { Calls J.opening front.old (caller.Session session) (Retry id) (retry_answer result) front.new }
    {
        let notes = notes_in(&self.book);
        front.follow(&self.whole);
        let outcome = self.book.retry(session, id);
        let reply = followed(&mut self.whole, front, &self.book, notes);
        keep(list, Call::Retry { id }, reply);
        outcome
    }

    pub(crate) fn view_for(
        &mut self,
        session: u64,
        list: &mut Vec<ListedCall<A>, A>,
        front: &mut Front<J>,
        id: ScenarioId,
        seen: u64,
    ) -> Result<Published<A>, ViewRefusal>
        requires capacity { vec_len list.old < vec_capacity list.old }
        ensures book { Answers self.old.book self.new.book (caller.Session session) (View id seen) (view_answer result) }
        ensures list { Gains (map listed_of list.old.items) (map listed_of list.new.items) (View id seen) (view_answer result) }
        ensures history { Views J.opening front.old (caller.Session session) id seen result front.new }
        ensures shown { IfOk result (IsShownFor self.old.book.state id seen) }
        ensures sound { IsBook self.old.book }
    {
        let notes = notes_in(&self.book);
        front.follow(&self.whole);
        let outcome = self.book.view(session, id, seen);
        let reply = followed(&mut self.whole, front, &self.book, notes);
        keep(list, Call::View { id, seen }, reply);
        outcome
    }
}
