// What the sessions' calls change in the state of a book. The table gets an accepted edit in place where
// nobody else holds it, and otherwise on a copy, which shares all chunks of entries except those that the
// edit touches.
ghost use Rattle.std.specs.Prelude.{◌≡◌, ◌<◌, Some, IfOk, OnOk, OnErr, vec_len, vec_capacity};
ghost use Rattle.std.specs.Arc.{arc_value};
ghost use Rattle.job_table.specs.Accepted.{IsEdit};
ghost use Rattle.job_table.specs.Edit.{applied, edit_of};
ghost use Rattle.book_machine.specs.Call.{AddScenario, DropScenario, Edit as Edits, Retry, View};
ghost use Rattle.book_machine.specs.Noted.{noted_edit_of};
ghost use Rattle.version_book.specs.Answers.{add_answer, drop_answer, edit_answer, retry_answer, view_answer};
ghost use Rattle.version_book.specs.Steps.{Does};
ghost use Rattle.version_book.specs.Tasks.{IsShownFor};

use crate::faults::ViewFault;
use crate::lookups::{hide, shown_of, unmark};
use crate::refusal::{AddRefusal, DropRefusal, EditRefusal, RetryRefusal, ViewRefusal};
use crate::shown::Shown;
use crate::state::State;
use book_machine::NotedEdit;
use job_table::{Edit, JobTable};
use scenarios::{NoSuchScenario, Scenario, ScenarioId};
use std::alloc::Allocator;
use std::sync::Arc;
use swf_text::Memory;
use tasks::Published;
use tasks::tickets::close_all;

fn after_edit<A: Allocator + Copy>(
    alloc: A,
    table: &JobTable<A>,
    edit: &Edit<A>,
) -> Result<Arc<JobTable<A>, A>, Memory>
    ensures edit { OnOk result (IsEdit (edit_of edit.now)) }
    ensures table { IfOk result (λ new. arc_value new ≡ applied (edit_of edit.now) table.now) }
{
    let mut new = table.copy()?;
    new.apply(edit).map_err(|_| Memory)?;
    Ok(Arc::new(alloc, new)?)
}

fn put_edit<A: Allocator + Copy>(
    alloc: A,
    table: &mut Arc<JobTable<A>, A>,
    edit: &Edit<A>,
) -> Result<(), Memory>
    ensures edit { OnOk result (IsEdit (edit_of edit.now)) }
    ensures table { OnOk result (arc_value table.new ≡ applied (edit_of edit.now) (arc_value table.old)) }
    ensures kept { OnErr result (arc_value table.new ≡ arc_value table.old) }
{
    if let Some(own) = Arc::get_mut(table) {
        return own.apply(edit).map_err(|_| Memory);
    }
    *table = after_edit(alloc, table, edit)?;
    Ok(())
}

fn kept_edit<A: Allocator + Copy>(
    alloc: A,
    edits: &mut Vec<NotedEdit<A>, A>,
    edit: &Edit<A>,
) -> Result<NotedEdit<A>, Memory>
    ensures items { edits.new.items ≡ edits.old.items }
    ensures capacity { OnOk result (vec_len edits.new < vec_capacity edits.new) }
    ensures kept { IfOk result (λ kept. noted_edit_of kept ≡ edit_of edit.now) }
{
    edits.reserve(1)?;
    NotedEdit::new(alloc, edit)
}

impl<A: Allocator + Copy> State<A> {
    pub(crate) fn edit(&mut self, edit: &Edit<A>) -> Result<u64, EditRefusal>
        ensures { Does self.old self.new (Edits (edit_of edit.now)) (edit_answer result) }
    {
        if let Err(fault) = self.current.check(edit) {
            return Err(EditRefusal::Fault(fault));
        }
        let kept = kept_edit(self.alloc, &mut self.edits, edit)?;
        put_edit(self.alloc, &mut self.current, edit)?;
        self.edits.push_reserved(kept);
        Ok(self.version())
    }

    pub(crate) fn add(&mut self, name: &str, scenario: Scenario) -> Result<ScenarioId, AddRefusal>
        ensures { Does self.old self.new (AddScenario name.now scenario) (add_answer result) }
    {
        let id = self.scenarios.add(name, scenario)?;
        self.shown.push_reserved(Shown::new(id, scenario));
        Ok(id)
    }

    pub(crate) fn drop_named(&mut self, name: &str) -> Result<ScenarioId, DropRefusal>
        ensures { Does self.old self.new (DropScenario name.now) (drop_answer result) }
    {
        match self.scenarios.drop_named(name) {
            Ok(id) => {
                hide(&mut self.shown, id);
                close_all(&mut self.tickets, id);
                Ok(id)
            }
            Err(NoSuchScenario) => Err(DropRefusal::Fault(NoSuchScenario)),
        }
    }

    pub(crate) fn retry(&mut self, id: ScenarioId) -> Result<(), RetryRefusal>
        ensures { Does self.old self.new (Retry id) (retry_answer result) }
    {
        if shown_of(self.shown.as_slice(), id).is_none() {
            return Err(RetryRefusal::Fault(NoSuchScenario));
        }
        unmark(&mut self.shown, id);
        Ok(())
    }

    pub(crate) fn view(&self, id: ScenarioId, seen: u64) -> Result<Published<A>, ViewRefusal>
        ensures answer { Does self.now self.now (View id seen) (view_answer result) }
        ensures shown { IfOk result (IsShownFor self.now id seen) }
    {
        let Some(shown) = shown_of(self.shown.as_slice(), id) else {
            return Err(ViewRefusal::Fault(ViewFault::NoSuchScenario));
        };
        let Some(published) = shown.published() else {
            return Err(ViewRefusal::Fault(ViewFault::NotYet));
        };
        let found = published.version();
        if found < seen {
            return Err(ViewRefusal::Fault(ViewFault::Behind { seen, found }));
        }
        Ok(published.copy()?)
    }
}
