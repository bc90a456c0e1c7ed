ghost use Rattle.std.specs.Prelude.{◌≡◌};
ghost use Rattle.job_table.specs.Edit.{edit_of};
ghost use Rattle.book_machine.specs.Call.{AddScenario, DropScenario, Edit as Edits, Retry, View};
ghost use Rattle.version_book.specs.Answers.{add_answer, drop_answer, edit_answer, retry_answer, view_answer};
ghost use Rattle.version_book.specs.Rules.{Rules, read_of};

use crate::reading::Reading;
use crate::refusal::{AddRefusal, DropRefusal, EditRefusal, RetryRefusal, ViewRefusal};
use book_machine::SettleState;
use job_table::Edit;
use scenarios::{Scenario, ScenarioId};
use std::alloc::Allocator;
use swf_text::Memory;
use tasks::Published;

/// Edits a log and views its simulations, as a session of a book or of a desk does. The responses to the
/// commands of a script are built of these calls alone.
pub trait Analyst<A: Allocator + Copy> {
    /// The results that each call may have, and the state after it.
    ghost rules: { Rules Self };

    /// Edits the log, and returns the new version. The refusals are those of `Book::edit`.
    fn edit(&mut self, edit: &Edit<A>) -> Result<u64, EditRefusal>
        ensures { rules.does self.old (Edits (edit_of edit.now)) (edit_answer result) self.new };

    /// Adds a scenario, and returns its id. The refusals are those of `Book::add_scenario`.
    fn add_scenario(&mut self, name: &str, scenario: Scenario) -> Result<ScenarioId, AddRefusal>
        ensures { rules.does self.old (AddScenario name.now scenario) (add_answer result) self.new };

    /// Drops the scenario with this name, and returns its id. The refusals are those of
    /// `Book::drop_scenario`.
    fn drop_scenario(&mut self, name: &str) -> Result<ScenarioId, DropRefusal>
        ensures { rules.does self.old (DropScenario name.now) (drop_answer result) self.new };

    /// Has a scenario that was given up worked again. The refusals are those of `Book::retry`.
    fn retry(&mut self, id: ScenarioId) -> Result<(), RetryRefusal>
        ensures { rules.does self.old (Retry id) (retry_answer result) self.new };

    /// What is published for the scenario with this id, not older than the version that an edit or a view
    /// has returned. The refusals are those of `Book::view`.
    fn view(&mut self, id: ScenarioId) -> Result<Published<A>, ViewRefusal>
        ensures answer { rules.does self.old (View id (rules.seen self.old)) (view_answer result) self.new }
        ensures outcome { rules.sees self.old id result self.new };

    /// The id of the scenario with this name.
    fn find(&mut self, name: &str) -> Option<ScenarioId>
        ensures { rules.finds self.old name.now result self.new };

    /// The log's version.
    fn version(&mut self) -> u64
        ensures { rules.counts self.old result self.new };

    /// The log and the scenarios of one moment. Memory where a growth is refused.
    fn current(&mut self) -> Result<Reading<A>, Memory>
        ensures { rules.reads self.old (read_of result) self.new };

    /// How far the scenarios are, once no work is waited for.
    fn settle(&mut self) -> SettleState
        ensures { rules.settles self.old result self.new };

    /// The greatest version that an edit or a view returned; 0 at first.
    fn seen(&self) -> u64
        ensures { result ≡ rules.seen self.now };
}
