ghost use Rattle.job_table.specs.Edit.{edit_of};
ghost use Rattle.book_machine.specs.Call.{AddScenario, DropScenario, Edit as Edits, Retry};
ghost use Rattle.scripts.specs.Analysts.{CallBy, NamedBy, SettledBy, VersionBy};
ghost use Rattle.scripts.specs.Answers.{edit_says, scenario_says};
ghost use Rattle.scripts.specs.Answered.{answer_line};

use crate::answer::{Answer, Became};
use book_machine::SettleState;
use commands::ScenarioName;
use job_table::Edit;
use scenarios::{NoSuchScenario, Scenario};
use std::alloc::Allocator;
use version_book::Analyst;

pub(crate) fn edit<S: Analyst<A>, A: Allocator + Copy>(analyst: &mut S, edit: &Edit<A>) -> Answer
    ensures { CallBy S.rules analyst.old (Edits (edit_of edit.now)) edit_says (answer_line result) analyst.new }
{
    match analyst.edit(edit) {
        Ok(version) => Answer::Version(version),
        Err(refusal) => Answer::refused(&refusal),
    }
}

pub(crate) fn add<S: Analyst<A>, A: Allocator + Copy>(
    analyst: &mut S,
    name: ScenarioName,
    scenario: Scenario,
) -> Answer
    ensures { CallBy S.rules analyst.old (AddScenario name scenario) (scenario_says name) (answer_line result) analyst.new }
{
    let outcome = analyst.add_scenario(name.as_str(), scenario);
    Answer::of_scenario(name, Became::Added, outcome)
}

pub(crate) fn drop_named<S: Analyst<A>, A: Allocator + Copy>(
    analyst: &mut S,
    name: ScenarioName,
) -> Answer
    ensures { CallBy S.rules analyst.old (DropScenario name) (scenario_says name) (answer_line result) analyst.new }
{
    let outcome = analyst.drop_scenario(name.as_str());
    Answer::of_scenario(name, Became::Dropped, outcome)
}

pub(crate) fn retry<S: Analyst<A>, A: Allocator + Copy>(
    analyst: &mut S,
    name: ScenarioName,
) -> Answer
    ensures { NamedBy S.rules analyst.old name (λ id mid. CallBy S.rules mid (Retry id) (scenario_says name) (answer_line result) analyst.new) (answer_line result) analyst.new }
{
    let Some(id) = analyst.find(name.as_str()) else {
        return Answer::refused(&NoSuchScenario);
    };
    let outcome = analyst.retry(id);
    Answer::of_scenario(name, Became::Retried, outcome)
}

pub(crate) fn settle<S: Analyst<A>, A: Allocator + Copy>(analyst: &mut S) -> Answer
    ensures { SettledBy S.rules analyst.old (answer_line result) analyst.new }
{
    match analyst.settle() {
        SettleState::Done => Answer::Settled {
            seen: analyst.seen(),
        },
        SettleState::Failed(count) => Answer::Failed { count },
        SettleState::Waiting => Answer::Stopped,
    }
}

pub(crate) fn version<S: Analyst<A>, A: Allocator + Copy>(analyst: &mut S) -> Answer
    ensures { VersionBy S.rules analyst.old (answer_line result) analyst.new }
{
    Answer::Version(analyst.version())
}
