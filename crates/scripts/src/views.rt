ghost use Rattle.std.specs.Prelude.{◌≡◌};
ghost use Rattle.report.specs.Side.{side_line};
ghost use Rattle.scripts.specs.Analysts.{NamedBy, ViewBy};
ghost use Rattle.scripts.specs.Looks.{beside_line, unseen_line};
ghost use Rattle.scripts.specs.Replies.{reply_text};
ghost use Rattle.scripts.specs.Answered.{answer_line};

use crate::answer::Answer;
use crate::reply::Reply;
use crate::view_report::Report;
use commands::ScenarioName;
use report::SideLine;
use scenarios::NoSuchScenario;
use std::alloc::Allocator;
use swf_text::Memory;
use version_book::{Analyst, Published, Refusal, ViewFault, ViewRefusal};

/// What is shown of a scenario beside others.
#[derive(Drop)]
pub(crate) enum Beside<A: Allocator + Copy> {
    /// This is published.
    Shown(Published<A>),
    /// Nothing is published.
    NotYet,
    /// What is published is older than what the session has seen.
    Behind,
}

impl<A: Allocator + Copy> Beside<A> {
    /// Its line, under the scenario's name.
    pub(crate) fn line(self, name: &str) -> SideLine<'_, A>
        ensures { side_line result ≡ beside_line name.now self }
    {
        match self {
            Beside::Shown(published) => SideLine::Shown {
                name,
                version: published.version(),
                run: published.into_run(),
            },
            Beside::NotYet => SideLine::NotYet { name },
            Beside::Behind => SideLine::Behind { name },
        }
    }
}

fn unseen(refusal: ViewRefusal) -> Answer
    ensures { answer_line result ≡ unseen_line refusal }
{
    match refusal {
        Refusal::Fault(ViewFault::Behind { seen, found }) => Answer::Behind { seen, found },
        refusal => Answer::refused(&refusal),
    }
}

pub(crate) fn view<S: Analyst<A>, A: Allocator + Copy>(
    analyst: &mut S,
    alloc: A,
    name: &ScenarioName,
    report: Report,
) -> Reply<A>
    ensures { NamedBy S.rules analyst.old name.now (λ id mid. ViewBy S.rules mid id name.now report (reply_text result) analyst.new) (reply_text result) analyst.new }
{
    let Some(id) = analyst.find(name.as_str()) else {
        return Reply::refused(&NoSuchScenario);
    };
    match analyst.view(id) {
        Ok(published) => {
            let version = published.version();
            match report.text(alloc, name.as_str(), version, published.run()) {
                Ok(text) => Reply::Report(text),
                Err(_) => Reply::refused(&Memory),
            }
        }
        Err(refusal) => Reply::Line(unseen(refusal)),
    }
}
