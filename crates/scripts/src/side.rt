// Scenarios side by side, one view after another.
ghost use Rattle.std.specs.Prelude.{◌≡◌, ◌+◌, ◌<◌, ◌≤◌, ◌++◌, map, IfErr, IfOk, vec_len, vec_capacity};
ghost use Rattle.report.specs.Side.{side_line};
ghost use Rattle.scripts.specs.Analysts.{AreBeside, NotBeside, SideBy, StandsSo, beside_of, lines_of};
ghost use Rattle.scripts.specs.Replies.{reply_text};

use crate::reply::Reply;
use crate::views::Beside;
use report::{SideLine, side_text};
use scenarios::{ScenarioId, ScenarioList};
use std::alloc::Allocator;
use swf_text::Memory;
use version_book::{Analyst, Published, Refusal, ViewFault, ViewRefusal};

fn beside_of<A: Allocator + Copy>(
    outcome: Result<Published<A>, ViewRefusal>,
) -> Result<Option<Beside<A>>, ViewRefusal>
    ensures { result ≡ beside_of outcome }
{
    match outcome {
        Ok(published) => Ok(Some(Beside::Shown(published))),
        Err(Refusal::Fault(ViewFault::NotYet)) => Ok(Some(Beside::NotYet)),
        Err(Refusal::Fault(ViewFault::Behind { .. })) => Ok(Some(Beside::Behind)),
        Err(Refusal::Fault(ViewFault::NoSuchScenario)) => Ok(None),
        Err(Refusal::JournalFull) => Err(Refusal::JournalFull),
        Err(Refusal::Memory) => Err(Refusal::Memory),
    }
}

fn add_line<'l, A: Allocator + Copy>(
    lines: &mut Vec<SideLine<'l, A>, A>,
    name: &'l str,
    found: Option<Beside<A>>,
)
    requires capacity { vec_len lines.old < vec_capacity lines.old }
    ensures lines { map side_line lines.new.items ≡ map side_line lines.old.items ++ lines_of name.now found }
    ensures count { vec_len lines.new ≤ vec_len lines.old + 1 }
    ensures capacity { vec_capacity lines.new ≡ vec_capacity lines.old }
{
    if let Some(shown) = found {
        lines.push_reserved(shown.line(name));
    }
}

fn beside<S: Analyst<A>, A: Allocator + Copy>(
    analyst: &mut S,
    id: ScenarioId,
) -> Result<Option<Beside<A>>, ViewRefusal>
    ensures { StandsSo S.rules A analyst.old id result analyst.new }
{
    beside_of(analyst.view(id))
}

fn side_lines<'l, S: Analyst<A>, A: Allocator + Copy>(
    analyst: &mut S,
    alloc: A,
    list: &'l ScenarioList<A>,
) -> Result<Vec<SideLine<'l, A>, A>, ViewRefusal>
    ensures lines { IfOk result (λ lines. AreBeside S.rules A analyst.old list.now.scenarios (map side_line lines.items) analyst.new) }
    ensures refused { IfErr result (λ why. NotBeside S.rules A analyst.old list.now.scenarios why analyst.new) }
{
    let Ok(mut lines) = Vec::with_capacity(alloc, list.len()) else {
        return Err(Refusal::Memory);
    };
    for place in 0..list.len() {
        let Some(listed) = list.at(place) else {
            unreachable!()
        };
        let found = beside(analyst, listed.1)?;
        add_line(&mut lines, listed.0, found);
    }
    Ok(lines)
}

pub(crate) fn side<S: Analyst<A>, A: Allocator + Copy>(analyst: &mut S, alloc: A) -> Reply<A>
    ensures { SideBy S.rules A analyst.old (reply_text result) analyst.new }
{
    let Ok(reading) = analyst.current() else {
        return Reply::refused(&Memory);
    };
    match side_lines(analyst, alloc, &reading.scenarios) {
        Ok(lines) => match side_text(alloc, lines.as_slice()) {
            Ok(text) => Reply::Report(text),
            Err(_) => Reply::refused(&Memory),
        },
        Err(why) => Reply::refused(&why),
    }
}
