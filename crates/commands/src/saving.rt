ghost use Rattle.std.specs.Prelude.{◌≡◌, ◌<◌, length, map, slice_get, Some, IfOk};
ghost use Rattle.commands.specs.ScenarioLine.{scenario_comment};
ghost use Rattle.commands.specs.Opening.{comment_of, saved};

use itoa::Buffer;
use job_table::JobTable;
use scenarios::{Scenario, ScenarioList};
use std::alloc::Allocator;
use swf_text::{Memory, SwfText};

fn scenario_comment<A: Allocator + Copy>(
    alloc: A,
    name: &str,
    scenario: &Scenario,
) -> Result<Vec<u8, A>, Memory>
    ensures { IfOk result (λ comment. comment.items ≡ scenario_comment name.now scenario.now) }
{
    let mut comment = Vec::from_slice(alloc, b"; Scenario: ")?;
    let mut buffer = Buffer::new();
    comment.extend_from_slice(name.as_bytes())?;
    comment.push(b' ')?;
    comment.extend_from_slice(buffer.format(scenario.procs()).as_bytes())?;
    comment.push(b' ')?;
    comment.extend_from_slice(buffer.format(scenario.factor()).as_bytes())?;
    comment.push(b' ')?;
    comment.extend_from_slice(scenario.order().word())?;
    Ok(comment)
}

fn comment_at<A: Allocator + Copy>(
    alloc: A,
    scenarios: &ScenarioList<A>,
    place: usize,
) -> Result<Vec<u8, A>, Memory>
    requires { place < length scenarios.now.scenarios }
    ensures { IfOk result (λ comment. slice_get (map comment_of scenarios.now.scenarios) place ≡ Some comment.items) }
{
    match scenarios.at(place) {
        Some((name, _, scenario)) => scenario_comment(alloc, name, &scenario),
        None => unreachable!(),
    }
}

/// The log to be written: these comments, for each scenario in the order of the list the comment
/// `; Scenario: NAME PROCS FACTOR ORDER`, and the entries in the order of the table. Memory where a
/// growth is refused.
///
/// A log with a scenario that was opened, edited and saved so is the same text, byte for byte,
/// when it is opened and saved again.
pub fn save_text<A: Allocator + Copy>(
    alloc: A,
    comments: &[Vec<u8, A>],
    table: &JobTable<A>,
    scenarios: &ScenarioList<A>,
) -> Result<SwfText<A>, Memory>
    ensures { IfOk result (λ text. text ≡ saved (map (λ c. c.items) comments.now) table.now scenarios.now) }
{
    let mut lines = Vec::new(alloc);
    for comment in comments {
        lines.push(Vec::from_slice(alloc, comment.as_slice())?)?;
    }
    for place in 0..scenarios.len() {
        lines.push(comment_at(alloc, scenarios, place)?)?;
    }
    table.to_text(lines.as_slice())
}
