ghost use Rattle.std.specs.Prelude.{◌≡◌, map, Some, IfOk};
ghost use Rattle.std.specs.Arc.{arc_value};
ghost use Rattle.std.specs.Option.{option_map};
ghost use Rattle.swf_text.specs.Writing.{text_bytes};
ghost use Rattle.scenarios.specs.ScenarioList.{named};
ghost use Rattle.commands.specs.Opening.{saved};
ghost use Rattle.version_book.specs.Reading.{moment_of};
ghost use Rattle.scripts.specs.Analysts.{IsLogOf, LogBy, NamedBy, SavedBy};
ghost use Rattle.scripts.specs.Replies.{reply_text};

use crate::reply::Reply;
use commands::{ScenarioName, save_text};
use report::log_text;
use scenarios::{NoSuchScenario, Scenario, ScenarioList};
use std::alloc::Allocator;
use swf_text::{Memory, SwfText, write_swf};
use version_book::{Analyst, Reading};

fn scenario_of<A: Allocator + Copy>(list: &ScenarioList<A>, name: &str) -> Option<Scenario>
    ensures { result ≡ option_map (λ s. s.scenario) (named name.now list.now.scenarios) }
{
    for place in 0..list.len() {
        let Some(listed) = list.at(place) else {
            unreachable!()
        };
        if name == listed.0 {
            return Some(listed.2);
        }
    }
    None
}

/// The bytes of a log as it is written. Memory where a growth is refused.
pub fn bytes_of<A: Allocator + Copy>(alloc: A, text: &SwfText<A>) -> Result<Vec<u8, A>, Memory>
    ensures { IfOk result (λ bytes. bytes.items ≡ text_bytes text.now) }
{
    let mut bytes = Vec::new(alloc);
    write_swf(text, &mut bytes).map_err(|_| Memory)?;
    Ok(bytes)
}

fn log_of<A: Allocator + Copy>(alloc: A, reading: &Reading<A>, name: &ScenarioName) -> Reply<A>
    ensures { IsLogOf name.now (Some (moment_of reading.now)) (reply_text result) }
{
    let Some(scenario) = scenario_of(&reading.scenarios, name.as_str()) else {
        return Reply::refused(&NoSuchScenario);
    };
    match log_text(
        alloc,
        name.as_str(),
        reading.version,
        &reading.table,
        scenario,
    ) {
        Ok(text) => Reply::Report(text),
        Err(_) => Reply::refused(&Memory),
    }
}

pub(crate) fn log<S: Analyst<A>, A: Allocator + Copy>(
    analyst: &mut S,
    alloc: A,
    name: &ScenarioName,
) -> Reply<A>
    ensures { NamedBy S.rules analyst.old name.now (λ id mid. LogBy S.rules mid name.now (reply_text result) analyst.new) (reply_text result) analyst.new }
{
    if analyst.find(name.as_str()).is_none() {
        return Reply::refused(&NoSuchScenario);
    }
    match analyst.current() {
        Ok(reading) => log_of(alloc, &reading, name),
        Err(_) => Reply::refused(&Memory),
    }
}

fn saved<A: Allocator + Copy>(
    alloc: A,
    comments: &[Vec<u8, A>],
    reading: &Reading<A>,
) -> Result<Vec<u8, A>, Memory>
    ensures { IfOk result (λ bytes. bytes.items ≡ text_bytes (saved (map (λ c. c.items) comments.now) (arc_value reading.now.table) reading.now.scenarios)) }
{
    let text = save_text(alloc, comments, &reading.table, &reading.scenarios)?;
    bytes_of(alloc, &text)
}

pub(crate) fn save<S: Analyst<A>, A: Allocator + Copy>(
    analyst: &mut S,
    alloc: A,
    comments: &[Vec<u8, A>],
) -> Reply<A>
    ensures { SavedBy S.rules analyst.old (map (λ c. c.items) comments.now) (reply_text result) analyst.new }
{
    let Ok(reading) = analyst.current() else {
        return Reply::refused(&Memory);
    };
    match saved(alloc, comments, &reading) {
        Ok(text) => Reply::Saved(text),
        Err(_) => Reply::refused(&Memory),
    }
}
