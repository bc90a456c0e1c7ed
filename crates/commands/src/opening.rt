ghost use Rattle.std.specs.Prelude.{◌≡◌, ◌<◌, ◌+◌, length, map, IfOk, IfErr, OnOk, OnErr};
ghost use Rattle.swf_text.specs.Log.{log_of};
ghost use Rattle.commands.specs.ScenarioLine.{scenario_line};
ghost use Rattle.commands.specs.Opening.{kept, with_line, declared, machine_of, base_on, opened, IsOpenFault, IsBaseFault};

use crate::comment::scenario_line;
use crate::opening_fault::OpenTextFault;
use job_table::JobTable;
use scenarios::{AddFault, Scenario, ScenarioList};
use std::alloc::Allocator;
use swf_text::{Memory, SwfText, header_number};

/// The factor of the scenario `base`, in thousandths.
const BASE_FACTOR: u64 = 1000;

/// A log as it is worked with: the comments that are kept, its jobs, and its scenarios.
#[derive(Drop)]
pub struct Opening<A: Allocator + Copy> {
    pub comments: Vec<Vec<u8, A>, A>,
    pub table: JobTable<A>,
    pub scenarios: ScenarioList<A>,
}

fn add_declared<A: Allocator + Copy>(
    list: &mut ScenarioList<A>,
    comment: &[u8],
) -> Result<(), Memory>
    ensures added { OnOk result (list.new ≡ with_line list.old (scenario_line comment.now)) }
    ensures one_more { OnErr result (length (with_line list.old (scenario_line comment.now)).scenarios ≡ length list.old.scenarios + 1) }
{
    let Some(line) = scenario_line(comment) else {
        return Ok(());
    };
    let Some(scenario) = Scenario::new(line.procs, line.factor) else {
        return Ok(());
    };
    match list.add(line.name.as_str(), scenario.ordered(line.order)) {
        Err(AddFault::Memory) => Err(Memory),
        _ => Ok(()),
    }
}

fn declared_list<A: Allocator + Copy>(
    alloc: A,
    comments: &[Vec<u8, A>],
) -> Result<ScenarioList<A>, Memory>
    ensures list { IfOk result (λ list. list ≡ declared (map (λ c. c.items) comments.now)) }
    ensures some { OnErr result (0 < length (declared (map (λ c. c.items) comments.now)).scenarios) }
{
    let mut list = ScenarioList::new(alloc);
    for comment in comments {
        add_declared(&mut list, comment.as_slice())?;
    }
    Ok(list)
}

fn machine_of<A: Allocator + Copy>(text: &SwfText<A>, procs: Option<u64>) -> Option<u64>
    ensures { result ≡ machine_of procs text.now.comments }
{
    procs
        .or(header_number(text, b"MaxProcs"))
        .or(header_number(text, b"MaxNodes"))
}

fn base_on<A: Allocator + Copy>(
    alloc: A,
    procs: Option<u64>,
) -> Result<ScenarioList<A>, OpenTextFault>
    ensures list { IfOk result (λ list. base_on procs ≡ Ok list) }
    ensures fault { IfErr result (IsBaseFault procs) }
{
    let procs = procs.ok_or(OpenTextFault::NoMachine)?;
    let base = Scenario::new(procs, BASE_FACTOR).ok_or(OpenTextFault::BadMachine)?;
    let mut list = ScenarioList::new(alloc);
    match list.add("base", base) {
        Ok(_) => Ok(list),
        Err(AddFault::Memory) => Err(OpenTextFault::Memory),
        Err(AddFault::BadName | AddFault::NameTaken | AddFault::TooMany) => unreachable!(),
    }
}

fn opened<A: Allocator + Copy>(
    alloc: A,
    text: &SwfText<A>,
    procs: Option<u64>,
) -> Result<ScenarioList<A>, OpenTextFault>
    ensures list { IfOk result (λ list. opened procs text.now.comments ≡ Ok list) }
    ensures fault { IfErr result (IsOpenFault procs text.now.comments) }
{
    let declared = declared_list(alloc, text.comments())?;
    if declared.len() > 0 {
        return Ok(declared);
    }
    base_on(alloc, machine_of(text, procs))
}

fn keep_others<A: Allocator + Copy>(comments: &mut Vec<Vec<u8, A>, A>)
    ensures { map (λ c. c.items) comments.new.items ≡ kept (map (λ c. c.items) comments.old.items) }
{
    comments.retain(|c| scenario_line(c.as_slice()).is_none());
}

/// Opens a log: its jobs, the scenarios that its comments tell of, and the other comments.
///
/// Each comment that `scenario_line` reads adds its scenario, in order, where its numbers are within
/// the limits of a scenario and its name is new, while fewer than 64 stand; otherwise the comment
/// goes. Where none was added there is one scenario, `base`: its factor is 1000, its order that of
/// arrival, and its processors are `procs`, else the header number `MaxProcs` of the comments, else
/// `MaxNodes`. The faults in their order: NoMachine where none of these is there, BadMachine
/// where they aren't 1 to 16,777,216, Memory.
pub fn open_text<A: Allocator + Copy>(
    alloc: A,
    text: SwfText<A>,
    procs: Option<u64>,
) -> Result<Opening<A>, OpenTextFault>
    ensures comments { IfOk result (λ o. map (λ c. c.items) o.comments.items ≡ kept text.comments) }
    ensures table { IfOk result (λ o. o.table ≡ log_of text.entries) }
    ensures scenarios { IfOk result (λ o. opened procs text.comments ≡ Ok o.scenarios) }
    ensures fault { IfErr result (IsOpenFault procs text.comments) }
{
    let scenarios = opened(alloc, &text, procs)?;
    let (mut comments, entries) = text.into_parts();
    keep_others(&mut comments);
    let table = JobTable::of_entries(alloc, entries)?;
    Ok(Opening {
        comments,
        table,
        scenarios,
    })
}
