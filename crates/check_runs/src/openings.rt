// Entries, tables and lists of scenarios: copies and edits of them, and logs that are opened and saved.
use crate::logs::{NOTED, outcome};
use checking::{Written, edit_of, table_of};
use commands::{OpenTextFault, Opening, open_text, save_text};
use job_table::{Edit, EditFault, JobTable};
use refusing::Outcome;
use scenarios::{AddFault, Scenario, ScenarioList};
use std::alloc::Allocator;
use swf_text::{Memory, SwfText, read_swf};

// Copies a text's first entry, with its partial line; and its table, of which the copy's text has all
// entries.
fn copies_of<A: Allocator + Copy>(alloc: A, text: &SwfText<A>) -> Result<bool, Memory> {
    if let Some(entry) = text.entries().first() {
        if entry.copy()?.parts().len() != 1 {
            return Ok(false);
        }
    }
    let copy = JobTable::from_text(alloc, text)?.copy()?;
    Ok(copy.to_text(text.comments())?.entries().len() == 4)
}

/// Copies the log's first entry, and its table.
pub(crate) fn copies<A: Allocator + Copy>(alloc: A) -> Outcome {
    match read_swf(alloc, NOTED) {
        Ok(text) => outcome(copies_of(alloc, &text).map_err(|_| true)),
        Err(_) => Outcome::Before,
    }
}

/// Then a field of job 3 is changed where it stands.
const LATER: Written = Written::Change(3, 9, b"300");

// Makes two edits of a table, of which a copy stays as it was.
fn edits_both<A: Allocator + Copy>(
    table: &mut JobTable<A>,
    edit: &Edit<A>,
    later: &Edit<A>,
) -> Result<bool, EditFault> {
    let copy = table.copy()?;
    table.apply(edit)?;
    table.apply(later)?;
    Ok(copy.len() == 4 && !table.same(&copy))
}

/// Makes an edit of the table of the log, of which a copy stays.
pub(crate) fn edits<A: Allocator + Copy>(alloc: A, written: Written) -> Outcome {
    match (
        table_of(alloc, NOTED),
        edit_of(alloc, written),
        edit_of(alloc, LATER),
    ) {
        (Some(mut table), Some(edit), Some(later)) => outcome(edits_both(
            &mut table, &edit, &later,
        ).map_err(|fault| fault == EditFault::Memory)),
        _ => Outcome::Before,
    }
}

fn adds<A: Allocator + Copy>(
    list: &mut ScenarioList<A>,
    scenario: Scenario,
) -> Result<bool, AddFault> {
    let first = list.add("small", scenario)?;
    let second = list.add("big", scenario)?;
    Ok(list.len() == 2 && list.id_of("small") == Some(first) && list.id_of("big") == Some(second))
}

/// Adds scenarios to a list.
pub(crate) fn adds_scenarios<A: Allocator + Copy>(alloc: A, scenario: Scenario) -> Outcome {
    let mut list = ScenarioList::new(alloc);
    outcome(adds(&mut list, scenario).map_err(|fault| fault == AddFault::Memory))
}

/// A log with two scenarios, a comment and a job.
const LOG: &[u8] = b"; Scenario: small 10 1000
; a comment
; Scenario: big 16 1000 shortest
1 0 -1 100 6 -1 -1 6 100 -1 1 7 -1 -1 -1 -1 -1 -1
";

// Saves an opened log with a copy of its own list, which makes three comments.
fn saves<A: Allocator + Copy>(alloc: A, opening: &Opening<A>) -> Result<bool, Memory> {
    let list = opening.scenarios.copy()?;
    let text = save_text(alloc, opening.comments.as_slice(), &opening.table, &list)?;
    Ok(text.comments().len() == 3)
}

/// Opens a log with scenarios, and saves it.
pub(crate) fn opens_and_saves<A: Allocator + Copy>(alloc: A) -> Outcome {
    let Ok(text) = read_swf(alloc, LOG) else {
        return Outcome::Before;
    };
    match open_text(alloc, text, None) {
        Ok(opening) => outcome(saves(alloc, &opening).map_err(|_| true)),
        Err(fault) => Outcome::memory_if(matches!(fault, OpenTextFault::Memory)),
    }
}
