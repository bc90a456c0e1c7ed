use crate::compare::logs::{add_at, add_edited};
use checking::{Chance, entry_of, table_of};
use job_table::{Edit, JobTable};
use scenarios::{Scenario, effective};
use std::alloc::Global;
use swf_text::Value;

/// The numbers of all jobs are below this.
pub(crate) const NUMBERS: u64 = 64;

/// A kind of edits.
#[derive(Clone, Copy)]
enum Kind {
    Insertion,
    Removal,
    /// A change of this field.
    Change(u8),
    /// A change of a skipped entry, where there is one.
    OfSkipped(u8),
}

/// How many kinds there are.
const KIND_COUNT: u64 = 10;

/// A kind of edits, and the place of the second of its job: 0 for the first second, 1 for a middle
/// one, 2 for the last one, and else any up to then.
#[derive(Clone, Copy)]
struct Aim {
    kind: Kind,
    place: u64,
}

// Besides insertion and removal, changes of submit and run time, estimate, size and user, of a field that
// touches no job, and of the user and the size of a skipped entry.
fn kind_of(place: u64) -> Kind {
    match place {
        0 => Kind::Insertion,
        1 => Kind::Removal,
        2 => Kind::Change(2),
        3 => Kind::Change(4),
        4 => Kind::Change(9),
        5 => Kind::Change(8),
        6 => Kind::Change(12),
        7 => Kind::Change(13),
        8 => Kind::OfSkipped(12),
        _ => Kind::OfSkipped(8),
    }
}

pub(crate) fn made_table(alloc: Global, chance: &mut Chance) -> Option<JobTable<Global>> {
    let mut log = String::new(alloc);
    add_edited(&mut log, chance)?;
    table_of(alloc, log.as_bytes())
}

fn last_second(table: &JobTable<Global>) -> u64 {
    let mut last = 0;
    for entry in table.from_second(0) {
        last = entry.submit();
    }
    last
}

fn second_of(chance: &mut Chance, place: u64, table: &JobTable<Global>) -> u64 {
    let last = last_second(table);
    match place {
        0 => 0,
        1 => last / 2,
        2 => last,
        _ => chance.below(last.saturating_add(1)),
    }
}

fn number_from(table: &JobTable<Global>, second: u64) -> Option<u64> {
    let entry = table.from_second(second).peek()?;
    Some(entry.number())
}

// The number of the first one of these that is skipped; where none is, as `number_from`.
fn skipped_from(table: &JobTable<Global>, second: u64, scenario: &Scenario) -> Option<u64> {
    for entry in table.from_second(second) {
        if effective(entry, scenario).is_err() {
            return Some(entry.number());
        }
    }
    number_from(table, second)
}

fn insertion(alloc: Global, chance: &mut Chance, second: u64) -> Option<Edit<Global>> {
    let number = chance.below(NUMBERS);
    let mut line = String::new(alloc);
    add_at(&mut line, chance, number, second)?;
    Some(Edit::Insert(entry_of(alloc, line.as_bytes())?))
}

fn value_of(alloc: Global, number: u64) -> Option<Value> {
    let text = format!(in alloc; "{number}").ok()?;
    Value::from_bytes(text.as_bytes())
}

fn drawn(chance: &mut Chance, field: u8, table: &JobTable<Global>) -> u64 {
    match field {
        2 => {
            let place = chance.below(4);
            second_of(chance, place, table)
        }
        4 => 5 * chance.below(7),
        8 => chance.below(12),
        9 => 5 * chance.below(9),
        _ => chance.below(4),
    }
}

fn change(
    alloc: Global,
    chance: &mut Chance,
    table: &JobTable<Global>,
    number: u64,
    field: u8,
) -> Option<Edit<Global>> {
    let value = value_of(alloc, drawn(chance, field, table))?;
    Some(Edit::Change {
        number,
        field,
        value,
    })
}

// An edit of a table; none where there is no entry for it.
fn edit(
    alloc: Global,
    chance: &mut Chance,
    aim: Aim,
    table: &JobTable<Global>,
    scenario: &Scenario,
) -> Option<Edit<Global>> {
    let second = second_of(chance, aim.place, table);
    match aim.kind {
        Kind::Insertion => insertion(alloc, chance, second),
        Kind::Removal => Some(Edit::Remove(number_from(table, second)?)),
        Kind::Change(field) => change(alloc, chance, table, number_from(table, second)?, field),
        Kind::OfSkipped(field) => {
            let number = skipped_from(table, second, scenario)?;
            change(alloc, chance, table, number, field)
        }
    }
}

// The aim of the next edit: of the first one as the seed says, so that all kinds come at all places,
// and of later ones by chance.
fn aim_of(chance: &mut Chance, seed: u64, is_first: bool) -> Aim {
    let (kind, place) = if is_first {
        (seed % KIND_COUNT, seed / KIND_COUNT % 3)
    } else {
        (chance.below(KIND_COUNT), chance.below(4))
    };
    Aim {
        kind: kind_of(kind),
        place,
    }
}

// Adds so many edits of a table, each of which is accepted after those before it, or as many as there
// are in 32 tries.
fn add_edits(
    alloc: Global,
    chance: &mut Chance,
    seed: u64,
    scenario: &Scenario,
    table: &mut JobTable<Global>,
    edits: &mut Vec<Edit<Global>>,
    wanted: usize,
) -> Option<()> {
    for _ in 0..32 {
        if edits.len() < wanted {
            let aim = aim_of(chance, seed, edits.is_empty());
            if let Some(edit) = edit(alloc, chance, aim, table, scenario)
                && table.apply(&edit).is_ok()
            {
                edits.push(edit).ok()?;
            }
        }
    }
    Some(())
}

// One to four edits of a table, each of which is accepted after those before it.
pub(crate) fn edits_of(
    alloc: Global,
    chance: &mut Chance,
    seed: u64,
    scenario: &Scenario,
    table: &JobTable<Global>,
) -> Option<Vec<Edit<Global>>> {
    let wanted = 1 + chance.below(4) as usize;
    let (mut table, mut edits) = (table.copy().ok()?, Vec::new(alloc));
    add_edits(
        alloc, chance, seed, scenario, &mut table, &mut edits, wanted,
    )?;
    Some(edits)
}
