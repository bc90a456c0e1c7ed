// A thousand jobs that join a table, move in it and leave it, beside a plain list that is sorted anew
// behind each edit.
use crate::counts::count;
use checking::{entry_of, table_of};
use job_table::{Edit, JobTable};
use std::alloc::Global;

/// How many jobs there are.
const JOBS: u64 = 1_000;

/// An edit copies or moves at most so many entries and pairs.
const MOST: u32 = 1_024;

/// What each job does in turn: it joins behind all others or before them, moves among them, and leaves.
#[derive(Clone, Copy)]
enum Deed {
    JoinBehind,
    JoinBefore,
    Move,
    Leave,
}

// The submit second that a job has then, if it stands. Up to seven move to the same one.
fn second_of(deed: Deed, number: u64) -> Option<u64> {
    match deed {
        Deed::JoinBehind => Some(number),
        Deed::JoinBefore => Some(JOBS.saturating_sub(number)),
        Deed::Move => Some(number.wrapping_mul(7) % 1_001),
        Deed::Leave => None,
    }
}

fn edit_for(alloc: Global, deed: Deed, number: u64) -> Option<Edit<Global>> {
    let Some(second) = second_of(deed, number) else {
        return Some(Edit::Remove(number));
    };
    let line = format!(in alloc; "{number} {second} -1 9 1 -1 -1 1 9 -1 1 7 -1 -1 -1 -1 -1 -1\n");
    let entry = entry_of(alloc, line.ok()?.as_bytes())?;
    match deed {
        Deed::Move => Some(Edit::Change {
            number,
            field: 2,
            value: entry.main().0[1],
        }),
        _ => Some(Edit::Insert(entry)),
    }
}

// Has a job do this in the list, of submit seconds and numbers.
fn list(listed: &mut Vec<(u64, u64)>, deed: Deed, number: u64) -> Option<()> {
    listed.retain(move |job| job.1 != number);
    if let Some(second) = second_of(deed, number) {
        listed.push((second, number)).ok()?;
    }
    listed.sort().ok()
}

fn is_listed(table: &JobTable<Global>, listed: &[(u64, u64)]) -> bool {
    let mut entries = table.from_second(0);
    for job in listed {
        if entries.next().map(|entry| (entry.submit(), entry.number())) != Some(*job) {
            return false;
        }
    }
    entries.next().is_none()
}

// Whether the table stands as in the list behind each of these edits.
fn all_do(
    alloc: Global,
    table: &mut JobTable<Global>,
    listed: &mut Vec<(u64, u64)>,
    deed: Deed,
) -> Option<bool> {
    for number in 1..=JOBS {
        let counted = count(table, edit_for(alloc, deed, number))?;
        list(listed, deed, number)?;
        if counted > MOST || !is_listed(table, listed) {
            return Some(false);
        }
    }
    Some(true)
}

// The same, and whether a copy from before stands as it did.
fn all_do_beside_a_copy(
    alloc: Global,
    table: &mut JobTable<Global>,
    listed: &mut Vec<(u64, u64)>,
    deed: Deed,
) -> Option<bool> {
    let copy = table.copy().ok()?;
    let before = Vec::from_slice(alloc, listed).ok()?;
    let do_right = all_do(alloc, table, listed, deed)?;
    Some(do_right && is_listed(&copy, &before))
}

fn come_and_go(alloc: Global, join: Deed) -> Option<bool> {
    let mut table = table_of(alloc, b"")?;
    let mut listed = Vec::new(alloc);
    for deed in [join, Deed::Move, Deed::Leave] {
        if !all_do_beside_a_copy(alloc, &mut table, &mut listed, deed)? {
            return Some(false);
        }
    }
    Some(true)
}

#[test]
fn a_thousand_jobs_stand_as_in_a_plain_list(rt: HostRuntime) {
    assert!(rt; come_and_go(rt.alloc(), Deed::JoinBehind) == Some(true));
    assert!(rt; come_and_go(rt.alloc(), Deed::JoinBefore) == Some(true));
}
