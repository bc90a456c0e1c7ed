// What edits of a table count: the entries and pairs that they copy or move.
use checking::{FOUR, Written, edit_of, table_of};
use job_table::{Edit, JobTable};
use std::alloc::Global;

/// How many entries and pairs an edit of the four jobs copies or moves. As a table they stand in one
/// chunk of four entries, and the index in one of four pairs.
const OF_FOUR: [(Written, u32); 4] = [
    // The new entry, the four pairs of the chunk that its pair joins, and the four entries of the one
    // that it joins itself: 1 + 4 + 4. No chunk is split.
    (
        Written::Insert(b"5 4 -1 500 2 -1 -1 2 500 -1 1 8 -1 -1 -1 -1 -1 -1\n"),
        9,
    ),
    // The four pairs and the four entries of the chunks that it leaves: 4 + 4.
    (Written::Remove(2), 8),
    // The changed entry alone: it is exchanged where it stands, and the index stays.
    (Written::Change(2, 3, b"9.5"), 1),
    // The changed entry, the four entries of the chunk that it leaves, and the three that are left
    // there, which it joins again: 1 + 4 + 3. Its pair is exchanged where it stands.
    (Written::Change(3, 2, b"300"), 8),
];

/// How many entries and pairs an edit copies or moves; none where it is refused.
pub(crate) fn count(table: &mut JobTable<Global>, edit: Option<Edit<Global>>) -> Option<u32> {
    table.apply_counted(&edit?).ok()
}

// Whether an edit of a table counts so.
fn counts(table: Option<JobTable<Global>>, edit: Option<Edit<Global>>, wanted: u32) -> bool {
    table.is_some_and(|mut table| count(&mut table, edit) == Some(wanted))
}

#[test]
fn edits_of_four_jobs_count_so(rt: HostRuntime) {
    for (written, wanted) in &OF_FOUR {
        let (table, edit) = (table_of(rt.alloc(), FOUR), edit_of(rt.alloc(), *written));
        assert!(rt; counts(table, edit, *wanted));
    }
}

// Adds the lines of the jobs of even numbers up to 1,024, each submitted at the second of its number.
fn add_lines(alloc: Global, log: &mut Vec<u8>) -> Option<()> {
    for half in 1..=512u64 {
        let number = half * 2;
        let line = format!(in alloc;
            "{number} {number} -1 9 1 -1 -1 1 9 -1 1 7 -1 -1 -1 -1 -1 -1\n"
        );
        log.extend_from_slice(line.ok()?.as_bytes()).ok()?;
    }
    Some(())
}

fn full_table(alloc: Global) -> Option<JobTable<Global>> {
    let mut log = Vec::new(alloc);
    add_lines(alloc, &mut log)?;
    table_of(alloc, log.as_slice())
}

/// The same of edits of the full chunks.
const OF_FULL: [(Written, u32); 3] = [
    // The new entry, and of the pairs and of the entries a full chunk, of which 129 move: 1 + 385 + 385.
    (
        Written::Insert(b"5 5 -1 9 1 -1 -1 1 9 -1 1 7 -1 -1 -1 -1 -1 -1\n"),
        771,
    ),
    // A full chunk of pairs and one of entries: 256 + 256.
    (Written::Remove(2), 512),
    // The changed entry, the full chunk that it leaves, the one that it joins, of which 129 move, and
    // the one of its pair, which shares the memory of the other: 1 + 256 + 385 + 256.
    (Written::Change(2, 2, b"1023"), 898),
];

#[test]
fn edits_of_full_chunks_count_so(rt: HostRuntime) {
    for (written, wanted) in &OF_FULL {
        let edit = edit_of(rt.alloc(), *written);
        assert!(rt; counts(full_table(rt.alloc()), edit, *wanted));
    }
}

// Whether two changes of the first chunk that move nothing count so, one after the other. The chunks of
// a log share its memory, so the first change copies the chunk, 1 + 256; the second finds it alone
// there, and copies its entry only.
fn counts_in_place(alloc: Global, table: &mut JobTable<Global>) -> bool {
    count(table, edit_of(alloc, Written::Change(4, 3, b"9.5"))) == Some(257)
        && count(table, edit_of(alloc, Written::Change(6, 3, b"7"))) == Some(1)
}

#[test]
fn counts_no_copy_once_the_chunk_is_its_own(rt: HostRuntime) {
    let table = full_table(rt.alloc());
    assert!(rt; table.is_some_and(|mut table| counts_in_place(rt.alloc(), &mut table)));
}
