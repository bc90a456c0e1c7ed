use crate::book::PlainBook;
use book_machine::Note;
use job_table::JobTable;
use std::alloc::Allocator;
use swf_text::Memory;

/// The most notes of a journal.
const NOTE_LIMIT: usize = 1_000_000;

/// The place, from 0, of the first note of a log that was opened whose reply is not that of the plain
/// program, or that comes behind the last that a journal may have; None where there is no such note.
/// Memory where a growth is refused.
pub fn first_wrong<A: Allocator + Copy>(
    alloc: A,
    log: JobTable<A>,
    notes: &[Note<A>],
) -> Result<Option<usize>, Memory> {
    let mut book = PlainBook::new(alloc, log);
    for (place, note) in notes.iter().enumerate() {
        if place >= NOTE_LIMIT {
            return Ok(Some(place));
        }
        if book.step(&note.call)? != note.reply {
            return Ok(Some(place));
        }
    }
    Ok(None)
}
