// What the reader answers to logs that are changed or cut.
use scripts::bytes_of;
use std::alloc::Global;
use swf_text::{SwfText, read_swf};

/// A log that is the same when it was written and read again.
const KEPT: &str = "read";

/// A log that is not.
const LOST: &str = "read otherwise when it was written";

/// The kinds of a reader's answers.
pub(crate) const READ: [&str; 12] = [
    KEPT,
    "LineTooLong",
    "NotAscii",
    "FieldCount",
    "BadNumber",
    "BadJobNumber",
    "BadSubmit",
    "OrphanPartial",
    "DuplicateJob",
    "TooManyJobs",
    "Memory",
    LOST,
];

// Whether these bytes are read as a log of so many entries that is written as the very same.
fn is_written_so(alloc: Global, bytes: &[u8], entries: usize) -> bool {
    let Ok(text) = read_swf(alloc, bytes) else {
        return false;
    };
    text.entries().len() == entries
        && bytes_of(alloc, &text).is_ok_and(|written| written.as_slice() == bytes)
}

// Whether a log is written and read again with as many entries, and then written as the same bytes.
fn is_kept(alloc: Global, text: &SwfText<Global>) -> bool {
    match bytes_of(alloc, text) {
        Ok(bytes) => is_written_so(alloc, bytes.as_slice(), text.entries().len()),
        Err(_) => false,
    }
}

pub(crate) fn answer(alloc: Global, bytes: &[u8]) -> &'static str {
    match read_swf(alloc, bytes) {
        Ok(text) if is_kept(alloc, &text) => KEPT,
        Ok(_) => LOST,
        Err(fault) => fault.kind.name(),
    }
}
