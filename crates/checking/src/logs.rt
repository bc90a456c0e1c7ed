use job_table::JobTable;
use std::alloc::Allocator;
use std::sync::Arc;
use swf_text::{EntryLines, SwfText, read_swf};

/// Jobs of sizes 6, 8, 4 and 2 at 0 to 3. On ten processors they start at 0, 100, 2 and 92.
pub const FOUR: &[u8] = b"1 0 -1 100 6 -1 -1 6 100 -1 1 7 -1 -1 -1 -1 -1 -1
2 1 -1 50 8 -1 -1 8 50 -1 1 8 -1 -1 -1 -1 -1 -1
3 2 -1 90 4 -1 -1 4 90 -1 1 7 -1 -1 -1 -1 -1 -1
4 3 -1 500 2 -1 -1 2 500 -1 1 8 -1 -1 -1 -1 -1 -1
";

/// The table of a log; none where memory is short, or it is no log.
pub fn table_of<A: Allocator + Copy>(alloc: A, log: &[u8]) -> Option<JobTable<A>> {
    match read_swf(alloc, log) {
        Ok(text) => JobTable::from_text(alloc, &text).ok(),
        Err(_) => None,
    }
}

/// The same, shared.
pub fn shared_table<A: Allocator + Copy>(alloc: A, log: &[u8]) -> Option<Arc<JobTable<A>, A>> {
    Arc::new(alloc, table_of(alloc, log)?).ok()
}

fn first_of<A: Allocator + Copy>(text: &SwfText<A>) -> Option<EntryLines<A>> {
    text.entries().first()?.lines().ok()
}

/// The first entry of a log; none where memory is short, or there is none.
pub fn entry_of<A: Allocator + Copy>(alloc: A, log: &[u8]) -> Option<EntryLines<A>> {
    match read_swf(alloc, log) {
        Ok(text) => first_of(&text),
        Err(_) => None,
    }
}
