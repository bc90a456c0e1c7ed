use crate::logs::entry_of;
use job_table::Edit;
use std::alloc::Allocator;
use swf_text::Value;

/// An edit, as it is written.
#[derive(Clone, Copy, Debug)]
pub enum Written {
    /// The first entry of this log joins.
    Insert(&'static [u8]),
    /// The job of this number leaves.
    Remove(u64),
    /// A field of a job gets the number that a word spells.
    Change(u64, u8, &'static [u8]),
}

fn change<A: Allocator + Copy>(number: u64, field: u8, word: &[u8]) -> Option<Edit<A>> {
    let value = Value::from_bytes(word)?;
    Some(Edit::Change {
        number,
        field,
        value,
    })
}

/// The edit that is written so; none where memory is short, or a word or a log is none.
pub fn edit_of<A: Allocator + Copy>(alloc: A, written: Written) -> Option<Edit<A>> {
    match written {
        Written::Insert(log) => Some(Edit::Insert(entry_of(alloc, log)?)),
        Written::Remove(number) => Some(Edit::Remove(number)),
        Written::Change(number, field, word) => change(number, field, word),
    }
}
