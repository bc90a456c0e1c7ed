ghost use Rattle.std.specs.Prelude.{◌≡◌, IfOk};

use std::alloc::Allocator;
use swf_text::{EntryLines, Memory, Value};

/// One edit of a log.
#[derive(Drop)]
pub enum Edit<A: Allocator + Copy> {
    /// This entry joins the log.
    Insert(EntryLines<A>),
    /// The entry with this job number leaves the log.
    Remove(u64),
    /// A field of a summary line gets another value; fields are counted from 1.
    Change {
        number: u64,
        field: u8,
        value: Value,
    },
}

impl<A: Allocator + Copy> Edit<A> {
    /// The same edit once more, on the allocator that its entry keeps; Memory where the growth for
    /// that entry's partial lines is refused.
    pub fn copy(&self) -> Result<Edit<A>, Memory>
        ensures { IfOk result (λ edit. edit ≡ self.now) }
    {
        match self {
            Edit::Insert(entry) => Ok(Edit::Insert(entry.copy()?)),
            Edit::Remove(number) => Ok(Edit::Remove(*number)),
            Edit::Change {
                number,
                field,
                value,
            } => Ok(Edit::Change {
                number: *number,
                field: *field,
                value: *value,
            }),
        }
    }
}
