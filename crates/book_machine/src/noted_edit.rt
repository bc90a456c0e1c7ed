ghost use Rattle.std.specs.Prelude.{◌≡◌, IfOk};
ghost use Rattle.job_table.specs.Edit.{edit_of};
ghost use Rattle.std.specs.Cmp.{partial_equiv_from_equiv};
ghost use Rattle.std.specs.Ordering.{on};
ghost use Rattle.std.proofs.lemmas.Cmp.{on_equiv};
ghost use Rattle.book_machine.specs.Noted.{noted_edit_of};
ghost use Rattle.book_machine.specs.Same.{same_edit};
ghost use Rattle.book_machine.specs.Decided.{same_edit-equiv};

use crate::noted_entry::NotedEntry;
use job_table::Edit;
use std::alloc::Allocator;
use swf_text::{Memory, Value};

/// An edit as a note keeps it.
#[derive(Drop)]
pub enum NotedEdit<A: Allocator + Copy> {
    /// This entry joins the log.
    Insert(NotedEntry<A>),
    /// The entry with this job number leaves the log.
    Remove(u64),
    /// A field of a summary line gets another value; fields are counted from 1.
    Change {
        number: u64,
        field: u8,
        value: Value,
    },
}

impl<A: Allocator + Copy> PartialEq for NotedEdit<A> {
    ghost eq = { on noted_edit_of same_edit };

    ghost laws = { partial_equiv_from_equiv (on_equiv noted_edit_of same_edit-equiv) };

    fn eq(&self, other: &NotedEdit<A>) -> bool {
        match (self, other) {
            (NotedEdit::Insert(one), NotedEdit::Insert(two)) => *one == *two,
            (NotedEdit::Remove(one), NotedEdit::Remove(two)) => one == two,
            (
                NotedEdit::Change {
                    number,
                    field,
                    value,
                },
                NotedEdit::Change {
                    number: of,
                    field: place,
                    value: to,
                },
            ) => number == of && field == place && value == to,
            _ => false,
        }
    }
}

impl<A: Allocator + Copy> Eq for NotedEdit<A> {
    ghost laws = { on_equiv noted_edit_of same_edit-equiv };
}

impl<A: Allocator + Copy> NotedEdit<A> {
    /// The edit once more, for a note; Memory where a growth is refused.
    pub fn new(alloc: A, edit: &Edit<A>) -> Result<NotedEdit<A>, Memory>
        ensures { IfOk result (λ noted. noted_edit_of noted ≡ edit_of edit.now) }
    {
        match edit {
            Edit::Insert(entry) => Ok(NotedEdit::Insert(NotedEntry::new(alloc, entry)?)),
            Edit::Remove(number) => Ok(NotedEdit::Remove(*number)),
            Edit::Change {
                number,
                field,
                value,
            } => Ok(NotedEdit::Change {
                number: *number,
                field: *field,
                value: *value,
            }),
        }
    }

    /// The edit that was noted; Memory where a growth is refused.
    pub fn edit(&self) -> Result<Edit<A>, Memory>
        ensures { IfOk result (λ edit. edit_of edit ≡ noted_edit_of self.now) }
    {
        match self {
            NotedEdit::Insert(noted) => Ok(Edit::Insert(noted.entry().copy()?)),
            NotedEdit::Remove(number) => Ok(Edit::Remove(*number)),
            NotedEdit::Change {
                number,
                field,
                value,
            } => Ok(Edit::Change {
                number: *number,
                field: *field,
                value: *value,
            }),
        }
    }
}
