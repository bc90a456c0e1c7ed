ghost use Rattle.std.specs.Prelude.{◌≡◌, IfOk};
ghost use Rattle.std.specs.Cmp.{partial_equiv_from_equiv};
ghost use Rattle.book_machine.specs.Same.{same_entry};
ghost use Rattle.book_machine.specs.Decided.{same_entry-equiv};

use std::alloc::Allocator;
use std::marker::Model;
use swf_text::{EntryLines, Memory};

/// An inserted entry as a note keeps it: in a box, so that all other notes stay small.
#[derive(Drop)]
pub struct NotedEntry<A: Allocator + Copy> {
    entry: Box<EntryLines<A>, A>,
}

impl<A: Allocator + Copy> Model for NotedEntry<A> {
    ghost use Rattle.swf_text.specs.Entry.{LogEntry};

    ghost Value = { LogEntry };

    ghost view = { λ noted. noted.entry.value };
}

impl<A: Allocator + Copy> PartialEq for NotedEntry<A> {
    ghost eq = { same_entry };

    ghost laws = { partial_equiv_from_equiv same_entry-equiv };

    fn eq(&self, other: &NotedEntry<A>) -> bool {
        *self.entry.main() == *other.entry.main() && self.entry.parts() == other.entry.parts()
    }
}

impl<A: Allocator + Copy> Eq for NotedEntry<A> {
    ghost laws = { same_entry-equiv };
}

impl<A: Allocator + Copy> NotedEntry<A> {
    /// The entry once more, in a box; Memory where a growth is refused.
    pub fn new(alloc: A, entry: &EntryLines<A>) -> Result<NotedEntry<A>, Memory>
        ensures { IfOk result (λ noted. noted ≡ entry.now) }
    {
        Ok(NotedEntry {
            entry: Box::new(alloc, entry.copy()?)?,
        })
    }

    /// The entry.
    pub fn entry(&self) -> &EntryLines<A>
        ensures { result.now ≡ self.now }
    {
        &self.entry
    }
}
