ghost use Rattle.std.specs.Prelude.{◌≡◌, option_copied, slice_get};
ghost use Rattle.std.specs.Iterator.{YieldsFirstRef, item_count};
ghost use Rattle.job_table.specs.Table.{IsTable};

use chunks::Rest;
use std::alloc::Allocator;
use std::marker::Model;
use swf_text::Entry;

/// The entries of a table from a place on, in its order.
#[derive(Drop)]
pub struct Cursor<'a, A: Allocator + Copy> {
    rest: Rest<'a, Entry<A>, A>,
}

impl<'a, A: Allocator + Copy> Model for Cursor<'a, A> {
    ghost use Rattle.std.specs.Prelude.{List};
    ghost use Rattle.swf_text.specs.Entry.{LogEntry};
    ghost use Rattle.job_table.specs.Table.{IsTable};

    ghost Value = { List LogEntry };

    ghost view = { λ c. c.rest };

    ghost invariant = { λ c. IsTable c.rest };
}

impl<'a, A: Allocator + Copy> Cursor<'a, A> {
    pub(crate) fn new(rest: Rest<'a, Entry<A>, A>) -> Cursor<'a, A>
        requires { IsTable rest }
        ensures { result ≡ rest.entry }
    {
        Cursor { rest }
    }

    /// The next entry, which stays to come; None at the end.
    pub fn peek(&self) -> Option<&'a Entry<A>>
        ensures first { option_copied result ≡ slice_get self.now 0 }
        ensures sound { IsTable self.now }
    {
        self.rest.peek()
    }
}

impl<'a, A: Allocator + Copy> Iterator for Cursor<'a, A> {
    type Item = &'a Entry<A>;

    ghost next_gives = { YieldsFirstRef (λ c. c) };

    ghost remaining = { item_count (λ c. c) };

    fn next(&mut self) -> Option<&'a Entry<A>> {
        let entry = self.rest.next()?;
        Some(entry)
    }
}
