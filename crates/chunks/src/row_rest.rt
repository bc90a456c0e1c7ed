ghost use Rattle.std.specs.Prelude.{◌≡◌, ◌≤◌, ◌+◌, ◌++◌, length, drop};
ghost use Rattle.std.specs.Iterator.{YieldsFirstRef, item_count};
ghost use Rattle.chunks.specs.Chunks.{AreSized, chunk_of, flat, start};

use crate::chunk::Chunk;
use crate::row::{after, elements};
use std::alloc::Allocator;
use std::marker::Model;

// The elements of a row of chunks from a place on, in order.
#[derive(Drop)]
pub(crate) struct RowRest<'a, T: Drop, A: Allocator + Copy> {
    items: &'a [T],
    later: &'a [Chunk<T, A>],
}

impl<'a, T: Drop, A: Allocator + Copy> Model for RowRest<'a, T, A> {
    ghost use Rattle.std.specs.Prelude.{List, ◌++◌};
    ghost use Rattle.chunks.specs.Chunks.{AreSized, IsFront, flat};

    ghost Value = { List T };

    ghost view = { λ r. r.items.now ++ flat r.later.now };

    ghost invariant = { λ r. AreSized r.later.now × IsFront r.items.now r.later.now };
}

pub(crate) fn row_rest_of<'a, T: Drop, A: Allocator + Copy>(
    items: &'a [T],
    later: &'a [Chunk<T, A>],
) -> RowRest<'a, T, A>
    requires { AreSized later.now }
    ensures { result ≡ items.now ++ flat later.now }
{
    if !items.is_empty() {
        return RowRest { items, later };
    }
    RowRest {
        items: elements(later, 0),
        later: after(later, 0),
    }
}

impl<'a, T: Drop, A: Allocator + Copy> RowRest<'a, T, A> {
    pub(crate) fn new(row: &'a [Chunk<T, A>], chunk: usize, at: usize) -> RowRest<'a, T, A>
        requires sized { AreSized row.now }
        requires within { at ≤ length (chunk_of row.now chunk) }
        ensures { result ≡ drop (start chunk row.now + at) (flat row.now) }
    {
        let items = elements(row, chunk);
        row_rest_of(&items[at..], after(row, chunk))
    }
}

impl<'a, T: Drop, A: Allocator + Copy> Iterator for RowRest<'a, T, A> {
    type Item = &'a T;

    ghost next_gives = { YieldsFirstRef (λ r. r) };

    ghost remaining = { item_count (λ r. r) };

    fn next(&mut self) -> Option<&'a T> {
        let (first, items) = self.items.split_first()?;
        *self = row_rest_of(items, self.later);
        Some(first)
    }
}
