ghost use Rattle.std.specs.Prelude.{◌≡◌, ◌≤◌, ◌++◌, length, option_copied, slice_get, drop};
ghost use Rattle.std.specs.Iterator.{YieldsFirstRef, item_count};
ghost use Rattle.chunks.specs.Chunks.{AreSized, chunk_of, flat};
ghost use Rattle.chunks.specs.Groups.{AreGrouped, IsSpot, chunk_at, chunks_in, place_at};

use crate::chunk::Chunk;
use crate::groups::{Group, Place};
use crate::row_rest::RowRest;
use std::alloc::Allocator;
use std::marker::Model;

/// The elements of a list in chunks from a place on, in order.
#[derive(Drop)]
pub struct Rest<'a, T: Drop, A: Allocator + Copy> {
    items: &'a [T],
    later: RowRest<'a, Chunk<T, A>, A>,
}

impl<'a, T: Drop, A: Allocator + Copy> Model for Rest<'a, T, A> {
    ghost use Rattle.std.specs.Prelude.{List, ◌++◌};
    ghost use Rattle.chunks.specs.Chunks.{AreSized, IsFront, flat};

    ghost Value = { List T };

    ghost view = { λ r. r.items.now ++ flat r.later };

    ghost invariant = { λ r. AreSized r.later × IsFront r.items.now r.later };
}

fn next_elements<'a, T: Drop, A: Allocator + Copy>(
    later: &mut RowRest<'a, Chunk<T, A>, A>,
) -> &'a [T]
    requires { AreSized later.old }
    ensures value { result.now ≡ chunk_of later.old 0 }
    ensures later { later.new ≡ drop 1 later.old }
{
    match later.next() {
        Some(chunk) => chunk.as_slice(),
        None => &[],
    }
}

pub(crate) fn rest_of<'a, T: Drop, A: Allocator + Copy>(
    items: &'a [T],
    mut later: RowRest<'a, Chunk<T, A>, A>,
) -> Rest<'a, T, A>
    requires { AreSized later }
    ensures { result ≡ items.now ++ flat later.entry }
{
    if !items.is_empty() {
        return Rest { items, later };
    }
    let items = next_elements(&mut later);
    Rest { items, later }
}

impl<'a, T: Drop, A: Allocator + Copy> Rest<'a, T, A> {
    pub(crate) fn new(groups: &'a [Group<T, A>], place: Place) -> Rest<'a, T, A>
        requires sized { AreGrouped groups.now }
        requires spot { IsSpot place.group place.chunk groups.now }
        requires within { place.at ≤ length (chunk_at place.group place.chunk groups.now) }
        ensures { result ≡ drop (place_at place.group place.chunk place.at groups.now) (flat (chunks_in groups.now)) }
    {
        let mut later = RowRest::new(groups, place.group, place.chunk);
        let items = next_elements(&mut later);
        rest_of(&items[place.at..], later)
    }

    /// The next element, which stays to come; None at the end.
    pub fn peek(&self) -> Option<&'a T>
        ensures { option_copied result ≡ slice_get self.now 0 }
    {
        self.items.first()
    }
}

impl<'a, T: Drop, A: Allocator + Copy> Iterator for Rest<'a, T, A> {
    type Item = &'a T;

    ghost next_gives = { YieldsFirstRef (λ r. r) };

    ghost remaining = { item_count (λ r. r) };

    fn next(&mut self) -> Option<&'a T> {
        let (first, items) = self.items.split_first()?;
        self.items = items;
        if items.is_empty() {
            self.items = next_elements(&mut self.later);
        }
        Some(first)
    }
}
