ghost use Rattle.std.specs.Prelude.{◌≡◌, ◌≤◌, ◌<◌, ◌+◌, IfOk, OnErr, OnOk, length, option_copied, slice_get, slice_set, drop};
ghost use Rattle.std.specs.List.{insert, remove};
ghost use Rattle.std.specs.List.Sorted.{IsPartitionedBy};
ghost use Rattle.chunks.specs.Chunks.{AreFull, CountsNoneOr, flat, joining, place_in, stands, touched};

use crate::copied::Keyed;
use crate::edits::{exchange, inserted, removed};
use crate::groups::Group;
use crate::pieces::{chunks_of, share};
use crate::rest::{Rest, rest_of};
use crate::row_rest::row_rest_of;
use crate::search::{open_place, place_of};
use std::alloc::Allocator;
use std::marker::Model;
use swf_text::Memory;

/// A list in chunks of 1 to 256 elements, which stand in groups of 1 to 256 chunks. A copy shares
/// all groups. A list made from this one by an edit shares all groups but the one that the edit
/// touches, and all chunks of that one but the touched one. An exchange changes this list alone, and
/// what other lists have stays as it is. The chunks of a list that `of` made are ranges of the one
/// list that it was given, whose memory stays as long as any chunk of it does. Contracts see the
/// chunks, each with its elements; how they are grouped is not stated.
#[derive(Drop)]
pub struct Chunks<T: Keyed, A: Allocator + Copy> {
    groups: Vec<Group<T, A>, A>,
}

impl<T: Keyed, A: Allocator + Copy> Model for Chunks<T, A> {
    ghost use Rattle.std.specs.Prelude.{List};
    ghost use Rattle.chunks.specs.Groups.{AreGrouped, chunks_in};

    ghost Value = { List (List T) };

    ghost view = { λ c. chunks_in c.groups.items };

    ghost invariant = { λ c. AreGrouped c.groups.items };
}

impl<T: Keyed, A: Allocator + Copy> Chunks<T, A> {
    /// The list of these elements, none of which moves: each chunk but the last is a range of 256
    /// of them, and the memory of all stays as long as any of these chunks does. Memory where a
    /// growth was refused.
    pub fn of(alloc: A, items: Vec<T, A>) -> Result<Chunks<T, A>, Memory>
        ensures list { IfOk result (λ list. flat list ≡ items.items) }
        ensures full { IfOk result (λ list. AreFull list) }
    {
        let chunks = chunks_of(alloc, items)?;
        let groups = chunks_of(alloc, chunks)?;
        Ok(Chunks { groups })
    }

    /// The same list once more, which shares each group. Memory where a growth was refused.
    pub fn copy(&self) -> Result<Chunks<T, A>, Memory>
        ensures { IfOk result (λ list. list ≡ self.now) }
    {
        let mut groups = Vec::with_capacity(*self.groups.allocator(), self.groups.len())?;
        share(&mut groups, self.groups.as_slice())?;
        Ok(Chunks { groups })
    }

    /// The first element that doesn't stand before one with these two numbers.
    pub fn find(&self, major: u64, minor: u64) -> Option<&T>
        requires { IsPartitionedBy (stands T.major T.minor major minor) (flat self.now) }
        ensures { option_copied result ≡ slice_get (flat self.now) (place_in T.major T.minor major minor (flat self.now)) }
    {
        self.rest(major, minor).peek()
    }

    /// The elements from the first on that doesn't stand before one with these two numbers.
    pub fn rest(&self, major: u64, minor: u64) -> Rest<'_, T, A>
        requires { IsPartitionedBy (stands T.major T.minor major minor) (flat self.now) }
        ensures { result ≡ drop (place_in T.major T.minor major minor (flat self.now)) (flat self.now) }
    {
        let groups = self.groups.as_slice();
        Rest::new(groups, place_of(groups, major, minor))
    }

    /// All elements, in order.
    pub fn iter(&self) -> Rest<'_, T, A>
        ensures { result ≡ flat self.now }
    {
        rest_of(&[], row_rest_of(&[], self.groups.as_slice()))
    }

    /// Where the list takes its memory.
    pub fn allocator(&self) -> A {
        *self.groups.allocator()
    }

    /// The list with an element more, before the first that doesn't stand before it. Counts each
    /// element that it copies or moves to another chunk: those of the chunk that it joins, which
    /// behind the last element is the last chunk, and 129 more where that is full; at most 385.
    /// Memory where a growth was refused.
    pub fn with(&self, item: T, count: &mut u32) -> Result<Chunks<T, A>, Memory>
        requires parted { IsPartitionedBy (stands T.major T.minor (T.major item) (T.minor item)) (flat self.now) }
        requires capacity { count.old ≤ 768 }
        ensures list { IfOk result (λ list. flat list ≡ insert (flat self.now) (place_in T.major T.minor (T.major item) (T.minor item) (flat self.now)) item) }
        ensures count { OnOk result (count.new ≡ count.old + joining (place_in T.major T.minor (T.major item) (T.minor item) (flat self.now)) self.now) }
        ensures least { 1 ≤ length (flat self.now) → OnOk result (count.old < count.new) }
        ensures most { OnOk result (count.new ≤ count.old + 385) }
    {
        let old = self.groups.as_slice();
        let place = open_place(old, place_of(old, item.major(), item.minor()));
        let alloc = *self.groups.allocator();
        let groups = inserted(alloc, old, place, item, count)?;
        Ok(Chunks { groups })
    }

    /// The list without the first element that doesn't stand before one with these two numbers.
    /// Counts each element that it copies: those of that element's chunk, at most 256. Memory where
    /// a growth was refused.
    pub fn without(&self, major: u64, minor: u64, count: &mut u32) -> Result<Chunks<T, A>, Memory>
        requires parted { IsPartitionedBy (stands T.major T.minor major minor) (flat self.now) }
        requires there { place_in T.major T.minor major minor (flat self.now) < length (flat self.now) }
        requires capacity { count.old ≤ 768 }
        ensures list { IfOk result (λ list. flat list ≡ remove (flat self.now) (place_in T.major T.minor major minor (flat self.now))) }
        ensures count { OnOk result (count.new ≡ count.old + touched (place_in T.major T.minor major minor (flat self.now)) self.now) }
        ensures least { OnOk result (count.old < count.new) }
        ensures most { OnOk result (count.new ≤ count.old + 256) }
    {
        let old = self.groups.as_slice();
        let place = place_of(old, major, minor);
        let alloc = *self.groups.allocator();
        let groups = removed(alloc, old, place, count)?;
        Ok(Chunks { groups })
    }

    /// Another element in place of the first that doesn't stand before it. Where no other list and
    /// no other chunk has the memory of its chunk, it is exchanged where it stands, otherwise in a
    /// copy of the chunk. Counts the elements that it copies: none, or those of that chunk, at most
    /// 256. Memory where a growth was refused; then the list is as it was.
    pub fn exchange(&mut self, item: T, count: &mut u32) -> Result<(), Memory>
        requires parted { IsPartitionedBy (stands T.major T.minor (T.major item) (T.minor item)) (flat self.old) }
        requires there { place_in T.major T.minor (T.major item) (T.minor item) (flat self.old) < length (flat self.old) }
        requires capacity { count.old ≤ 768 }
        ensures list { OnOk result (flat self.new ≡ slice_set (flat self.old) (place_in T.major T.minor (T.major item) (T.minor item) (flat self.old)) item) }
        ensures kept { OnErr result (self.new ≡ self.old) }
        ensures count { OnOk result (CountsNoneOr (touched (place_in T.major T.minor (T.major item) (T.minor item) (flat self.old)) self.old) count.old count.new) }
        ensures least { OnOk result (count.old ≤ count.new) }
        ensures most { OnOk result (count.new ≤ count.old + 256) }
    {
        let place = place_of(self.groups.as_slice(), item.major(), item.minor());
        exchange(&mut self.groups, place, item, count)
    }
}
