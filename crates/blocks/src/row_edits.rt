//! How items come into a row of blocks and leave it.
ghost use Rattle.std.specs.Prelude.{◌≡◌, ◌≤◌, ◌<◌, ◌+◌, [], ◌∷◌, length, slice_index_or, slice_set};
ghost use Rattle.std.specs.List.{insert, remove};
ghost use Rattle.blocks.specs.Rows.{block_of, cut_at, flat, joined_at, start};

use crate::block::{BLOCK_LIMIT, Block};
use crate::block_row::BlockRow;
use crate::groups::{GROUP, put_item, renew, take_item};
use crate::growth::{FULL_OVER, over_of};
use crate::place::{Place, halved, items_of, mate, open_place};
use crate::ranked::Ranked;
use std::alloc::Allocator;

impl<T: Ranked, A: Allocator + Copy> BlockRow<T, A> {
    fn begin(&mut self, item: T)
        requires none { self.old.blocks ≡ [] }
        requires capacity { 1 ≤ self.old.spare }
        ensures blocks { self.new.blocks ≡ (item ∷ []) ∷ [] }
        ensures spare { self.old.spare ≤ self.new.spare + 1 }
    {
        let mut block = Block::take_from(&mut self.empty);
        self.least = item.weight();
        block.insert(0, item);
        block.put_into(&mut self.used, 0);
        self.len = 1;
    }

    fn cut(&mut self, block: usize)
        requires block { block < length self.old.blocks }
        requires full { length (block_of self.old.blocks block) ≡ 128 }
        requires capacity { 1 ≤ self.old.spare }
        ensures blocks { self.new.blocks ≡ cut_at block self.old.blocks }
        ensures spare { self.old.spare ≤ self.new.spare + 1 }
    {
        let mut high = Block::take_from(&mut self.empty);
        self.used[block].cut(&mut high);
        high.put_into(&mut self.used, block + 1);
        renew(&mut self.groups, block / GROUP, self.used.as_slice());
        self.over -= FULL_OVER;
    }

    fn put(&mut self, place: Place, item: T)
        requires block { place.block < length self.old.blocks }
        requires within { place.at ≤ length (block_of self.old.blocks place.block) }
        requires short { length (block_of self.old.blocks place.block) < 128 }
        requires capacity { 64 < length (block_of self.old.blocks place.block) → 1 ≤ self.old.spare }
        ensures blocks { self.new.blocks ≡ slice_set self.old.blocks place.block (insert (block_of self.old.blocks place.block) place.at item) }
        ensures spare { self.old.spare ≤ self.new.spare + 1 }
        ensures kept { length (block_of self.old.blocks place.block) ≤ 64 → self.new.spare ≡ self.old.spare }
    {
        let len = items_of(self.used.as_slice(), place.block).len();
        self.least = self.least.min(item.weight());
        put_item(
            self.used.as_mut_slice(),
            self.groups.as_mut_slice(),
            place,
            item,
        );
        self.over = self.over - over_of(len) + over_of(len + 1);
        self.len += 1;
    }

    fn enter(&mut self, place: Place, item: T)
        requires block { place.block < length self.old.blocks }
        requires within { place.at ≤ length (block_of self.old.blocks place.block) }
        requires capacity { 1 ≤ self.old.spare }
        ensures items { flat self.new.blocks ≡ insert (flat self.old.blocks) (start place.block self.old.blocks + place.at) item }
        ensures spare { self.old.spare ≤ self.new.spare + 1 }
    {
        if items_of(self.blocks(), place.block).len() < BLOCK_LIMIT {
            self.put(place, item);
            return;
        }
        self.cut(place.block);
        self.put(halved(place), item);
    }

    pub(crate) fn insert(&mut self, place: Place, item: T)
        requires block { place.block ≤ length self.old.blocks }
        requires within { place.at ≤ length (block_of self.old.blocks place.block) }
        requires capacity { 1 ≤ self.old.spare }
        ensures items { flat self.new.blocks ≡ insert (flat self.old.blocks) (start place.block self.old.blocks + place.at) item }
        ensures spare { self.old.spare ≤ self.new.spare + 1 }
    {
        if self.blocks().is_empty() {
            self.begin(item);
            return;
        }
        let place = open_place(self.blocks(), place);
        self.enter(place, item);
    }

    fn retire(&mut self, block: usize) -> T
        requires block { block < length self.old.blocks }
        requires one { length (block_of self.old.blocks block) ≡ 1 }
        ensures item { result ≡ slice_index_or (block_of self.old.blocks block) 0 result }
        ensures blocks { self.new.blocks ≡ remove self.old.blocks block }
        ensures spare { self.old.spare ≤ self.new.spare }
    {
        let mut last = self.used.remove(block);
        let item = last.remove(0);
        last.keep_in(&mut self.empty);
        renew(&mut self.groups, block / GROUP, self.used.as_slice());
        self.len -= 1;
        item
    }

    fn take_out(&mut self, place: Place) -> T
        requires block { place.block < length self.old.blocks }
        requires at { place.at < length (block_of self.old.blocks place.block) }
        requires several { 2 ≤ length (block_of self.old.blocks place.block) }
        ensures item { result ≡ slice_index_or (block_of self.old.blocks place.block) place.at result }
        ensures blocks { self.new.blocks ≡ slice_set self.old.blocks place.block (remove (block_of self.old.blocks place.block) place.at) }
        ensures spare { self.old.spare ≤ self.new.spare }
    {
        let len = items_of(self.used.as_slice(), place.block).len();
        let item = take_item(self.used.as_mut_slice(), self.groups.as_mut_slice(), place);
        self.over = self.over - over_of(len) + over_of(len - 1);
        self.len -= 1;
        item
    }

    fn join(&mut self, block: usize)
        requires block { block + 1 < length self.old.blocks }
        requires short { length (block_of self.old.blocks block) + length (block_of self.old.blocks (block + 1)) ≤ 64 }
        ensures blocks { self.new.blocks ≡ joined_at block self.old.blocks }
        ensures spare { self.old.spare ≤ self.new.spare }
    {
        let mut next = self.used.remove(block + 1);
        self.used[block].join(&mut next);
        next.keep_in(&mut self.empty);
        renew(&mut self.groups, block / GROUP, self.used.as_slice());
    }

    // A block that is short then joins a neighbour, where both together fill at most half a block.
    pub(crate) fn remove(&mut self, place: Place) -> T
        requires block { place.block < length self.old.blocks }
        requires at { place.at < length (block_of self.old.blocks place.block) }
        ensures item { result ≡ slice_index_or (flat self.old.blocks) (start place.block self.old.blocks + place.at) result }
        ensures items { flat self.new.blocks ≡ remove (flat self.old.blocks) (start place.block self.old.blocks + place.at) }
        ensures spare { self.old.spare ≤ self.new.spare }
    {
        if items_of(self.blocks(), place.block).len() == 1 {
            return self.retire(place.block);
        }
        let item = self.take_out(place);
        if let Some(first) = mate(self.blocks(), place.block) {
            self.join(first);
        }
        item
    }
}
