ghost use Rattle.std.specs.Prelude.{◌≡◌, ◌≤◌, ◌<◌, ◌+◌, ◌↔◌, [], IsOk, IsTrue, OnErr, OnOk, drop, find, length, option_copied, slice_get, slice_index_or, sum_by, take};
ghost use Rattle.blocks.specs.Light.{IsFirstLight};
ghost use Rattle.blocks.specs.Rows.{AreBefore, AreFilled, Rises, block_of, entered, flat, is_at, place_in, without_first};

use crate::block_row::BlockRow;
use crate::front::{lighter, weight_before};
use crate::items::Items;
use crate::ranked::Ranked;
use crate::search::{count_before, place_of, place_with};
use crate::walk::item_at;
use std::alloc::Allocator;
use std::marker::Model;
use swf_text::Memory;

/// Items that rise by their two numbers, in blocks of 1 to 128, each of which knows what its items
/// weigh together. An item more or less touches one block, or two that are cut or joined. Blocks that
/// are empty are kept, so that it is known how many insertions take no memory. Contracts see the
/// blocks, each with its items, and how many insertions surely find capacity.
#[derive(Drop)]
pub struct Blocks<T: Ranked, A: Allocator + Copy> {
    row: BlockRow<T, A>,
}

impl<T: Ranked, A: Allocator + Copy> Model for Blocks<T, A> {
    ghost use Rattle.blocks.specs.Rows.{BlocksView, Rises, flat};

    ghost Value = { BlocksView T };

    ghost view = { λ b. b.row };

    ghost invariant = { λ b. Rises T.major T.minor (flat b.row.blocks) };
}

impl<T: Ranked, A: Allocator + Copy> Blocks<T, A> {
    /// No items. It takes no memory.
    pub fn new(alloc: A) -> Blocks<T, A>
        ensures { result.blocks ≡ [] }
    {
        Blocks {
            row: BlockRow::new(alloc),
        }
    }

    /// How many items there are.
    pub fn len(&self) -> usize
        ensures { result ≡ length (flat self.now.blocks) }
    {
        self.row.len()
    }

    /// Whether there is none.
    pub fn is_empty(&self) -> bool
        ensures { IsTrue result ↔ (flat self.now.blocks ≡ []) }
    {
        self.row.len() == 0
    }

    /// How many insertions surely find capacity.
    pub fn spare(&self) -> usize
        ensures { result ≡ self.now.spare }
    {
        self.row.spare()
    }

    /// Reserves capacity for so many insertions. Where there is capacity for them it takes no memory.
    ///
    /// Memory where a growth was refused; the capacity may then be greater than it was, too.
    pub fn reserve(&mut self, count: usize) -> Result<(), Memory>
        ensures blocks { self.new.blocks ≡ self.old.blocks }
        ensures ok { OnOk result (count ≤ self.new.spare) }
        ensures kept { self.old.spare ≤ self.new.spare }
        ensures capacity { count ≤ self.old.spare → IsOk result }
    {
        self.row.reserve(count)
    }

    /// Puts one item more before the first that doesn't stand before it, where there is capacity.
    pub fn insert(&mut self, item: T)
        requires { 1 ≤ self.old.spare }
        ensures items { flat self.new.blocks ≡ entered T.major T.minor item (flat self.old.blocks) }
        ensures spare { self.old.spare ≤ self.new.spare + 1 }
    {
        let place = place_of(self.row.blocks(), item.major(), item.minor());
        self.row.insert(place, item);
    }

    /// Takes the first item with these two numbers out; None where there is none. It takes no memory.
    pub fn remove(&mut self, major: u128, minor: u64) -> Option<T>
        ensures item { result ≡ find (is_at T.major T.minor major minor) (flat self.old.blocks) }
        ensures left { flat self.new.blocks ≡ without_first (is_at T.major T.minor major minor) (flat self.old.blocks) }
        ensures spare { self.old.spare ≤ self.new.spare }
    {
        let place = place_with(self.row.blocks(), major, minor)?;
        Some(self.row.remove(place))
    }

    /// The item at a place; None past the last one. It takes a step for each 64 blocks before it, and at
    /// most 64 for the last ones.
    pub fn at(&self, place: usize) -> Option<&T>
        ensures { option_copied result ≡ slice_get (flat self.now.blocks) place }
    {
        item_at(self.row.blocks(), self.row.groups(), place)
    }

    /// How many blocks there are.
    pub fn blocks(&self) -> usize
        ensures value { result ≡ length self.now.blocks }
        ensures filled { AreFilled self.now.blocks }
        ensures rises { Rises T.major T.minor (flat self.now.blocks) }
    {
        self.row.blocks().len()
    }

    /// The items of a block.
    pub fn block(&self, number: usize) -> &[T]
        requires { number < length self.now.blocks }
        ensures { result.now ≡ slice_index_or self.now.blocks number [] }
    {
        self.row.blocks()[number].as_slice()
    }

    /// What the items of a block weigh together. It takes one step.
    pub fn weight(&self, number: usize) -> u128
        requires { number < length self.now.blocks }
        ensures { result ≡ sum_by T.weight (slice_index_or self.now.blocks number []) }
    {
        self.row.blocks()[number].weight()
    }

    /// How many first blocks weigh together less than this, and what they weigh: as many as there are
    /// until another one makes it this or more. It takes one step for each 64 of them, and at most 64.
    pub fn lighter(&self, than: u128) -> (usize, u128)
        ensures within { result.0 ≤ length self.now.blocks }
        ensures weight { result.1 ≡ sum_by T.weight (flat (take result.0 self.now.blocks)) }
        ensures less { 1 ≤ than → result.1 < than }
        ensures most { result.0 < length self.now.blocks → than ≤ result.1 + sum_by T.weight (block_of self.now.blocks result.0) }
    {
        lighter(self.row.blocks(), self.row.groups(), than)
    }

    /// What the items before one with these two numbers weigh together. It takes one step for each 64
    /// blocks of them, and at most 64 for the last ones.
    pub fn weight_before(&self, major: u128, minor: u64) -> u128
        ensures { result ≡ sum_by T.weight (take (place_in T.major T.minor major minor (flat self.now.blocks)) (flat self.now.blocks)) }
    {
        weight_before(self.row.blocks(), self.row.groups(), major, minor)
    }

    /// How many items stand before one with these two numbers. It takes a step for each 64 blocks of them,
    /// and at most 64 for the last ones.
    pub fn before(&self, major: u128, minor: u64) -> usize
        ensures { AreBefore T.major T.minor major minor (flat self.now.blocks) result }
    {
        let _len = self.row.len();
        count_before(self.row.blocks(), self.row.groups(), major, minor)
    }

    /// The first place from one to another whose item weighs at most so much; None where there is none.
    /// Blocks are passed over of which it is known that all their items weigh more; where a block was
    /// looked through for nothing, that is known of it from then on. So it is of all blocks together,
    /// once a search up to the end found nothing: a search that can find nothing then takes one step.
    pub fn first_light(&mut self, from: usize, end: usize, limit: u64) -> Option<usize>
        ensures place { IsFirstLight T.weight limit (flat self.old.blocks) from end result }
        ensures same { self.new ≡ self.old }
    {
        self.row.first_light(from, end, limit)
    }

    /// All items, in order.
    pub fn iter(&self) -> Items<'_, T, A>
        ensures { result ≡ flat self.now.blocks }
    {
        Items::of(self.row.blocks())
    }

    /// The items of the blocks from this one on, in order.
    pub fn iter_from(&self, block: usize) -> Items<'_, T, A>
        requires { block ≤ length self.now.blocks }
        ensures { result ≡ flat (drop block self.now.blocks) }
    {
        Items::of(&self.row.blocks()[block..])
    }
}
