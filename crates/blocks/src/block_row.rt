// `groups` tells of the first 64 blocks in use, of the next 64, and so on. Where a block comes or goes, which
// happens once for some 64 items that come or go, its group and those behind it are learnt anew, a step a block.
// `over` counts the items of blocks in use above 65 each: a cut takes an empty block and lowers `over` by 63,
// so that each insertion costs at most one of 64 for an empty block.
// `least` is kept as each block keeps its own bound.
ghost use Rattle.std.specs.Prelude.{◌≡◌, ◌≤◌, ◌<◌, ◌^◌, [], IsOk, OnOk, length, sum_by};
ghost use Rattle.blocks.specs.Groups.{AreGroups};
ghost use Rattle.blocks.specs.Light.{IsFirstLight};
ghost use Rattle.blocks.specs.Rows.{AreFilled, flat};

use crate::block::{BLOCK_HALF, Block};
use crate::groups::Group;
use crate::growth::{FULL_OVER, another};
use crate::light::{Wanted, first_light, least_of_all};
use crate::ranked::Ranked;
use std::alloc::Allocator;
use std::marker::Model;
use swf_text::Memory;

/// Items in blocks, in no order of their own, and empty blocks that wait to be of use.
#[derive(Drop)]
pub(crate) struct BlockRow<T: Ranked, A: Allocator + Copy> {
    pub(crate) used: Vec<Block<T, A>, A>,
    pub(crate) empty: Vec<Block<T, A>, A>,
    pub(crate) groups: Vec<Group, A>,
    pub(crate) over: usize,
    pub(crate) len: usize,
    pub(crate) least: u64,
}

impl<T: Ranked, A: Allocator + Copy> Model for BlockRow<T, A> {
    ghost use Rattle.std.specs.Prelude.{◌≤◌, ◌<◌, ◌+◌, ◌*◌, ◌^◌, All, length, vec_capacity};
    ghost use Rattle.blocks.specs.Groups.{AreGroups};
    ghost use Rattle.blocks.specs.Rows.{BlocksView, IsRow, flat, capacity_of};

    ghost Value = { BlocksView T };

    ghost view = { λ r. record { blocks = r.used.items; spare = capacity_of (length r.used.items) (length r.empty.items) r.over } };

    ghost invariant = { λ r. IsRow r.used.items r.empty.items r.over r.len (vec_capacity r.used) (vec_capacity r.empty) × All (λ x. r.least ≤ T.weight x) (flat r.used.items) × AreGroups T.weight r.used.items r.groups.items × (length r.used.items + length r.empty.items ≤ 64 * vec_capacity r.groups + 63) × All (λ x. T.weight x < 2 ^ 64) (flat r.used.items) };
}

impl<T: Ranked, A: Allocator + Copy> BlockRow<T, A> {
    pub(crate) fn new(alloc: A) -> BlockRow<T, A>
        ensures { result.blocks ≡ [] }
    {
        BlockRow {
            used: Vec::new(alloc),
            empty: Vec::new(alloc),
            groups: Vec::new(alloc),
            over: 0,
            len: 0,
            least: u64::MAX,
        }
    }

    pub(crate) fn blocks(&self) -> &[Block<T, A>]
        ensures blocks { result.now ≡ self.now.blocks }
        ensures filled { AreFilled self.now.blocks }
        ensures few { length self.now.blocks ≤ 2 ^ 40 }
    {
        let _len = &self.len;
        self.used.as_slice()
    }

    pub(crate) fn groups(&self) -> &[Group]
        ensures known { AreGroups T.weight self.now.blocks result.now }
        ensures light { sum_by T.weight (flat self.now.blocks) < 2 ^ 127 }
    {
        let _len = &self.len;
        self.groups.as_slice()
    }

    pub(crate) fn len(&self) -> usize
        ensures { result ≡ length (flat self.now.blocks) }
    {
        self.len
    }

    pub(crate) fn spare(&self) -> usize
        ensures { result ≡ self.now.spare }
    {
        let first = FULL_OVER * 1_usize.saturating_sub(self.used.len());
        let capacity = (BLOCK_HALF * self.empty.len()).saturating_sub(first);
        capacity.saturating_sub(self.over)
    }

    pub(crate) fn reserve(&mut self, count: usize) -> Result<(), Memory>
        ensures blocks { self.new.blocks ≡ self.old.blocks }
        ensures ok { OnOk result (count ≤ self.new.spare) }
        ensures kept { self.old.spare ≤ self.new.spare }
        ensures capacity { count ≤ self.old.spare → IsOk result }
    {
        'capacity: while self.spare() < count {
            let block = another(&mut self.used, &mut self.empty, &mut self.groups)?;
            block.keep_in(&mut self.empty);
        }
        Ok(())
    }

    fn look(&mut self, wanted: Wanted) -> Option<usize>
        ensures place { IsFirstLight T.weight wanted.limit (flat self.old.blocks) wanted.from wanted.end result }
        ensures same { self.new ≡ self.old }
    {
        first_light(self.used.as_mut_slice(), self.groups.as_mut_slice(), wanted)
    }

    pub(crate) fn first_light(&mut self, from: usize, end: usize, limit: u64) -> Option<usize>
        ensures place { IsFirstLight T.weight limit (flat self.old.blocks) from end result }
        ensures same { self.new ≡ self.old }
    {
        if limit < self.least {
            return None;
        }
        let found = self.look(Wanted { from, end, limit });
        if found.is_none() && self.len <= end {
            self.least = least_of_all(self.used.as_slice(), self.groups.as_slice());
        }
        found
    }
}
