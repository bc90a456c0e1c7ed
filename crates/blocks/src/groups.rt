// `least` is kept as each block keeps its own bound. Once a block came or went, the groups from its own on are
// learnt anew.
ghost use Rattle.std.specs.Prelude.{◌≡◌, ◌≤◌, ◌<◌, ◌+◌, ◌*◌, ◌-◌, ◌/◌, ◌^◌, length, slice_index_or, slice_set, sum_by, take, vec_capacity};
ghost use Rattle.std.specs.List.{insert, remove};
ghost use Rattle.blocks.specs.Groups.{AreGroups, IsGroup};
ghost use Rattle.blocks.specs.Rows.{block_of, flat};

use crate::block::Block;
use crate::front::weight_in;
use crate::light::least_of;
use crate::place::Place;
use crate::ranked::Ranked;
use crate::walk::items_in;
use std::alloc::Allocator;

/// How many blocks a group has.
pub(crate) const GROUP: usize = 64;

/// What is known of 64 blocks that follow each other.
#[derive(Clone, Copy)]
pub(crate) struct Group {
    pub(crate) items: usize,
    pub(crate) weight: u128,
    pub(crate) least: u64,
}

fn group_from<T: Ranked, A: Allocator + Copy>(blocks: &[Block<T, A>], first: usize) -> Group
    requires there { first + 64 ≤ length blocks.now }
    requires few { length (flat blocks.now) < 2 ^ 64 }
    requires light { sum_by T.weight (flat blocks.now) < 2 ^ 127 }
    ensures { IsGroup T.weight blocks.now first result }
{
    Group {
        items: items_in(blocks, first, first + GROUP),
        weight: weight_in(blocks, first, first + GROUP),
        least: least_of(blocks, first, first + GROUP),
    }
}

pub(crate) fn renew<T: Ranked, A: Allocator + Copy>(
    groups: &mut Vec<Group, A>,
    first: usize,
    blocks: &[Block<T, A>],
)
    requires few { length (flat blocks.now) < 2 ^ 64 }
    requires light { sum_by T.weight (flat blocks.now) < 2 ^ 127 }
    requires groups { AreGroups T.weight blocks.now (take first groups.old.items) }
    requires capacity { length blocks.now ≤ 64 * vec_capacity groups.old + 63 }
    ensures groups { AreGroups T.weight blocks.now groups.new.items }
    ensures capacity { vec_capacity groups.old ≤ vec_capacity groups.new }
{
    groups.truncate(first);
    'missing: while groups.len() < blocks.len() / GROUP {
        let group = group_from(blocks, GROUP * groups.len());
        let Ok(()) = groups.push(group) else {
            unreachable!()
        };
    }
}

pub(crate) fn put_item<T: Ranked, A: Allocator + Copy>(
    blocks: &mut [Block<T, A>],
    groups: &mut [Group],
    place: Place,
    item: T,
)
    requires block { place.block < length blocks.old }
    requires within { place.at ≤ length (block_of blocks.old place.block) }
    requires short { length (block_of blocks.old place.block) < 128 }
    requires few { length (flat blocks.old) < 2 ^ 63 }
    requires light { sum_by T.weight (flat blocks.old) < 2 ^ 127 }
    requires groups { AreGroups T.weight blocks.old groups.old }
    ensures blocks { blocks.new ≡ slice_set blocks.old place.block (insert (block_of blocks.old place.block) place.at item) }
    ensures groups { AreGroups T.weight blocks.new groups.new }
{
    let weight = item.weight();
    let number = place.block / GROUP;
    if number < groups.len() {
        let group = groups[number];
        groups[number] = Group {
            items: group.items + 1,
            weight: group.weight + u128::from(weight),
            least: group.least.min(weight),
        };
    }
    blocks[place.block].insert(place.at, item);
}

pub(crate) fn take_item<T: Ranked, A: Allocator + Copy>(
    blocks: &mut [Block<T, A>],
    groups: &mut [Group],
    place: Place,
) -> T
    requires block { place.block < length blocks.old }
    requires at { place.at < length (block_of blocks.old place.block) }
    requires few { length (flat blocks.old) < 2 ^ 64 }
    requires groups { AreGroups T.weight blocks.old groups.old }
    ensures item { result ≡ slice_index_or (block_of blocks.old place.block) place.at result }
    ensures blocks { blocks.new ≡ slice_set blocks.old place.block (remove (block_of blocks.old place.block) place.at) }
    ensures groups { AreGroups T.weight blocks.new groups.new }
{
    let item = blocks[place.block].remove(place.at);
    let number = place.block / GROUP;
    if number < groups.len() {
        let group = groups[number];
        groups[number] = Group {
            items: group.items - 1,
            weight: group.weight - u128::from(item.weight()),
            ..group
        };
    }
    item
}
