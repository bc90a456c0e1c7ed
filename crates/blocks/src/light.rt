// A search passes over each block that is known not to have the wanted place. Where all of a group was looked
// at for nothing, it is known from then on what its items weigh at least.
ghost use Rattle.std.specs.Prelude.{◌≡◌, ℕ, ◌≤◌, ◌<◌, ◌+◌, ◌*◌, ◌^◌, All, None, Some, if◌then◌else◌, length, nat_lt};
ghost use Rattle.blocks.specs.Groups.{AreGrouped, AreGroups};
ghost use Rattle.blocks.specs.Light.{IsFirstLight, IsFirstUntil, NoneWithin};
ghost use Rattle.blocks.specs.Rows.{block_of, flat, start};

use crate::block::Block;
use crate::groups::{GROUP, Group};
use crate::ranked::Ranked;
use std::alloc::Allocator;

pub(crate) fn least_of<T: Ranked, A: Allocator + Copy>(
    blocks: &[Block<T, A>],
    first: usize,
    last: usize,
) -> u64
    requires { last ≤ length blocks.now }
    ensures { (block : ℕ) → first ≤ block → block < last → All (λ x. result ≤ T.weight x) (block_of blocks.now block) }
{
    let mut least = u64::MAX;
    for number in first..last {
        least = least.min(blocks[number].least());
    }
    least
}

fn least_of_groups(groups: &[Group]) -> u64
    ensures { All (λ g. result ≤ g.least) groups.now }
{
    let mut least = u64::MAX;
    for number in 0..groups.len() {
        let group = groups[number];
        least = least.min(group.least);
    }
    least
}

pub(crate) fn least_of_all<T: Ranked, A: Allocator + Copy>(
    blocks: &[Block<T, A>],
    groups: &[Group],
) -> u64
    requires short { length blocks.now ≤ 2 ^ 40 }
    requires groups { AreGroups T.weight blocks.now groups.now }
    ensures { All (λ x. result ≤ T.weight x) (flat blocks.now) }
{
    let rest = least_of(blocks, GROUP * groups.len(), blocks.len());
    least_of_groups(groups).min(rest)
}

fn within(place: usize, end: usize) -> Option<usize>
    ensures { result ≡ if nat_lt place end then Some place else None }
{
    if place < end { Some(place) } else { None }
}

/// Which place is wanted: the first one from one to another whose item weighs at most so much.
#[derive(Clone, Copy)]
pub(crate) struct Wanted {
    pub(crate) from: usize,
    pub(crate) end: usize,
    pub(crate) limit: u64,
}

fn light_within<T: Ranked, A: Allocator + Copy>(
    blocks: &mut [Block<T, A>],
    first: usize,
    last: usize,
    begin: usize,
    wanted: Wanted,
) -> Option<usize>
    requires order { first ≤ last }
    requires within { last ≤ length blocks.old }
    requires few { length (flat blocks.old) < 2 ^ 64 }
    requires begin { begin ≡ start first blocks.old }
    requires none { NoneWithin T.weight wanted.limit (flat blocks.old) wanted.from wanted.end begin }
    ensures place { IsFirstUntil T.weight wanted.limit (flat blocks.old) wanted.from wanted.end (start last blocks.old) result }
    ensures same { blocks.new ≡ blocks.old }
{
    let mut start = begin;
    for number in first..last {
        if wanted.end <= start {
            return None;
        }
        let len = blocks[number].as_slice().len();
        let from = wanted.from.saturating_sub(start);
        if let Some(at) = blocks[number].first_light(from, wanted.limit) {
            return within(start + at, wanted.end);
        }
        start += len;
    }
    None
}

fn light_in_group<T: Ranked, A: Allocator + Copy>(
    blocks: &mut [Block<T, A>],
    groups: &mut [Group],
    number: usize,
    begin: usize,
    wanted: Wanted,
) -> Option<usize>
    requires number { number < length groups.old }
    requires grouped { AreGrouped T.weight blocks.old groups.old }
    requires begin { begin ≡ start (64 * number) blocks.old }
    requires none { NoneWithin T.weight wanted.limit (flat blocks.old) wanted.from wanted.end begin }
    ensures place { IsFirstUntil T.weight wanted.limit (flat blocks.old) wanted.from wanted.end (start (64 * number + 64) blocks.old) result }
    ensures same { blocks.new ≡ blocks.old }
    ensures groups { AreGroups T.weight blocks.old groups.new }
    ensures len { length groups.new ≡ length groups.old }
{
    let group = groups[number];
    let next = begin + group.items;
    if next <= wanted.from || wanted.limit < group.least {
        return None;
    }
    let first = GROUP * number;
    let found = light_within(blocks, first, first + GROUP, begin, wanted);
    if found.is_none() && wanted.from <= begin && next <= wanted.end {
        let least = least_of(blocks, first, first + GROUP);
        groups[number] = Group { least, ..group };
    }
    found
}

pub(crate) fn first_light<T: Ranked, A: Allocator + Copy>(
    blocks: &mut [Block<T, A>],
    groups: &mut [Group],
    wanted: Wanted,
) -> Option<usize>
    requires { AreGrouped T.weight blocks.old groups.old }
    ensures place { IsFirstLight T.weight wanted.limit (flat blocks.old) wanted.from wanted.end result }
    ensures same { blocks.new ≡ blocks.old }
    ensures groups { AreGroups T.weight blocks.old groups.new }
    ensures len { length groups.new ≡ length groups.old }
{
    let mut start = 0;
    for number in 0..groups.len() {
        if wanted.end <= start {
            return None;
        }
        let group = groups[number];
        if let Some(place) = light_in_group(blocks, groups, number, start, wanted) {
            return Some(place);
        }
        start += group.items;
    }
    let last = blocks.len();
    light_within(blocks, GROUP * groups.len(), last, start, wanted)
}
