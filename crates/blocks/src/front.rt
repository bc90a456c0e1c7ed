// Groups are passed over first, then blocks. What is left of the weight is handed on, so that no sum is too large.
ghost use Rattle.std.specs.Prelude.{◌≡◌, ◌≤◌, ◌<◌, ◌+◌, ◌*◌, ◌^◌, length, sum_by, take};
ghost use Rattle.std.specs.List.Sorted.{IsPartitionedBy};
ghost use Rattle.blocks.specs.Groups.{AreGroups};
ghost use Rattle.blocks.specs.Rows.{AreFilled, block_of, flat, place_in, stands, weight_to};

use crate::block::Block;
use crate::groups::{GROUP, Group};
use crate::ranked::Ranked;
use crate::search::place_of;
use std::alloc::Allocator;

fn lighter_groups(groups: &[Group], than: u128) -> (usize, u128)
    ensures within { result.0 ≤ length groups.now }
    ensures left { sum_by (λ g. g.weight) (take result.0 groups.now) + result.1 ≡ than }
    ensures some { 1 ≤ than → 1 ≤ result.1 }
{
    let mut left = than;
    for number in 0..groups.len() {
        let group = groups[number];
        if left <= group.weight {
            return (number, left);
        }
        left -= group.weight;
    }
    (groups.len(), left)
}

fn lighter_from<T: Ranked, A: Allocator + Copy>(
    blocks: &[Block<T, A>],
    first: usize,
    than: u128,
) -> (usize, u128)
    requires { first ≤ length blocks.now }
    ensures within { result.0 ≤ length blocks.now }
    ensures left { weight_to T.weight first blocks.now + than ≡ weight_to T.weight result.0 blocks.now + result.1 }
    ensures some { 1 ≤ than → 1 ≤ result.1 }
    ensures most { result.0 < length blocks.now → result.1 ≤ sum_by T.weight (block_of blocks.now result.0) }
{
    let mut left = than;
    for number in first..blocks.len() {
        let weight = blocks[number].weight();
        if left <= weight {
            return (number, left);
        }
        left -= weight;
    }
    (blocks.len(), left)
}

pub(crate) fn lighter<T: Ranked, A: Allocator + Copy>(
    blocks: &[Block<T, A>],
    groups: &[Group],
    than: u128,
) -> (usize, u128)
    requires few { length blocks.now ≤ 2 ^ 40 }
    requires groups { AreGroups T.weight blocks.now groups.now }
    ensures within { result.0 ≤ length blocks.now }
    ensures weight { result.1 ≡ weight_to T.weight result.0 blocks.now }
    ensures less { 1 ≤ than → result.1 < than }
    ensures most { result.0 < length blocks.now → than ≤ result.1 + sum_by T.weight (block_of blocks.now result.0) }
{
    let (whole, rest) = lighter_groups(groups, than);
    let (count, left) = lighter_from(blocks, GROUP * whole, rest);
    (count, than - left)
}

pub(crate) fn weight_in<T: Ranked, A: Allocator + Copy>(
    blocks: &[Block<T, A>],
    first: usize,
    last: usize,
) -> u128
    requires order { first ≤ last }
    requires within { last ≤ length blocks.now }
    requires light { sum_by T.weight (flat blocks.now) < 2 ^ 127 }
    ensures { weight_to T.weight first blocks.now + result ≡ weight_to T.weight last blocks.now }
{
    let mut weight = 0;
    for number in first..last {
        weight += blocks[number].weight();
    }
    weight
}

fn weight_of_groups(groups: &[Group], count: usize) -> u128
    requires within { count ≤ length groups.now }
    requires light { sum_by (λ g. g.weight) groups.now < 2 ^ 127 }
    ensures { result ≡ sum_by (λ g. g.weight) (take count groups.now) }
{
    let mut weight = 0;
    for number in 0..count {
        weight += groups[number].weight;
    }
    weight
}

fn weight_of_blocks<T: Ranked, A: Allocator + Copy>(
    blocks: &[Block<T, A>],
    groups: &[Group],
    count: usize,
) -> u128
    requires within { count ≤ length blocks.now }
    requires light { sum_by T.weight (flat blocks.now) < 2 ^ 127 }
    requires groups { AreGroups T.weight blocks.now groups.now }
    ensures { result ≡ weight_to T.weight count blocks.now }
{
    let whole = groups.len().min(count / GROUP);
    weight_of_groups(groups, whole) + weight_in(blocks, GROUP * whole, count)
}

pub(crate) fn weight_before<T: Ranked, A: Allocator + Copy>(
    blocks: &[Block<T, A>],
    groups: &[Group],
    major: u128,
    minor: u64,
) -> u128
    requires light { sum_by T.weight (flat blocks.now) < 2 ^ 127 }
    requires groups { AreGroups T.weight blocks.now groups.now }
    requires filled { AreFilled blocks.now }
    requires parted { IsPartitionedBy (stands T.major T.minor major minor) (flat blocks.now) }
    ensures { result ≡ sum_by T.weight (take (place_in T.major T.minor major minor (flat blocks.now)) (flat blocks.now)) }
{
    let place = place_of(blocks, major, minor);
    let whole = weight_of_blocks(blocks, groups, place.block);
    if place.block < blocks.len() {
        return whole + blocks[place.block].weight_of_first(place.at);
    }
    whole
}
