ghost use Rattle.std.specs.Prelude.{◌≡◌, ◌≤◌, ◌<◌, ◌+◌, ◌^◌, drop, length, option_copied, slice_get, sum_by, take};
ghost use Rattle.blocks.specs.Groups.{AreGroups};
ghost use Rattle.blocks.specs.Rows.{flat, start};

use crate::block::Block;
use crate::groups::{GROUP, Group};
use crate::ranked::Ranked;
use std::alloc::Allocator;

pub(crate) fn items_in<T: Ranked, A: Allocator + Copy>(
    blocks: &[Block<T, A>],
    first: usize,
    last: usize,
) -> usize
    requires order { first ≤ last }
    requires within { last ≤ length blocks.now }
    requires few { length (flat blocks.now) < 2 ^ 64 }
    ensures { start first blocks.now + result ≡ start last blocks.now }
{
    let mut items = 0;
    for number in first..last {
        items += blocks[number].as_slice().len();
    }
    items
}

fn items_of_groups(groups: &[Group], count: usize) -> usize
    requires within { count ≤ length groups.now }
    requires few { sum_by (λ g. g.items) groups.now < 2 ^ 64 }
    ensures { result ≡ sum_by (λ g. g.items) (take count groups.now) }
{
    let mut items = 0;
    for number in 0..count {
        items += groups[number].items;
    }
    items
}

pub(crate) fn start_of<T: Ranked, A: Allocator + Copy>(
    blocks: &[Block<T, A>],
    groups: &[Group],
    block: usize,
) -> usize
    requires within { block ≤ length blocks.now }
    requires few { length (flat blocks.now) < 2 ^ 64 }
    requires groups { AreGroups T.weight blocks.now groups.now }
    ensures { result ≡ start block blocks.now }
{
    let whole = groups.len().min(block / GROUP);
    items_of_groups(groups, whole) + items_in(blocks, GROUP * whole, block)
}

fn groups_before(groups: &[Group], place: usize) -> (usize, usize)
    ensures within { result.0 ≤ length groups.now }
    ensures place { sum_by (λ g. g.items) (take result.0 groups.now) + result.1 ≡ place }
{
    let mut left = place;
    for number in 0..groups.len() {
        let items = groups[number].items;
        if left < items {
            return (number, left);
        }
        left -= items;
    }
    (groups.len(), left)
}

fn item_from<T: Ranked, A: Allocator + Copy>(
    blocks: &[Block<T, A>],
    first: usize,
    place: usize,
) -> Option<&T>
    requires { first ≤ length blocks.now }
    ensures { option_copied result ≡ slice_get (flat (drop first blocks.now)) place }
{
    let mut left = place;
    for number in first..blocks.len() {
        let items = blocks[number].as_slice();
        if left < items.len() {
            return items.get(left);
        }
        left -= items.len();
    }
    None
}

pub(crate) fn item_at<'a, T: Ranked, A: Allocator + Copy>(
    blocks: &'a [Block<T, A>],
    groups: &[Group],
    place: usize,
) -> Option<&'a T>
    requires few { length blocks.now ≤ 2 ^ 40 }
    requires groups { AreGroups T.weight blocks.now groups.now }
    ensures { option_copied result ≡ slice_get (flat blocks.now) place }
{
    let (group, left) = groups_before(groups, place);
    item_from(blocks, GROUP * group, left)
}
