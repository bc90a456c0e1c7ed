ghost use Rattle.std.specs.Prelude.{◌≡◌, ◌≤◌, ◌<◌, ◌+◌, ◌^◌, IfSome, MatchOption, None, find, length, not, slice_get};
ghost use Rattle.std.specs.List.{position_or_len, remove};
ghost use Rattle.std.specs.List.Sorted.{IsPartitionedBy};
ghost use Rattle.blocks.specs.Groups.{AreGroups};
ghost use Rattle.blocks.specs.Rows.{AreBefore, AreFilled, Rises, block_of, ends_by, flat, is_at, passes, place_in, stands, start, without_first};

use crate::block::Block;
use crate::groups::Group;
use crate::place::{Place, items_of};
use crate::ranked::Ranked;
use crate::walk::start_of;
use std::alloc::Allocator;

#[inline]
fn is_before<T: Ranked>(item: &T, major: u128, minor: u64) -> bool
    ensures { result ≡ stands T.major T.minor major minor item.now }
{
    let own = item.major();
    own < major || (own == major && item.minor() < minor)
}

fn block_before<T: Ranked, A: Allocator + Copy>(
    blocks: &[Block<T, A>],
    major: u128,
    minor: u64,
) -> usize
    requires filled { AreFilled blocks.now }
    requires parted { IsPartitionedBy (stands T.major T.minor major minor) (flat blocks.now) }
    ensures within { result ≤ length blocks.now }
    ensures place { result ≡ position_or_len (λ block. not (ends_by (stands T.major T.minor major minor) block)) blocks.now }
{
    let mut low = 0;
    let mut high = blocks.len();
    'halves: while low < high {
        let middle = low + (high - low) / 2;
        if blocks[middle].ends_before(major, minor) {
            low = middle + 1;
        } else {
            high = middle;
        }
    }
    low
}

fn before<T: Ranked>(items: &[T], major: u128, minor: u64) -> usize
    requires { IsPartitionedBy (stands T.major T.minor major minor) items.now }
    ensures within { result ≤ length items.now }
    ensures place { result ≡ position_or_len (λ x. not (stands T.major T.minor major minor x)) items.now }
{
    let mut low = 0;
    let mut high = items.len();
    'halves: while low < high {
        let middle = low + (high - low) / 2;
        if is_before(&items[middle], major, minor) {
            low = middle + 1;
        } else {
            high = middle;
        }
    }
    low
}

pub(crate) fn place_of<T: Ranked, A: Allocator + Copy>(
    blocks: &[Block<T, A>],
    major: u128,
    minor: u64,
) -> Place
    requires filled { AreFilled blocks.now }
    requires parted { IsPartitionedBy (stands T.major T.minor major minor) (flat blocks.now) }
    ensures block { result.block ≤ length blocks.now }
    ensures within { result.at ≤ length (block_of blocks.now result.block) }
    ensures place { start result.block blocks.now + result.at ≡ place_in T.major T.minor major minor (flat blocks.now) }
    ensures there { result.block < length blocks.now → result.at < length (block_of blocks.now result.block) }
{
    let block = block_before(blocks, major, minor);
    let at = before(items_of(blocks, block), major, minor);
    Place { block, at }
}

pub(crate) fn count_before<T: Ranked, A: Allocator + Copy>(
    blocks: &[Block<T, A>],
    groups: &[Group],
    major: u128,
    minor: u64,
) -> usize
    requires filled { AreFilled blocks.now }
    requires rises { Rises T.major T.minor (flat blocks.now) }
    requires few { length (flat blocks.now) < 2 ^ 64 }
    requires groups { AreGroups T.weight blocks.now groups.now }
    ensures { AreBefore T.major T.minor major minor (flat blocks.now) result }
{
    let place = place_of(blocks, major, minor);
    start_of(blocks, groups, place.block) + place.at
}

fn is_at<T: Ranked>(item: &T, major: u128, minor: u64) -> bool
    ensures { result ≡ is_at T.major T.minor major minor item.now }
{
    item.major() == major && item.minor() == minor
}

fn has_at<T: Ranked>(items: &[T], at: usize, major: u128, minor: u64) -> bool
    ensures { result ≡ passes (is_at T.major T.minor major minor) (slice_get items.now at) }
{
    match items.get(at) {
        Some(item) => is_at(item, major, minor),
        None => false,
    }
}

pub(crate) fn place_with<T: Ranked, A: Allocator + Copy>(
    blocks: &[Block<T, A>],
    major: u128,
    minor: u64,
) -> Option<Place>
    requires filled { AreFilled blocks.now }
    requires rises { Rises T.major T.minor (flat blocks.now) }
    ensures block { IfSome result (λ place. place.block < length blocks.now) }
    ensures at { IfSome result (λ place. place.at < length (block_of blocks.now place.block)) }
    ensures item { MatchOption result (find (is_at T.major T.minor major minor) (flat blocks.now) ≡ None) (λ place. find (is_at T.major T.minor major minor) (flat blocks.now) ≡ slice_get (flat blocks.now) (start place.block blocks.now + place.at)) }
    ensures left { MatchOption result (without_first (is_at T.major T.minor major minor) (flat blocks.now) ≡ flat blocks.now) (λ place. without_first (is_at T.major T.minor major minor) (flat blocks.now) ≡ remove (flat blocks.now) (start place.block blocks.now + place.at)) }
{
    let place = place_of(blocks, major, minor);
    if has_at(items_of(blocks, place.block), place.at, major, minor) {
        return Some(place);
    }
    None
}
