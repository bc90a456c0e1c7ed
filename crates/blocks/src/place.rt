ghost use Rattle.std.specs.Prelude.{◌≡◌, ◌≤◌, ◌<◌, ◌+◌, ◌-◌, ◌^◌, IfSome, length};
ghost use Rattle.blocks.specs.Rows.{block_of, start};

use crate::block::{BLOCK_HALF, BLOCK_LIMIT, Block};
use crate::ranked::Ranked;
use std::alloc::Allocator;

/// A place in a row of blocks: a block, and a place in it.
#[derive(Clone, Copy)]
pub(crate) struct Place {
    pub(crate) block: usize,
    pub(crate) at: usize,
}

pub(crate) fn items_of<T: Ranked, A: Allocator + Copy>(blocks: &[Block<T, A>], block: usize) -> &[T]
    ensures value { result.now ≡ block_of blocks.now block }
    ensures len { length result.now ≡ length (block_of blocks.now block) }
    ensures most { length result.now ≤ 128 }
{
    if block < blocks.len() {
        blocks[block].as_slice()
    } else {
        &[]
    }
}

pub(crate) fn open_place<T: Ranked, A: Allocator + Copy>(
    blocks: &[Block<T, A>],
    place: Place,
) -> Place
    requires some { 1 ≤ length blocks.now }
    requires block { place.block ≤ length blocks.now }
    requires within { place.at ≤ length (block_of blocks.now place.block) }
    ensures block { result.block < length blocks.now }
    ensures within { result.at ≤ length (block_of blocks.now result.block) }
    ensures place { start result.block blocks.now + result.at ≡ start place.block blocks.now + place.at }
{
    if place.block < blocks.len() {
        return place;
    }
    let block = blocks.len() - 1;
    let at = items_of(blocks, block).len();
    Place { block, at }
}

pub(crate) fn halved(place: Place) -> Place
    requires block { place.block < 2 ^ 40 }
    requires at { place.at ≤ 128 }
    ensures low { place.at ≤ 64 → (result.block ≡ place.block) × (result.at ≡ place.at) }
    ensures high { 64 < place.at → (result.block ≡ place.block + 1) × (result.at ≡ place.at - 64) }
{
    if place.at <= BLOCK_HALF {
        return place;
    }
    Place {
        block: place.block + 1,
        at: place.at - BLOCK_HALF,
    }
}

// The first of two neighbours to be joined, one of which is this block: it is at most a quarter full.
pub(crate) fn mate<T: Ranked, A: Allocator + Copy>(
    blocks: &[Block<T, A>],
    block: usize,
) -> Option<usize>
    requires { block < length blocks.now }
    ensures next { IfSome result (λ first. first + 1 < length blocks.now) }
    ensures short { IfSome result (λ first. length (block_of blocks.now first) + length (block_of blocks.now (first + 1)) ≤ 64) }
{
    if items_of(blocks, block).len() > BLOCK_LIMIT / 4 || blocks.len() == 1 {
        return None;
    }
    let first = block.min(blocks.len() - 2);
    let both = items_of(blocks, first).len() + items_of(blocks, first + 1).len();
    if both > BLOCK_HALF {
        return None;
    }
    Some(first)
}
