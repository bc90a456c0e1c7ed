ghost use Rattle.std.specs.Prelude.{◌≡◌, ◌≤◌, ◌<◌, ◌+◌, ◌-◌, ◌^◌, [], IfOk, OnOk, length, vec_capacity};
ghost use Rattle.blocks.specs.Rows.{HasGrown, HasCapacityFor};

use crate::block::{BLOCK_HALF, BLOCK_LIMIT, Block};
use crate::groups::{GROUP, Group};
use crate::ranked::Ranked;
use std::alloc::Allocator;
use swf_text::Memory;

/// The most blocks of a row, in use and empty.
const BLOCKS_LIMIT: usize = 1 << 40;

/// By how many items a full block is over.
pub(crate) const FULL_OVER: usize = BLOCK_LIMIT - BLOCK_HALF - 1;

pub(crate) fn over_of(len: usize) -> usize
    ensures { result ≡ len - 65 }
{
    len.saturating_sub(BLOCK_HALF + 1)
}

pub(crate) fn another<T: Ranked, A: Allocator + Copy>(
    used: &mut Vec<Block<T, A>, A>,
    empty: &mut Vec<Block<T, A>, A>,
    groups: &mut Vec<Group, A>,
) -> Result<Block<T, A>, Memory>
    requires { length used.old.items + length empty.old.items ≤ 2 ^ 40 }
    ensures block { IfOk result (λ block. block ≡ []) }
    ensures used { HasGrown used.old used.new }
    ensures empty { HasGrown empty.old empty.new }
    ensures groups { HasGrown groups.old groups.new }
    ensures few { OnOk result (length used.old.items + length empty.old.items < 2 ^ 40) }
    ensures capacity { OnOk result (HasCapacityFor (length used.old.items + length empty.old.items + 1) (vec_capacity used.new) (vec_capacity empty.new) (vec_capacity groups.new)) }
{
    if used.len() + empty.len() >= BLOCKS_LIMIT {
        return Err(Memory);
    }
    used.reserve(empty.len() + 1)?;
    empty.reserve(used.len() + 1)?;
    let whole = (used.len() + empty.len() + 1) / GROUP;
    groups.reserve(whole.saturating_sub(groups.len()))?;
    Ok(Block::new(*empty.allocator())?)
}
