ghost use Rattle.std.specs.Prelude.{◌+◌, ◌*◌, ◌≤◌, ◌^◌, IfOk, length};
ghost use Rattle.waiting_places.specs.Places.{capacity_of};
ghost use Rattle.waiting_places.specs.Tree.{IsWhole};

use crate::frontier::Frontier;
use crate::tree::SPAN;
use std::alloc::Allocator;
use swf_text::Memory;

/// So many places are searched one by one, without a tree.
pub(crate) const LIST_LIMIT: usize = 128;

fn power_from(count: usize) -> usize
    requires { count ≤ 2 ^ 40 }
    ensures power { IsWhole (2 * result) }
    ensures enough { count ≤ result }
    ensures few { result ≤ 2 * count + 1 }
{
    let mut power = 1;
    while power < count {
        power *= 2;
    }
    power
}

pub(crate) fn nodes_for<A: Allocator + Copy>(
    alloc: A,
    capacity: usize,
) -> Result<Vec<Frontier, A>, Memory>
    requires { capacity ≤ 2 ^ 40 }
    ensures enough { IfOk result (λ nodes. capacity ≤ capacity_of (length nodes.items)) }
    ensures whole { IfOk result (λ nodes. 1 ≤ length nodes.items → IsWhole (length nodes.items)) }
    ensures many { IfOk result (λ nodes. 1 ≤ length nodes.items → 4 ≤ length nodes.items) }
    ensures few { IfOk result (λ nodes. length nodes.items ≤ 2 ^ 40) }
{
    if capacity <= LIST_LIMIT {
        return Ok(Vec::new(alloc));
    }
    let leaves = power_from(capacity.div_ceil(SPAN));
    Ok(vec![in alloc; Frontier::new(); 2 * leaves]?)
}
