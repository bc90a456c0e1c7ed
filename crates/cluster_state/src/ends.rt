ghost use Rattle.std.specs.Prelude.{◌≡◌, ◌≤◌, ◌<◌, ◌+◌, ◌↔◌, ℕ, IfSome, IfNone, IsSomeAnd, IsTrue, All, slice_get, sum_by};
ghost use Rattle.std.specs.Option.{option_map};
ghost use Rattle.std.specs.BinaryHeap.{heap_items, heap_len, heap_capacity, IsHeap};
ghost use Rattle.scenarios.specs.Limits.{seconds_end};
ghost use Rattle.cluster_state.specs.Ends.{end_of, falling};

use scenarios::Placed;
use std::alloc::Allocator;
use std::cmp::Reverse;
use std::collections::BinaryHeap;

// A job is found in the row by `expected_end`, by which it has surely ended, and its number.
#[derive(Clone, Copy, PartialEq, Eq, PartialOrd, Ord)]
pub(crate) struct End {
    pub(crate) end: u64,
    pub(crate) expected_end: u64,
    pub(crate) number: u64,
}

impl End {
    pub(crate) fn of(r: &Placed) -> End
        requires { r.now.start < seconds_end }
        ensures { result ≡ end_of r.now }
    {
        End {
            end: r.end(),
            expected_end: r.expected_end(),
            number: r.job.number(),
        }
    }
}

pub(crate) fn first_end<A: Allocator>(ends: &BinaryHeap<Reverse<End>, A>) -> Option<u64>
    requires { IsHeap falling (heap_items ends.now) }
    ensures first { result ≡ option_map (λ e. e.0.end) (slice_get (heap_items ends.now) 0) }
    ensures least { IfSome result (λ t. All (λ e. t ≤ e.0.end) (heap_items ends.now)) }
{
    match ends.peek() {
        None => None,
        Some(first) => Some(first.0.end),
    }
}

pub(crate) fn is_by(end: Option<u64>, t: u64) -> bool
    ensures { IsTrue result ↔ IsSomeAnd end (λ u. u ≤ t) }
{
    match end {
        None => false,
        Some(end) => end <= t,
    }
}

pub(crate) fn pop_until<A: Allocator>(ends: &mut BinaryHeap<Reverse<End>, A>, t: u64) -> Option<End>
    requires { IsHeap falling (heap_items ends.old) }
    ensures heap { IsHeap falling (heap_items ends.new) }
    ensures due { IfSome result (λ e. e.end ≤ t) }
    ensures popped { IfSome result (λ e. (f : End → ℕ) → f e + sum_by (λ x. f x.0) (heap_items ends.new) ≡ sum_by (λ x. f x.0) (heap_items ends.old)) }
    ensures later { IfNone result (All (λ x. t < x.0.end) (heap_items ends.old)) }
    ensures kept { IfNone result (heap_items ends.new ≡ heap_items ends.old) }
    ensures len { heap_len ends.new ≤ heap_len ends.old }
    ensures capacity { heap_capacity ends.new ≡ heap_capacity ends.old }
{
    if !is_by(first_end(ends), t) {
        return None;
    }
    let Reverse(first) = ends.pop()?;
    Some(first)
}
