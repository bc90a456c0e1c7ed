// The allocator that refuses a call.
use linked_list_allocator::LocalHeap;
use refusing::Refusing;
use std::alloc::{AllocError, Allocator, Global};
use std::thread;
use std::thread::Threads;

// Each box is one call, and the first is call 1.
fn boxes_made<A: Allocator + Copy>(heap: A) -> [bool; 5] {
    let mut made = [false; 5];
    for index in 0..5 {
        made[index] = Box::new(heap, 7u64).is_ok();
    }
    made
}

/// Which of five calls go through, by the call to refuse.
const MADE: [(u64, [bool; 5], bool); 5] = [
    (0, [true, true, true, true, true], false),
    (1, [false, true, true, true, true], true),
    (3, [true, true, false, true, true], true),
    (5, [true, true, true, true, false], true),
    (6, [true, true, true, true, true], false),
];

fn refuses_alone(alloc: Global, nth: u64, made: [bool; 5], refused: bool) -> bool {
    let heap = Refusing::new(alloc, nth);
    let is_new = heap.calls() == 0 && !heap.refused();
    is_new && boxes_made(&heap) == made && heap.calls() == 5 && heap.refused() == refused
}

#[test]
fn refuses_the_chosen_call_alone(rt: HostRuntime) {
    for (nth, made, refused) in &MADE {
        assert!(rt;
            refuses_alone(rt.alloc(), *nth, *made, *refused),
            "call {nth}"
        );
    }
}

fn numbers<A: Allocator + Copy>(heap: A) -> Result<usize, AllocError> {
    let mut numbers = Vec::new(heap);
    for number in 0..100u64 {
        numbers.push(number)?;
    }
    Ok(numbers.len())
}

// Whether a heap with a refused call gives all memory back that it took of another one.
fn gives_back(inner: &LocalHeap, nth: u64) -> bool {
    let heap = Refusing::new(inner, nth);
    let kept = Box::new(&heap, 7u64);
    let is_kept = kept.is_ok() == (nth != 1) && (inner.used() == 0) == (nth == 1);
    let _answer = numbers(&heap);
    drop(kept);
    is_kept && inner.used() == 0
}

fn gives_back_each_time(alloc: Global) -> Option<bool> {
    let inner = LocalHeap::new(alloc, 100_000).ok()?;
    for nth in 0..10 {
        if !gives_back(&inner, nth) {
            return None;
        }
    }
    Some(true)
}

#[test]
fn gives_all_memory_back(rt: HostRuntime) {
    assert!(rt; gives_back_each_time(rt.alloc()) == Some(true));
}

fn boxes_refused<A: Allocator + Copy>(heap: A) -> usize {
    (0..100u64)
        .filter(|number| Box::new(heap, *number).is_err())
        .count()
}

// Whether of 200 calls of two threads one is refused, to one of them.
fn refuses_one_of_two<R: Threads>(rt: &R, alloc: Global, nth: u64) -> bool {
    let heap = Refusing::new(alloc, nth);
    let (left, right) = thread::join(rt, || boxes_refused(&heap), || boxes_refused(&heap));
    (left.min(right), left.max(right)) == (0, 1) && heap.calls() == 200 && heap.refused()
}

#[test]
fn counts_over_two_threads(rt: HostRuntime) {
    for nth in [1, 100, 150, 200] {
        assert!(rt; refuses_one_of_two(&rt, rt.alloc(), nth), "call {nth}");
    }
}
