// Frames, where one growth after another is refused.
use frames::{Frame, Stretch};
use refusing::Outcome;
use std::alloc::Allocator;

/// One list, which stands at place 0.
pub(crate) fn makes<A: Allocator + Copy>(alloc: A) -> Outcome {
    match Frame::single(alloc, &[4u64, 2, 4]) {
        Ok(frame) => Outcome::right_if(frame.count(0) == 3),
        Err(_) => Outcome::Memory,
    }
}

// The items 1 to 40 at place 0, out of order: 7, 14, 21, 28, 35, 1, 8 and so on up to 34.
fn forty<A: Allocator + Copy>(alloc: A) -> Option<Frame<u64, A>> {
    let mut stretches = Vec::new(alloc);
    for nth in 1..=40u64 {
        stretches.push(Stretch::once(nth * 7 % 41)).ok()?;
    }
    Some(Frame::of(stretches))
}

/// Up to 20 items are sorted where they stand; 40 need memory.
pub(crate) fn sorts<A: Allocator + Copy>(alloc: A) -> Outcome {
    let Some(mut frame) = forty(alloc) else {
        return Outcome::Before;
    };
    match frame.sort_by_key() {
        Ok(()) => Outcome::right_if(frame.at(0).next() == Some(&1)),
        Err(_) => Outcome::memory_if(frame.at(0).next() == Some(&7)),
    }
}
