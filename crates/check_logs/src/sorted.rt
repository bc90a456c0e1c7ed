// Rows in blocks, which are cut and joined, and where one growth after another is refused.
use blocks::{Blocks, Ranked};
use refusing::Outcome;
use std::alloc::{Allocator, Global};

/// What stands at two numbers, and weighs something.
#[derive(Clone, Copy, Debug, PartialEq, Eq)]
struct Mark {
    major: u64,
    minor: u64,
    weight: u64,
}

impl Ranked for Mark {
    ghost major = { λ mark. mark.major };

    ghost minor = { λ mark. mark.minor };

    ghost weight = { λ mark. mark.weight };

    fn major(&self) -> u128 {
        u128::from(self.major)
    }

    fn minor(&self) -> u64 {
        self.minor
    }

    fn weight(&self) -> u64 {
        self.weight
    }
}

fn mark_at(major: u64, minor: u64, weight: u64) -> Mark {
    Mark {
        major,
        minor,
        weight,
    }
}

// Puts so many marks more at the end, each of weight 1, where there is capacity for each.
fn fill<A: Allocator + Copy>(row: &mut Blocks<Mark, A>, count: u64) {
    for major in 0..count {
        if row.spare() == 0 {
            return;
        }
        row.insert(mark_at(major, 0, 1));
    }
}

// 200 marks: the first block was cut at the 129th, and the second at the 193rd.
fn two_hundred(alloc: Global) -> Option<Blocks<Mark, Global>> {
    let mut row = Blocks::new(alloc);
    row.reserve(200).ok()?;
    fill(&mut row, 200);
    Some(row)
}

// Whether there are so many blocks, of which the first weighs this.
fn begins_with(row: &Blocks<Mark, Global>, blocks: usize, weight: u128) -> bool {
    row.blocks() == blocks && blocks > 0 && row.weight(0) == weight && row.block(0).len() == 64
}

fn take_out(row: &mut Blocks<Mark, Global>, from: u64, end: u64) {
    for major in from..end {
        row.remove(u128::from(major), 0);
    }
}

// 24 marks leave the second block and 40 the first, which then joins the 40 that are left there.
fn joins_two(row: &mut Blocks<Mark, Global>) -> bool {
    take_out(row, 64, 88);
    take_out(row, 0, 40);
    begins_with(row, 2, 64)
}

fn goes_with_blocks(row: &mut Blocks<Mark, Global>) -> bool {
    begins_with(row, 3, 64) && joins_two(row)
}

#[test]
fn blocks_are_cut_and_joined(rt: HostRuntime) {
    let row = two_hundred(rt.alloc());
    assert!(rt; row.is_some_and(|mut row| goes_with_blocks(&mut row)));
}

/// Capacity for 130 marks, which then take no memory.
pub(crate) fn reserves<A: Allocator + Copy>(alloc: A) -> Outcome {
    let mut row = Blocks::new(alloc);
    if row.reserve(130).is_err() {
        return Outcome::memory_if(row.is_empty());
    }
    fill(&mut row, 130);
    Outcome::right_if(row.len() == 130)
}

/// 130 marks, each of which reserves its capacity.
pub(crate) fn inserts<A: Allocator + Copy>(alloc: A) -> Outcome {
    let mut row = Blocks::new(alloc);
    for major in 0..130 {
        let before = row.len();
        if row.reserve(1).is_err() {
            return Outcome::memory_if(row.len() == before);
        }
        row.insert(mark_at(major, 0, 1));
    }
    Outcome::right_if(row.len() == 130)
}
