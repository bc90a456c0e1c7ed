//! Changes logs and scripts at random, gives them to the reader and to the call that works a script, and
//! counts the answers: 10,000 of each, or as many as are asked for. Besides, each beginning of a log is
//! read; readers and writers fail at each of their calls; plain runs, scripts, and scripts side by side
//! are worked where each growth is refused in turn; two workers cross; and a conversation is to flush
//! each answer. It is wrong where an answer is not one of those that are stated, where a log is read
//! otherwise once it was written, and where a kind of answers that may come does not.

mod answers;
mod changed;
mod crossed;
mod devices;
mod growths;
mod held;
mod judge;
mod mutation;
mod reading;
mod texts;
mod working;
mod works;

use crate::fuzz::changed::{are_as_stated, are_cut_as_stated, counts_of, tell_counts};
use anyhow::Result;
use std::marker::Sync;
use std::sync::Wait;
use std::thread::Threads;

/// How many logs are changed, and how many scripts, where no word says so.
const ROUNDS: u64 = 10_000;

/// What is done without a word.
#[derive(Clone, Copy)]
enum Part {
    Changed,
    Cut,
    Readers,
    Writers,
    Growths,
    GrowthsBeside,
    Crossed,
    Held,
}

/// All of it.
const PARTS: [Part; 8] = [
    Part::Changed,
    Part::Cut,
    Part::Readers,
    Part::Writers,
    Part::Growths,
    Part::GrowthsBeside,
    Part::Crossed,
    Part::Held,
];

fn text_of(part: Part) -> &'static str {
    match part {
        Part::Changed => "10000 logs and 10000 scripts, changed at random: all answers as stated",
        Part::Cut => "each beginning of four jobs: read, or its first fault",
        Part::Readers => "a reader of one byte a call, each call failing in turn: nothing written",
        Part::Writers =>
            "a writer of few bytes a call, each call failing in turn: nothing invented",
        Part::Growths =>
            "a run and three scripts, each growth refused in turn: reported in its place",
        Part::GrowthsBeside => "two scripts side by side, each growth refused in turn: all ends",
        Part::Crossed => "two workers whose tasks cross: they work beside each other",
        Part::Held => "a conversation: each answer is flushed, once",
    }
}

fn is_right<R: AllocGlobal + Eprint + Threads + Wait + Sync>(rt: &R, part: Part) -> Result<bool> {
    let alloc = rt.alloc();
    let is_right = match part {
        Part::Changed => are_as_stated(&counts_of(rt, ROUNDS)?),
        Part::Cut => are_cut_as_stated(alloc),
        Part::Readers => devices::are_read(rt),
        Part::Writers => devices::are_written(rt)?,
        Part::Growths => growths::are_answered(rt),
        Part::GrowthsBeside => growths::are_answered_beside(rt),
        Part::Crossed => crossed::are_beside(rt),
        Part::Held => held::is_flushed(rt),
    };
    Ok(is_right)
}

pub(crate) fn run_short<R: AllocGlobal + Print + Eprint + Threads + Wait + Sync>(
    rt: &R,
) -> Result<bool> {
    for part in PARTS {
        let text = text_of(part);
        if !is_right(rt, part)? {
            eprintln!(rt; "workbench: not {text}")?;
            return Ok(false);
        }
        println!(rt; "{text}")?;
    }
    Ok(true)
}

// Changes so many logs and scripts, and tells the counts: whether all is right.
pub(crate) fn run_long<R: AllocGlobal + Print + Threads + Sync>(
    rt: &R,
    rounds: u64,
) -> Result<bool> {
    let counts = counts_of(rt, rounds)?;
    tell_counts(rt, &counts)?;
    Ok(are_as_stated(&counts))
}
