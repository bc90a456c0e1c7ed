// Batch after batch is read, each while the one before it is added. Where capacity for entries is refused,
// it grows as they come.
ghost use Rattle.std.specs.Prelude.{◌≡◌, ◌+◌, ◌-◌, ◌<◌, ◌≤◌, ◌^◌, ◌++◌, ◌==◌, [], length, slice_index_or, IfOk, OnOk};
ghost use Rattle.std.specs.Thread.{IsSync};
ghost use Rattle.swf_text.specs.Text.{lines};
ghost use Rattle.parallel_reader.specs.Adding.{texts, read_texts, AddsLines};

use rayon::prelude::*;
use std::alloc::Allocator;
use std::marker::Sync;
use std::mem::swap;
use std::thread::{Threads, join_mut};
use swf_text::{Builder, FaultKind, LineRead, Memory, SwfFault, read_line, split_line};

/// The bytes of the shortest job line: eighteen words of a byte, a blank before each but the first,
/// and a line feed.
const LEAST_LINE: usize = 36;

/// The most lines of a batch.
const MOST_LINES: usize = 65_536;

/// Some lines that follow one another in a log, and what each of them is. Its capacity is used again by
/// the lines behind them.
#[derive(Drop)]
pub(crate) struct Batch<'a, A: Allocator + Copy> {
    lines: Vec<&'a [u8], A>,
    readings: Vec<LineRead, A>,
}

fn take_lines<'a, A: Allocator + Copy>(
    taken: &mut Vec<&'a [u8], A>,
    bytes: &'a [u8],
) -> Result<&'a [u8], Memory>
    ensures lines { IfOk result (λ rest. texts taken.new.items ++ lines rest.now ≡ lines bytes.now) }
    ensures some { OnOk result (0 < length bytes.now → 0 < length taken.new.items) }
    ensures count { IfOk result (λ rest. length taken.new.items + length rest.now ≤ length bytes.now) }
{
    taken.clear();
    let mut rest = bytes;
    while taken.len() < MOST_LINES && !rest.is_empty() {
        let (front, after) = split_line(rest);
        taken.push(front)?;
        rest = after;
    }
    Ok(rest)
}

fn read_lines<R: Threads + Sync>(rt: &R, lines: &[&[u8]], readings: &mut [LineRead])
    requires { length readings.old ≡ length lines.now }
    ensures { readings.new ≡ read_texts lines.now }
{
    par_for_each_mut(
        rt,
        readings,
        |place: usize, read: &mut LineRead|
            requires { place < length lines.now }
            ensures { read.new ≡ slice_index_or (read_texts lines.entry.now) place read.old }
        {
            *read = read_line(lines[place]);
        },
    );
}

fn add_lines<A: Allocator + Copy>(
    alloc: A,
    text: &mut Builder<A>,
    first: u64,
    lines: &[&[u8]],
    readings: &[LineRead],
) -> Result<(), SwfFault>
    requires readings { readings.now ≡ read_texts lines.now }
    requires capacity { first + length lines.now < 2 ^ 64 }
    ensures { AddsLines first text.old (texts lines.now) text.new result }
{
    for (place, line) in lines.iter().enumerate() {
        if let Err(kind) = text.add_read(alloc, line, readings[place]) {
            return Err(SwfFault {
                line: first + place as u64,
                kind,
            });
        }
    }
    Ok(())
}

fn read_and_add<R: Threads + Sync, A: Allocator + Copy>(
    rt: &R,
    alloc: A,
    text: &mut Builder<A>,
    first: u64,
    ready: &Batch<'_, A>,
    lines: &[&[u8]],
    readings: &mut [LineRead],
) -> Result<(), SwfFault>
    requires ready { ready.now.readings.items ≡ read_texts ready.now.lines.items }
    requires number { first + length ready.now.lines.items < 2 ^ 64 }
    requires capacity { length readings.old ≡ length lines.now }
    ensures read { readings.new ≡ read_texts lines.now }
    ensures added { AddsLines first text.old (texts ready.now.lines.items) text.new result }
{
    let mut read = ||
        requires { IsSync R.row × (length readings.now ≡ length lines.now) }
        ensures { readings.exit.now ≡ read_texts lines.entry.now }
    { read_lines(rt, lines, readings) };
    let mut add = || -> Result<(), SwfFault>
        requires { (ready.now.readings.items ≡ read_texts ready.now.lines.items) × (first + length ready.now.lines.items < 2 ^ 64) }
        ensures { AddsLines first text.entry.now (texts ready.entry.now.lines.items) text.exit.now result }
    {
        add_lines(
            alloc,
            text,
            first,
            ready.lines.as_slice(),
            ready.readings.as_slice(),
        )
    };
    let (_read, added) = join_mut(rt, &mut read, &mut add);
    added
}

impl<'a, A: Allocator + Copy> Batch<'a, A> {
    pub(crate) fn new(alloc: A) -> Batch<'a, A>
        ensures lines { result.lines.items ≡ [] }
        ensures readings { result.readings.items ≡ [] }
    {
        Batch {
            lines: Vec::new(alloc),
            readings: Vec::new(alloc),
        }
    }

    pub(crate) fn is_last(&self, rest: &[u8]) -> bool
        ensures { result ≡ (length self.now.lines.items + length rest.now == 0) }
    {
        self.lines.is_empty() && rest.is_empty()
    }

    pub(crate) fn count(&self) -> u64
        ensures { result ≡ length self.now.lines.items }
    {
        self.lines.len() as u64
    }

    pub(crate) fn take(&mut self, bytes: &'a [u8]) -> Result<&'a [u8], Memory>
        ensures lines { IfOk result (λ rest. texts self.new.lines.items ++ lines rest.now ≡ lines bytes.now) }
        ensures capacity { OnOk result (length self.new.readings.items ≡ length self.new.lines.items) }
        ensures some { OnOk result (0 < length bytes.now → 0 < length self.new.lines.items) }
        ensures count { IfOk result (λ rest. length self.new.lines.items + length rest.now ≤ length bytes.now) }
    {
        let rest = take_lines(&mut self.lines, bytes)?;
        self.readings.resize(self.lines.len(), LineRead::Blank)?;
        Ok(rest)
    }

    pub(crate) fn read_beside<R: Threads + Sync>(
        &mut self,
        rt: &R,
        alloc: A,
        text: &mut Builder<A>,
        first: u64,
        ready: &Batch<'_, A>,
    ) -> Result<(), SwfFault>
        requires ready { ready.now.readings.items ≡ read_texts ready.now.lines.items }
        requires number { first + length ready.now.lines.items < 2 ^ 64 }
        requires capacity { length self.old.readings.items ≡ length self.old.lines.items }
        ensures lines { self.new.lines.items ≡ self.old.lines.items }
        ensures read { self.new.readings.items ≡ read_texts self.old.lines.items }
        ensures added { AddsLines first text.old (texts ready.now.lines.items) text.new result }
    {
        let lines = self.lines.as_slice();
        let readings = self.readings.as_mut_slice();
        read_and_add(rt, alloc, text, first, ready, lines, readings)
    }
}

pub(crate) fn add_batches<R: Threads + Sync, A: Allocator + Copy>(
    rt: &R,
    alloc: A,
    text: &mut Builder<A>,
    count: u64,
    bytes: &[u8],
) -> Result<(), SwfFault>
    requires { count + length bytes.now < 2 ^ 64 - 1 }
    ensures { AddsLines (count + 1) text.old (lines bytes.now) text.new result }
{
    let _refused = text.reserve(bytes.len() / LEAST_LINE);
    let mut ready = Batch::new(alloc);
    let mut next = Batch::new(alloc);
    let mut rest = bytes;
    let first = count + 1;
    let mut line = first;
    'batches: while !ready.is_last(rest) {
        let Ok(after) = next.take(rest) else {
            return Err(SwfFault {
                line: first,
                kind: FaultKind::Memory,
            });
        };
        next.read_beside(rt, alloc, text, line, &ready)?;
        line += ready.count();
        rest = after;
        swap(&mut ready, &mut next);
    }
    Ok(())
}
