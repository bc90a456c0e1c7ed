// `head` has the bytes of the first lines, with `headed` entries; each line behind them is blank or the
// summary line of an entry. `next` is one above the greatest job number. Capacity for all entries that a log
// may have is reserved ahead where as much as `LEFT_OVER` can be had beside it; else it grows as they come.
ghost use Rattle.std.specs.Prelude.{◌≡◌, ◌<◌, ◌+◌, ◌-◌, ◌^◌, ◌++◌, ℕ, List, [], length, IfSome};
ghost use Rattle.swf_text.specs.Text.{lines};
ghost use Rattle.parallel_reader.specs.Fronts.{EndsLine, Grows, IsFront, IsReading};

use crate::batch::add_batches;
use crate::piece::Piece;
use crate::reader::is_for_one;
use crate::rising::{add_lines, add_portions, lines_of, number_behind};
use std::alloc::Allocator;
use std::marker::{Model, Sync};
use std::thread::Threads;
use swf_text::{
    Builder, ENTRY_LIMIT, Entry, FaultKind, LineRead, SwfFault, SwfText, read_swf, split_line,
};

/// How many bytes have to be left beside the capacity for all entries.
const LEFT_OVER: usize = 1 << 30;

/// The front of a log: whole lines that were read. Contracts see what they hold, how many they are,
/// and how many bytes they have with their line feeds.
#[derive(Drop)]
pub struct LogFront<A: Allocator + Copy> {
    head: Vec<u8, A>,
    comments: Vec<Vec<u8, A>, A>,
    entries: Vec<Entry<A>, A>,
    headed: usize,
    next: u64,
    lines: u64,
    bytes: u64,
}

impl<A: Allocator + Copy> Model for LogFront<A> {
    ghost use Rattle.std.specs.Prelude.{◌≡◌, ◌≤◌, Ok, length, map, take};
    ghost use Rattle.swf_text.specs.Reading.{text_of};
    ghost use Rattle.parallel_reader.specs.Fronts.{Progress};
    ghost use Rattle.parallel_reader.specs.Jobs.{Below};

    ghost Value = { Progress };

    ghost view = { λ f. record { text = record { comments = map (λ c. c.items) f.comments.items; entries = f.entries.items }; lines = f.lines; bytes = f.bytes } };

    ghost invariant = { λ f. record { below : Below f.next f.entries.items; within : f.headed ≤ length f.entries.items; head : text_of f.head.items ≡ Ok (record { comments = map (λ c. c.items) f.comments.items; entries = take f.headed f.entries.items }) } };
}

fn reserve_ahead<A: Allocator + Copy>(alloc: A, entries: &mut Vec<Entry<A>, A>)
    ensures { entries.new.items ≡ entries.old.items }
{
    let Ok(_left_over) = Vec::<u8, A>::with_capacity(alloc, LEFT_OVER) else {
        return;
    };
    let _refused = entries.reserve(ENTRY_LIMIT.saturating_sub(entries.len()));
}

fn count_lines(bytes: &[u8]) -> u64
    ensures { result ≡ length (lines bytes.now) }
{
    let mut count = 0u64;
    let mut rest = bytes;
    'lines: while !rest.is_empty() {
        let (_line, after) = split_line(rest);
        rest = after;
        count += 1;
    }
    count
}

impl<A: Allocator + Copy> LogFront<A> {
    pub(crate) fn new(alloc: A) -> LogFront<A>
        ensures { IsFront [] result }
    {
        LogFront {
            head: Vec::new(alloc),
            comments: Vec::new(alloc),
            entries: Vec::new(alloc),
            headed: 0,
            next: 0,
            lines: 0,
            bytes: 0,
        }
    }

    pub(crate) fn of_head(alloc: A, head: &[u8]) -> Option<LogFront<A>>
        requires { EndsLine head.now }
        ensures { IfSome result (IsFront head.now) }
    {
        let Ok(text) = read_swf(alloc, head) else {
            return None;
        };
        let Ok(lines) = Vec::from_slice(alloc, head) else {
            return None;
        };
        let (comments, mut entries) = text.into_parts();
        let next = number_behind(entries.as_slice());
        let headed = entries.len();
        reserve_ahead(alloc, &mut entries);
        Some(LogFront {
            head: lines,
            comments,
            entries,
            headed,
            next,
            lines: count_lines(head),
            bytes: head.len() as u64,
        })
    }

    /// How many bytes its lines have.
    pub fn bytes(&self) -> u64
        ensures { result ≡ self.now.bytes }
    {
        self.bytes
    }

    pub(crate) fn add(&mut self, alloc: A, piece: &Piece<A>) -> bool
        ensures { Grows self.old piece.now self.new result }
    {
        let jobs = piece.jobs();
        let Some(more) = lines_of(jobs) else {
            return false;
        };
        let Some(lines) = self.lines.checked_add(more) else {
            return false;
        };
        let Some(bytes) = self.bytes.checked_add(piece.lines().len() as u64) else {
            return false;
        };
        let count = self.entries.len();
        match add_portions(alloc, &mut self.entries, self.next, jobs) {
            Some(next) => {
                self.next = next;
                self.lines = lines;
                self.bytes = bytes;
                true
            }
            None => {
                self.entries.truncate(count);
                false
            }
        }
    }

    fn builder<R: Threads + Sync>(&self, rt: &R, alloc: A) -> Option<Builder<A>>
        ensures { IfSome result (λ text. text ≡ self.now.text) }
    {
        let mut text = Builder::new(alloc);
        let _refused = text.reserve(self.entries.len());
        let Ok(()) = add_batches(rt, alloc, &mut text, 0, self.head.as_slice()) else {
            return None;
        };
        for entry in &self.entries[self.headed..] {
            if !entry.parts().is_empty() {
                return None;
            }
            let Ok(()) = text.add_read(alloc, &[], LineRead::Job(entry.main())) else {
                return None;
            };
        }
        Some(text)
    }

    /// Reads the bytes behind it: the log that both are, or its first faulty line, as `read_swf` reads
    /// them in one.
    ///
    /// A fault of kind `Memory` comes where a growth was refused; all lines before its line are without
    /// faults. The front is one that `begin_log` has read.
    pub fn read_behind<R: Threads + Sync>(
        self,
        rt: &R,
        alloc: A,
        bytes: &[u8],
    ) -> Result<SwfText<A>, SwfFault>
        requires front { (front : List ℕ) × IsFront front self }
        requires size { self.bytes + length bytes.now < 2 ^ 64 - 1 }
        ensures { (front : List ℕ) → IsFront front self → IsReading (front ++ bytes.now) result }
    {
        if self.bytes == 0 && is_for_one(rt, bytes) {
            return read_swf(alloc, bytes);
        }
        let mut front = self;
        let count = front.entries.len();
        match add_lines(alloc, &mut front.entries, front.next, bytes) {
            Some(_next) => return Ok(SwfText::of_parts(front.comments, front.entries)),
            None => front.entries.truncate(count),
        }
        let Some(mut text) = front.builder(rt, alloc) else {
            return Err(SwfFault {
                line: 1,
                kind: FaultKind::Memory,
            });
        };
        match add_batches(rt, alloc, &mut text, front.lines, bytes) {
            Ok(()) => Ok(text.finish()),
            Err(fault) => Err(fault),
        }
    }
}
