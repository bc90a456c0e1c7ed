// A line ends at its line feed (`Feed`) or with the input (`Input`), or goes on (`Open`). `front_of` returns
// which of the bytes that a reader shows belong to the line, how many it uses, and how far the line is read.
ghost use Rattle.std.specs.Prelude.{◌≡◌, ◌+◌, ◌≤◌, ◌++◌, [], IfOk, length, vec_capacity, vec_len};
ghost use Rattle.swf_text.specs.Limits.{line_limit};
ghost use Rattle.scripts.specs.Hearing.{GrowsBy, Hears, IsFront, Passes};
ghost use Rattle.scripts.specs.declared.hearing.LineEnd.TheVariants.{Open};

use memchr::memchr;
use std::alloc::{AllocError, Allocator};
use std::io;
use std::io::{BufRead, ErrorKind};
use swf_text::LINE_LIMIT;

/// The most bytes that are stored of a line: one more than a line may have, which shows that it is too
/// long.
const CAPACITY: usize = LINE_LIMIT + 1;

/// A reader returned an error.
#[derive(Clone, Copy)]
pub(crate) struct ReadFault;

/// How far a line is read.
#[derive(Clone, Copy)]
pub(crate) enum LineEnd {
    Feed,
    Input,
    Open,
}

/// A line that is being read, in a buffer that never grows.
#[derive(Drop)]
pub(crate) struct Line<A: Allocator> {
    bytes: Vec<u8, A>,
    ghost within: { vec_len bytes ≤ line_limit + 1 },
    ghost capacity: { line_limit + 1 ≤ vec_capacity bytes },
}

impl<A: Allocator> Line<A> {
    pub(crate) fn new(alloc: A) -> Result<Line<A>, AllocError> {
        let bytes = Vec::with_capacity(alloc, CAPACITY)?;
        Ok(Line { bytes })
    }

    pub(crate) fn as_slice(&self) -> &[u8]
        ensures { result.now ≡ self.now.bytes.items }
    {
        self.bytes.as_slice()
    }

    fn clear(&mut self)
        ensures { self.new.bytes.items ≡ [] }
    {
        self.bytes.clear();
    }

    fn spare(&self) -> usize
        ensures { result + length self.now.bytes.items ≡ line_limit + 1 }
    {
        CAPACITY - self.bytes.len()
    }

    fn add(&mut self, part: &[u8])
        requires { length self.old.bytes.items + length part.now ≤ line_limit + 1 }
        ensures { self.new.bytes.items ≡ self.old.bytes.items ++ part.now }
    {
        match self.bytes.extend_from_slice(part) {
            Ok(()) => {}
            Err(_) => unreachable!(),
        }
    }
}

fn front_of(shown: &[u8], spare: usize) -> (&[u8], usize, LineEnd)
    ensures { IsFront shown.now spare result.0.now result.1 result.2 }
{
    if shown.is_empty() {
        return (shown, 0, LineEnd::Input);
    }
    let part = &shown[..shown.len().min(spare)];
    match memchr(b'\n', part) {
        Some(at) => (&part[..at], at + 1, LineEnd::Feed),
        None => (part, part.len(), LineEnd::Open),
    }
}

fn unless_interrupted(error: io::Error) -> Result<LineEnd, ReadFault>
    ensures { IfOk result (λ end. end ≡ Open) }
{
    match error.kind() {
        ErrorKind::Interrupted => Ok(LineEnd::Open),
        _ => Err(ReadFault),
    }
}

fn read_part<R: BufRead, A: Allocator>(
    reader: &mut R,
    line: &mut Line<A>,
) -> Result<LineEnd, ReadFault>
    ensures { GrowsBy (R.remaining reader.old) (R.remaining reader.new) line.old.bytes.items line.new.bytes.items result }
{
    let shown = match reader.fill_buf() {
        Ok(shown) => shown,
        Err(error) => return unless_interrupted(error),
    };
    let (bytes, used, end) = front_of(shown, line.spare());
    line.add(bytes);
    reader.consume(used);
    Ok(end)
}

/// Reads the next line, or the first bytes of one that is too long.
pub(crate) fn next_line<R: BufRead, A: Allocator>(
    reader: &mut R,
    line: &mut Line<A>,
) -> Result<LineEnd, ReadFault>
    ensures { Hears (R.remaining reader.old) (R.remaining reader.new) line.new.bytes.items result }
{
    line.clear();
    for _ in 0..u64::MAX {
        match read_part(reader, line)? {
            LineEnd::Open => {
                if line.spare() == 0 {
                    return Ok(LineEnd::Open);
                }
            }
            end => return Ok(end),
        }
    }
    Err(ReadFault)
}

/// Skips the rest of a line, and returns whether it had a line feed.
pub(crate) fn pass_line<R: BufRead, A: Allocator>(
    reader: &mut R,
    line: &mut Line<A>,
) -> Result<bool, ReadFault>
    ensures { Passes (R.remaining reader.old) (R.remaining reader.new) result }
{
    for _ in 0..u64::MAX {
        match next_line(reader, line)? {
            LineEnd::Feed => return Ok(true),
            LineEnd::Input => return Ok(false),
            LineEnd::Open => {}
        }
    }
    Err(ReadFault)
}
