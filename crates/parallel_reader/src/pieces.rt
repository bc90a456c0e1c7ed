// A log is read piece after piece, each while the one before it is added and the one behind it comes. If any
// threads read beside this one, two do at least: one that starts alone often waits on this one's processor.
ghost use Rattle.std.specs.Prelude.{◌≡◌, ◌++◌, [], List, ℕ, true, IfOk};
ghost use Rattle.std.specs.Io.KnownBytes.{IsAtEnd};
ghost use Rattle.parallel_reader.specs.Fronts.{IsFront, IsReadBehind};

use crate::front::LogFront;
use crate::piece::Piece;
use rayon::current_num_threads;
use std::alloc::Allocator;
use std::io;
use std::io::Read;
use std::marker::Sync;
use std::mem::swap;
use std::thread::Threads;

/// The bytes that are looked at first, among which a log has its comments, and of a piece that one thread
/// reads. A log of fewer is not read here.
const HEAD_BYTES: usize = 65_536;

/// The bytes of a piece that several threads read.
const PIECE_BYTES: usize = 1_048_576;

/// The most threads of which a log is read by all but one.
const MOST_THREADS: usize = 32;

/// The most pieces that are read.
const MOST_PIECES: usize = 65_536;

/// The front of a log as it came from a reader.
#[derive(Drop)]
pub struct BegunLog<A: Allocator + Copy> {
    /// The whole lines that were read.
    pub front: LogFront<A>,
    /// The bytes behind them that the reader gave.
    pub rest: Vec<u8, A>,
    /// Whether the reader has no more.
    pub is_end: bool,
}

fn with_rest<A: Allocator + Copy>(
    alloc: A,
    front: LogFront<A>,
    first: &[u8],
    second: &[u8],
    is_end: bool,
) -> io::Result<BegunLog<A>>
    ensures front { IfOk result (λ read. read.front ≡ front) }
    ensures rest { IfOk result (λ read. read.rest.items ≡ first.now ++ second.now) }
    ensures end { IfOk result (λ read. read.is_end ≡ is_end) }
{
    let mut rest = Vec::new(alloc);
    rest.extend_from_slice(first)?;
    rest.extend_from_slice(second)?;
    Ok(BegunLog {
        front,
        rest,
        is_end,
    })
}

fn readers_beside(threads: usize) -> usize {
    match threads {
        0 | 1 => 0,
        2 => 2,
        _ => threads - 1,
    }
}

fn read_pieces<T: Threads + Sync, R: Read, A: Allocator + Copy>(
    rt: &T,
    alloc: A,
    begun: LogFront<A>,
    tail: &[u8],
    reader: &mut R,
) -> io::Result<BegunLog<A>>
    ensures read { IfOk result (λ read. (head : List ℕ) → IsFront head begun → IsReadBehind (head ++ tail.now) (R.remaining reader.old) (R.remaining reader.new) read.front read.rest.items) }
    ensures ended { IfOk result (λ read. read.is_end ≡ true → IsAtEnd (R.remaining reader.new)) }
{
    let readers = readers_beside(current_num_threads(rt).min(MOST_THREADS));
    let size = if readers == 0 {
        HEAD_BYTES
    } else {
        PIECE_BYTES
    };
    let mut front = begun;
    let mut ready = Piece::new(alloc, size)?;
    let mut coming = Piece::new(alloc, size)?;
    let mut is_end = coming.fill(reader, tail, false)?;
    'pieces: for _ in 0..MOST_PIECES {
        let Some(ended) = coming.read_beside(
            rt, readers, alloc, &mut front, &mut ready, reader, is_end,
        )?
        else {
            return with_rest(alloc, front, ready.lines(), coming.all(), is_end);
        };
        is_end = ended;
        swap(&mut ready, &mut coming);
        if ready.lines().is_empty() {
            return with_rest(alloc, front, ready.lines(), coming.all(), is_end);
        }
    }
    with_rest(alloc, front, ready.lines(), coming.all(), is_end)
}

/// Reads the front of a log as it comes from a reader, with a thread for each processor: whole lines, of
/// which the first 65,536 bytes are any that have no fault, and those behind them blank or the summary
/// lines of jobs with rising numbers. Their bytes are let go. What it leaves unread it returns; a log of
/// fewer than 65,536 bytes is all left.
///
/// An error is the reader's, or of kind OutOfMemory where a growth was refused.
pub fn begin_log<T: Threads + Sync, R: Read, A: Allocator + Copy>(
    rt: &T,
    alloc: A,
    reader: &mut R,
) -> io::Result<BegunLog<A>>
    ensures read { IfOk result (λ read. IsReadBehind [] (R.remaining reader.old) (R.remaining reader.new) read.front read.rest.items) }
    ensures ended { IfOk result (λ read. read.is_end ≡ true → IsAtEnd (R.remaining reader.new)) }
{
    let mut head = Piece::new(alloc, HEAD_BYTES)?;
    let is_end = head.fill(reader, &[], false)?;
    if is_end {
        return with_rest(alloc, LogFront::new(alloc), head.all(), &[], is_end);
    }
    match LogFront::of_head(alloc, head.lines()) {
        Some(front) => read_pieces(rt, alloc, front, head.tail(), reader),
        None => with_rest(alloc, LogFront::new(alloc), head.all(), &[], is_end),
    }
}
