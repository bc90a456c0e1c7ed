ghost use Rattle.std.specs.Prelude.{◌≡◌, ℕ, Option, Some, List, IfOk, map};
ghost use Rattle.commands.specs.Commands.{command_of_line};
ghost use Rattle.swf_text.specs.Writing.{Writes};
ghost use Rattle.version_book.specs.Book.{machine_of};
ghost use Rattle.scripts.specs.Hearing.{MayFollow};
ghost use Rattle.scripts.specs.Live.{IsSaid, Talks, Turns};
ghost use Rattle.scripts.specs.Names.{live_fault_name};
ghost use Rattle.scripts.specs.Replies.{reply_text};
ghost use Rattle.version_book.specs.Session.{Session};
ghost use Rattle.scripts.specs.Transcript.{IsLine, is_quit};
ghost use Rattle.scripts.specs.declared.live.LiveFault.TheVariants.{Read as ReadFailed, Write as WriteFailed, Memory as OutOfMemory};

use crate::hearing::{Line, LineEnd, ReadFault, next_line, pass_line};
use crate::reply::Reply;
use crate::run::{answer_line, is_quit};
use commands::{Command, CommandFault, parse_command};
use std::alloc::{AllocError, Allocator};
use std::fmt;
use std::io::{BufRead, Write};
use swf_text::WriteFault;
use thiserror::Error;
use version_book::{Book, BookSession};

/// Why a conversation ended before its input did.
#[derive(Clone, Copy, Debug, PartialEq, Eq, Error)]
pub enum LiveFault {
    /// The reader returned an error.
    Read,
    /// The writer returned an error, or took no byte.
    Write,
    /// A growth was refused before the first line was read.
    Memory,
}

impl fmt::Display for LiveFault {
    ghost output = { λ fault. Some (live_fault_name fault) };

    fn fmt<W: fmt::Write>(&self, f: &mut fmt::Formatter<W>) -> fmt::Result {
        f.write_str(match self {
            LiveFault::Read => "Read",
            LiveFault::Write => "Write",
            LiveFault::Memory => "Memory",
        })
    }
}

impl From<ReadFault> for LiveFault {
    ghost from_gives = { λ _ fault. fault ≡ ReadFailed };

    fn from(_fault: ReadFault) -> LiveFault {
        LiveFault::Read
    }
}

impl From<WriteFault> for LiveFault {
    ghost from_gives = { λ _ fault. fault ≡ WriteFailed };

    fn from(_fault: WriteFault) -> LiveFault {
        LiveFault::Write
    }
}

impl From<AllocError> for LiveFault {
    ghost from_gives = { λ _ fault. fault ≡ OutOfMemory };

    fn from(_error: AllocError) -> LiveFault {
        LiveFault::Memory
    }
}

fn say<W: Write, A: Allocator + Copy>(reply: &Reply<A>, writer: &mut W) -> Result<(), WriteFault>
    ensures { Writes result (W.contents writer.old) (W.contents writer.new) (reply_text reply.now) }
{
    reply.write(writer)?;
    match writer.flush() {
        Ok(()) => Ok(()),
        Err(_) => Err(WriteFault::Device),
    }
}

fn answer_on_book<A: Allocator + Copy>(
    analyst: &mut BookSession<A>,
    alloc: A,
    comments: &[Vec<u8, A>],
    line: u64,
    asked: Result<Option<Command<A>>, CommandFault>,
) -> Reply<A>
    ensures { IsLine (map (λ c. c.items) comments.now) analyst.old line asked (reply_text result) analyst.new }
{
    answer_line(analyst, alloc, comments, line, asked)
}

fn answer<W: Write, A: Allocator + Copy>(
    analyst: &mut BookSession<A>,
    alloc: A,
    comments: &[Vec<u8, A>],
    number: u64,
    line: &[u8],
    writer: &mut W,
) -> Result<bool, WriteFault>
    ensures outcome { (text : List ℕ) × IsLine (map (λ c. c.items) comments.now) analyst.old number (command_of_line {A = A} line.now) text analyst.new × Writes result (W.contents writer.old) (W.contents writer.new) text }
    ensures quits { IfOk result (λ quits. quits ≡ is_quit (command_of_line {A = A} line.now)) }
{
    let asked = parse_command(alloc, line);
    let quits = is_quit(&asked);
    say(
        &answer_on_book(analyst, alloc, comments, number, asked),
        writer,
    )?;
    Ok(quits)
}

fn may_follow<R: BufRead, A: Allocator>(
    reader: &mut R,
    line: &mut Line<A>,
    end: LineEnd,
) -> Result<bool, ReadFault>
    ensures { MayFollow (R.remaining reader.old) (R.remaining reader.new) end result }
{
    match end {
        LineEnd::Feed => Ok(true),
        LineEnd::Input => Ok(false),
        LineEnd::Open => pass_line(reader, line),
    }
}

fn turn<R: BufRead, W: Write, A: Allocator + Copy>(
    analyst: &mut BookSession<A>,
    alloc: A,
    comments: &[Vec<u8, A>],
    number: u64,
    line: &mut Line<A>,
    reader: &mut R,
    writer: &mut W,
) -> Result<bool, LiveFault>
    ensures { (first : Session) (from old : Option (List ℕ))
        → IsSaid A (map (λ c. c.items) comments.now) first from (R.remaining reader.old) old (W.contents writer.old) analyst.old number
        → Turns A (map (λ c. c.items) comments.now) first from (R.remaining reader.new) old (W.contents writer.new) analyst.new number result }
{
    let end = next_line(reader, line)?;
    let quits = answer(analyst, alloc, comments, number, line.as_slice(), writer)?;
    if quits {
        return Ok(false);
    }
    let follows = may_follow(reader, line, end)?;
    Ok(follows)
}

/// Holds a conversation on a book: reads line after line as they come, and writes and flushes the
/// response to each before it reads on. The responses are those of `run_lines`. It ends behind `quit`
/// or at the end of the input, whose last line may lack its line feed. The comments are those of the
/// log, which `save` writes.
///
/// The response to a line of over 65,536 bytes is TooLong as soon as that many are read, and the rest of
/// it is skipped. Besides the book only the line that is being read is in memory.
///
/// Where it ends with `quit`, what stands behind that line is left unread. Read where the reader
/// returns an error: what was written is a transcript of all lines that were read by then; a line
/// that was only begun is not among them, unless it is too long already. Write where the writer
/// returns an error or takes no byte: the response to the line that was read last is written in part,
/// and those before it in full. Memory where the buffer for a line is refused, before the first is
/// read.
pub fn run_live<R: BufRead, W: Write, A: Allocator + Copy>(
    alloc: A,
    book: Book<A>,
    comments: &[Vec<u8, A>],
    reader: &mut R,
    writer: &mut W,
) -> Result<(), LiveFault>
    ensures { Talks A (map (λ c. c.items) comments.now) (record { machine = machine_of book; seen = 0 }) (R.remaining reader.old) (R.remaining reader.new) (W.contents writer.old) (W.contents writer.new) result }
{
    let mut line = Line::new(alloc)?;
    let mut analyst = BookSession::new(book);
    for number in 1..u64::MAX {
        let follows = turn(
            &mut analyst,
            alloc,
            comments,
            number,
            &mut line,
            reader,
            writer,
        )?;
        if !follows {
            return Ok(());
        }
    }
    Err(LiveFault::Read)
}
