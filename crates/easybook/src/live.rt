ghost use Rattle.std.specs.Prelude.{◌≡◌, ℕ, List, Option, IfOk, map};
ghost use Rattle.std.specs.Io.Buffered.{reader_remaining};
ghost use Rattle.easybook.specs.Book.{IsBookOf};
ghost use Rattle.easybook.specs.Live.{RunsLive};
ghost use Rattle.easybook.specs.Program.{EndsOnTalk};

use crate::book::{OpenedBook, begun_book, opened_book};
use crate::fault::ProgramFault;
use crate::input::begin_front;
use crate::opened::LOG_LIMIT;
use crate::options::Options;
use std::alloc::Allocator;
use std::io::{BufReader, Read, Write};
use std::marker::Sync;
use std::thread::Threads;
use swf_text::Memory;

fn buffered<R: Read + Drop, A: Allocator + Copy>(
    alloc: A,
    reader: R,
) -> Result<BufReader<R, A>, Memory>
    ensures { IfOk result (λ r. reader_remaining R.remaining r ≡ R.remaining reader) }
{
    match BufReader::new(alloc, reader) {
        Ok(reader) => Ok(reader),
        Err(_) => Err(Memory),
    }
}

fn talk<R: Read + Drop, W: Write, A: Allocator + Copy>(
    alloc: A,
    opened: OpenedBook<A>,
    reader: R,
    writer: &mut W,
) -> Result<(), ProgramFault>
    ensures { (log : List ℕ) (procs : Option ℕ) (spacing : ℕ) → IsBookOf log procs spacing (map (λ c. c.items) opened.comments.items) opened.book
        → RunsLive A log procs (R.remaining reader) (W.contents writer.old) (W.contents writer.new) result }
{
    let OpenedBook { book, comments } = opened;
    let mut reader = buffered(alloc, reader)?;
    scripts::run_live(alloc, book, comments.as_slice(), &mut reader, writer)?;
    Ok(())
}

/// Holds a conversation on a log, as one session with one worker: reads a command as it comes, and
/// writes its response before it reads on. The log's scenarios are those of its comments, as
/// `commands::open_text` opens it with `options.procs`; each is added to the book in its order, as
/// session 0. The log's bytes are dropped once it is opened.
///
/// The faults in their order: TooLong where the log has over 1,073,741,824 bytes; Log with its
/// first faulty line; NoMachine where nothing names a scenario or the machine's processors;
/// BadMachine where it has not 1 to 16,777,216; Memory where a growth is refused before the first
/// command, while one refused later is the response to the command. Nothing is written before them.
/// Then Read where the reader returns an error, behind the responses to all lines read by then, and
/// Write where the writer returns one or takes no byte, within the response to the line read last.
pub fn run_live<R: Read + Drop, W: Write, T: Threads + Sync, A: Allocator + Copy>(
    rt: &T,
    alloc: A,
    log: Vec<u8, A>,
    reader: R,
    writer: &mut W,
    options: Options,
) -> Result<(), ProgramFault>
    ensures { RunsLive A log.items options.procs (R.remaining reader) (W.contents writer.old) (W.contents writer.new) result }
{
    let opened = opened_book(rt, alloc, log.as_slice(), options)?;
    drop(log);
    talk(alloc, opened, reader, writer)
}

pub(crate) fn talk_on_file<
    L: Read + Drop,
    R: Read + Drop,
    W: Write,
    T: Threads + Sync,
    A: Allocator + Copy,
>(rt: &T, alloc: A, log: L, reader: R, writer: &mut W, options: Options) -> Result<(), ProgramFault>
    ensures { EndsOnTalk A (L.remaining log) options.procs (R.remaining reader) (W.contents writer.old) (W.contents writer.new) result }
{
    let begun = begin_front(rt, alloc, log, LOG_LIMIT as u64)?;
    let opened = begun_book(rt, alloc, begun, options)?;
    talk(alloc, opened, reader, writer)
}
