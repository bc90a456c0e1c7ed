ghost use Rattle.std.specs.Prelude.{ℕ, List, Option, Some, map};
ghost use Rattle.easybook.specs.Alone.{RunsAlone};
ghost use Rattle.easybook.specs.Book.{IsBookOf};

use crate::book::{OpenedBook, opened_book};
use crate::fault::ProgramFault;
use crate::input::read_front;
use crate::options::Options;
use scripts::run_lines;
use std::alloc::Allocator;
use std::io::{Read, Write};
use std::marker::Sync;
use std::thread::Threads;

/// The most bytes of a script.
pub(crate) const SCRIPT_LIMIT: u64 = 16_777_216;

pub(crate) fn work_script<W: Write, A: Allocator + Copy>(
    alloc: A,
    script: &[u8],
    writer: &mut W,
    opened: OpenedBook<A>,
) -> Result<(), ProgramFault>
    ensures { (log : List ℕ) (procs : Option ℕ) (spacing : ℕ) → IsBookOf log procs spacing (map (λ c. c.items) opened.comments.items) opened.book
        → RunsAlone A log procs (Some script.now) (W.contents writer.old) (W.contents writer.new) result }
{
    if script.len() as u64 > SCRIPT_LIMIT {
        return Err(ProgramFault::TooLong);
    }
    let OpenedBook { book, comments } = opened;
    run_lines(alloc, book, comments.as_slice(), script, writer)?;
    Ok(())
}

/// Works a script on a log, as one session with one worker, and writes the response to each command.
/// The log's scenarios are those of its comments, as `commands::open_text` opens it with
/// `options.procs`; each is added to the book in its order, as session 0.
///
/// The faults in their order: TooLong where the log has over 1,073,741,824 bytes; Log with its
/// first faulty line; NoMachine where nothing names a scenario or the machine's processors;
/// BadMachine where it has not 1 to 16,777,216; Read where the script's reader returns an error;
/// TooLong where the script has over 16,777,216 bytes, of which one more at most is read; Memory
/// where a growth is refused before the first command, while one refused later is the response to
/// the command; Write where the writer returns an error or takes no byte. Each except Write comes
/// before the first byte is written, and on Write what was written is a beginning of a transcript.
pub fn run_alone<R: Read + Drop, W: Write, T: Threads + Sync, A: Allocator + Copy>(
    rt: &T,
    alloc: A,
    script: R,
    writer: &mut W,
    log: &[u8],
    options: Options,
) -> Result<(), ProgramFault>
    ensures { RunsAlone A log.now options.procs (R.remaining script) (W.contents writer.old) (W.contents writer.new) result }
{
    let opened = opened_book(rt, alloc, log, options)?;
    let script = read_front(alloc, script, SCRIPT_LIMIT)?;
    work_script(alloc, script.as_slice(), writer, opened)
}
