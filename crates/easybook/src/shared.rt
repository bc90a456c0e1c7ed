ghost use Rattle.std.specs.Prelude.{◌≡◌, ◌<◌, ◌+◌, ◌^◌, ◌++◌, ℕ, List, Option, true, length, map, nat_le};
ghost use Rattle.std.specs.List.{list_all};
ghost use Rattle.swf_text.specs.Writing.{Writes};
ghost use Rattle.parallel_reader.specs.Fronts.{IsFront};
ghost use Rattle.easybook.specs.Alone.{script_limit};
ghost use Rattle.easybook.specs.Book.{IsBookOf};
ghost use Rattle.easybook.specs.Shared.{RunsShared, head_line, headed};

use crate::alone::SCRIPT_LIMIT;
use crate::book::{OpenedBook, begun_book, opened_book};
use crate::fault::ProgramFault;
use crate::options::Options;
use crate::threads::run_scripts;
use chronicle::Unnamed;
use itoa::Buffer;
use parallel_reader::BegunLog;
use std::alloc::Allocator;
use std::io::Write;
use std::marker::Brand;
use std::sync::Wait;
use std::thread::Threads;
use swf_text::{WriteFault, write_bytes};
use workers::{Gate, NoGate};

fn is_within<A: Allocator + Copy>(script: &Vec<u8, A>) -> bool
    ensures { result ≡ nat_le (length script.now.items) script_limit }
{
    script.len() as u64 <= SCRIPT_LIMIT
}

fn are_within<A: Allocator + Copy>(scripts: &[Vec<u8, A>]) -> bool
    ensures { result ≡ list_all (λ s. nat_le (length s.items) script_limit) scripts.now }
{
    scripts.iter().all(|script| is_within(script))
}

fn write_head<W: Write>(writer: &mut W, number: u64) -> Result<(), WriteFault>
    ensures { Writes result (W.contents writer.old) (W.contents writer.new) (head_line number) }
{
    let mut buffer = Buffer::new();
    write_bytes(writer, b"== ")?;
    write_bytes(writer, buffer.format(number).as_bytes())?;
    write_bytes(writer, b"\n")
}

fn write_one<W: Write>(writer: &mut W, number: u64, text: &[u8]) -> Result<(), WriteFault>
    ensures { Writes result (W.contents writer.old) (W.contents writer.new) (head_line number ++ text.now) }
{
    write_head(writer, number)?;
    write_bytes(writer, text)
}

fn write_all<W: Write, A: Allocator + Copy>(
    writer: &mut W,
    number: u64,
    texts: &[Vec<u8, A>],
) -> Result<(), WriteFault>
    requires { number + length texts.now < 2 ^ 64 }
    ensures { Writes result (W.contents writer.old) (W.contents writer.new) (headed number (map (λ t. t.items) texts.now)) }
{
    let Some((text, rest)) = texts.split_first() else {
        return Ok(());
    };
    write_one(writer, number, text.as_slice())?;
    write_all(writer, number + 1, rest)
}

fn share<W: Write, A: Allocator + Copy + Send + Sync, R: Threads + Wait + Sync, G: Gate + Sync>(
    rt: &R,
    alloc: A,
    scripts: &[Vec<u8, A>],
    writer: &mut W,
    opened: OpenedBook<A>,
    options: Options,
    gate: &G,
) -> Result<(), ProgramFault>
    requires { list_all (λ s. nat_le (length s.items) script_limit) scripts.now ≡ true }
    ensures { (log : List ℕ) (procs : Option ℕ) (spacing : ℕ) → IsBookOf log procs spacing (map (λ c. c.items) opened.comments.items) opened.book
        → RunsShared A log procs (map (λ s. s.items) scripts.now) (W.contents writer.old) (W.contents writer.new) result }
{
    let OpenedBook { book, comments } = opened;
    let comments = comments.as_slice();
    let texts = run_scripts::<A, Brand, R, G>(
        rt,
        alloc,
        book,
        Unnamed::new(),
        comments,
        scripts,
        options.workers,
        gate,
    )?;
    write_all(writer, 1, texts.as_slice())?;
    Ok(())
}

/// Works scripts on one log side by side: each as a session of its own, on a thread of its own, while
/// `options.workers` threads simulate. The responses to each script are written once all have ended,
/// in the scripts' order, each after a line `== k`, k from 1. A desk has at most 64 sessions and 64
/// workers.
///
/// There is one legal history of the log's book along which each script is answered: the reply to each
/// of its calls is that of the book's machine at the call's place, each report is that of the log of the
/// version that the view shows there, and each reading is that of a place between those of the lines
/// before and behind. The history's calls of session k, k from 0, are those of script k + 1, in their
/// order; no other session makes one, and workers only claim, hand in and give up.
///
/// The log is opened as by `run_alone`. The faults in their order: TooLong where the log has over
/// 1,073,741,824 bytes, or a script over 16,777,216; Log with its first faulty line; NoMachine where
/// nothing names a scenario or the machine's processors; BadMachine where it has not 1 to 16,777,216;
/// Memory where a growth, or the start of a thread, is refused, except one that is the response to a
/// command, or where there are more scripts or workers than a desk has; Close where the callers' lists
/// are not the book's history; Write where the writer returns an error or takes no byte. Each except
/// Write comes before the first byte is written.
pub fn run_shared<W: Write, A: Allocator + Copy + Send + Sync, R: Threads + Wait + Sync>(
    rt: &R,
    alloc: A,
    scripts: &[Vec<u8, A>],
    writer: &mut W,
    log: &[u8],
    options: Options,
) -> Result<(), ProgramFault>
    ensures { RunsShared A log.now options.procs (map (λ s. s.items) scripts.now) (W.contents writer.old) (W.contents writer.new) result }
{
    run_shared_gated(rt, alloc, scripts, writer, log, options, &NoGate)
}

/// As `run_shared`; the gate is called before each simulation of a worker, and behind one that made a
/// run.
pub fn run_shared_gated<
    W: Write,
    A: Allocator + Copy + Send + Sync,
    R: Threads + Wait + Sync,
    G: Gate + Sync,
>(
    rt: &R,
    alloc: A,
    scripts: &[Vec<u8, A>],
    writer: &mut W,
    log: &[u8],
    options: Options,
    gate: &G,
) -> Result<(), ProgramFault>
    ensures { RunsShared A log.now options.procs (map (λ s. s.items) scripts.now) (W.contents writer.old) (W.contents writer.new) result }
{
    if !are_within(scripts) {
        return Err(ProgramFault::TooLong);
    }
    let opened = opened_book(rt, alloc, log, options)?;
    share(rt, alloc, scripts, writer, opened, options, gate)
}

pub(crate) fn run_shared_begun<
    W: Write,
    A: Allocator + Copy + Send + Sync,
    R: Threads + Wait + Sync,
>(
    rt: &R,
    alloc: A,
    scripts: &[Vec<u8, A>],
    writer: &mut W,
    begun: BegunLog<A>,
    options: Options,
) -> Result<(), ProgramFault>
    requires { (read : List ℕ) × IsFront read begun.front }
    ensures { (read : List ℕ) → IsFront read begun.front → RunsShared A (read ++ begun.rest.items) options.procs (map (λ s. s.items) scripts.now) (W.contents writer.old) (W.contents writer.new) result }
{
    if !are_within(scripts) {
        return Err(ProgramFault::TooLong);
    }
    let opened = begun_book(rt, alloc, begun, options)?;
    share(rt, alloc, scripts, writer, opened, options, &NoGate)
}
