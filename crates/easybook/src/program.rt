// The log in a file and its script are both read before the log is opened: Read where either cannot be read,
// whatever the other holds. The jobs of a log alone are not dropped one by one, since the process ends then.
ghost use Rattle.std.specs.Prelude.{◌≡◌, ◌<◌, ◌+◌, IfErr, IfOk, IfSome, List, None, Option, Some, map, slice_get, take, ℕ};
ghost use Rattle.std.specs.Option.{option_map};
ghost use Rattle.easybook.specs.Alone.{script_limit};
ghost use Rattle.easybook.specs.Input.{IsBegunUpTo, IsInputFault, IsReadFault};
ghost use Rattle.easybook.specs.Opened.{IsOpened};
ghost use Rattle.easybook.specs.Plain.{Answers, log_limit};
ghost use Rattle.easybook.specs.Program.{AreFronts, Ends, EndsFrom, EndsOnFile, EndsOnInput, EndsOnScripts, IsBegunLog, log_known};

use crate::alone::{SCRIPT_LIMIT, work_script};
use crate::book::{begun_book, book_over};
use crate::fault::ProgramFault;
use crate::input::{begin_front, begin_input, read_front, read_input};
use crate::live::talk_on_file;
use crate::opened::{LOG_LIMIT, opening_behind};
use crate::options::Options;
use crate::plain::write_first;
use crate::shared::run_shared_begun;
use crate::sources::{NamedFiles, Sources};
use crate::split::split_input;
use crate::stop::Stop;
use crate::words::{Words, read_words};
use commands::Opening;
use parallel_reader::BegunLog;
use std::alloc::{Allocator, Global};
use std::io::{Read, Write};
use std::marker::Sync;
use std::mem::forget;
use std::rt::Files;
use std::sync::Wait;
use std::thread::Threads;

/// The most bytes of standard input where it holds the log.
const INPUT_LIMIT: u64 = 1_200_000_000;

fn run_file<L: Read + Drop, R: Read + Drop, W: Write, T: Threads + Sync, A: Allocator + Copy>(
    rt: &T,
    alloc: A,
    log: L,
    script: R,
    writer: &mut W,
    options: Options,
) -> Result<(), ProgramFault>
    ensures { EndsOnFile A (L.remaining log) options.procs (R.remaining script) (W.contents writer.old) (W.contents writer.new) result }
{
    let begun = begin_front(rt, alloc, log, LOG_LIMIT as u64)?;
    let script = read_front(alloc, script, SCRIPT_LIMIT)?;
    let opened = begun_book(rt, alloc, begun, options)?;
    work_script(alloc, script.as_slice(), writer, opened)
}

fn write_last<W: Write, T: Threads + Sync, A: Allocator + Copy>(
    rt: &T,
    alloc: A,
    writer: &mut W,
    opening: Opening<A>,
) -> Result<(), ProgramFault>
    requires { slice_get opening.scenarios.scenarios 0 ≡ None → ⊥ }
    ensures { (log : List ℕ) (procs : Option ℕ) → IsOpened log procs (map (λ c. c.items) opening.comments.items) opening.table opening.scenarios
        → Answers log procs (W.contents writer.old) (W.contents writer.new) result }
{
    match write_first(rt, alloc, writer, opening) {
        Ok(plan) => {
            forget(plan);
            Ok(())
        }
        Err(fault) => Err(fault),
    }
}

fn run_input<R: Read + Drop, W: Write, T: Threads + Sync, A: Allocator + Copy>(
    rt: &T,
    alloc: A,
    reader: R,
    writer: &mut W,
    options: Options,
) -> Result<(), ProgramFault>
    ensures { EndsOnInput A options.procs (R.remaining reader) (W.contents writer.old) (W.contents writer.new) result }
{
    let begun = begin_input(rt, alloc, reader, INPUT_LIMIT)?;
    let (front, rest) = (begun.front, begun.rest);
    let (log, script) = split_input(rest.as_slice());
    let opening = opening_behind(rt, alloc, front, log, options.procs)?;
    match script {
        Some(script) => {
            let opened = book_over(alloc, opening, options.spacing)?;
            let script = read_input(alloc, script, SCRIPT_LIMIT)?;
            drop(rest);
            work_script(alloc, script.as_slice(), writer, opened)
        }
        None => {
            drop(rest);
            write_last(rt, alloc, writer, opening)
        }
    }
}

#[tactic(auto, using(crate::proofs::Inputs::reader_fails))]
fn read_script<S: Sources>(alloc: Global, sources: &S, name: &str) -> Result<Vec<u8>, ProgramFault>
    ensures front { IfOk result (λ bytes. IfSome (S.known sources.now name.now) (λ all. bytes.items ≡ take (script_limit + 1) all)) }
    ensures fault { IfErr result IsReadFault }
{
    read_front(alloc, sources.source(name)?, SCRIPT_LIMIT)
}

fn read_scripts<S: Sources>(
    alloc: Global,
    sources: &S,
    names: &[&str],
) -> Result<Vec<Vec<u8>>, ProgramFault>
    ensures fronts { IfOk result (λ scripts. AreFronts (S.known sources.now) (map (λ n. n.now) names.now) (map (λ s. s.items) scripts.items)) }
    ensures fault { IfErr result IsReadFault }
{
    let mut scripts = Vec::with_capacity(alloc, names.len())?;
    for name in names {
        let script = read_script(alloc, sources, name)?;
        scripts.push(script)?;
    }
    Ok(scripts)
}

#[tactic(auto, using(crate::proofs::Inputs::reader_fails))]
fn begin_named<S: Sources, T: Threads + Sync>(
    alloc: Global,
    rt: &T,
    sources: &S,
    name: &str,
) -> Result<BegunLog<Global>, ProgramFault>
    ensures front { IfOk result (λ b. IsBegunUpTo (log_limit + 1) (S.known sources.now name.now) b.front b.rest.items) }
    ensures fault { IfErr result IsReadFault }
{
    begin_front(rt, alloc, sources.source(name)?, LOG_LIMIT as u64)
}

fn begin_log<S: Sources, T: Threads + Sync, R: Read + Drop>(
    alloc: Global,
    rt: &T,
    sources: &S,
    name: Option<&str>,
    reader: R,
) -> Result<BegunLog<Global>, ProgramFault>
    ensures front { IfOk result (λ b. IsBegunLog (log_known (S.known sources.now) (option_map (λ n. n.now) name.entry) (R.remaining reader)) b.front b.rest.items) }
    ensures fault { IfErr result (IsInputFault (log_known (S.known sources.now) (option_map (λ n. n.now) name.entry) (R.remaining reader)) log_limit) }
{
    match name {
        Some(name) => begin_named(alloc, rt, sources, name),
        None => begin_input(rt, alloc, reader, INPUT_LIMIT),
    }
}

#[tactic(auto, using(crate::proofs::Besides::unhad_ends))]
fn run_beside<S: Sources, T: Threads + Wait + Sync, R: Read + Drop, W: Write>(
    alloc: Global,
    rt: &T,
    sources: &S,
    words: &Words<'_>,
    reader: R,
    writer: &mut W,
) -> Result<(), ProgramFault>
    ensures { EndsOnScripts (S.known sources.now) (map (λ s. s.now) words.now.scripts.items) words.now.options.procs (log_known (S.known sources.now) (option_map (λ p. p.now) words.now.log) (R.remaining reader)) (W.contents writer.old) (W.contents writer.new) result }
{
    let begun = begin_log(alloc, rt, sources, words.log, reader)?;
    let scripts = read_scripts(alloc, sources, words.scripts.as_slice())?;
    run_shared_begun(rt, alloc, scripts.as_slice(), writer, begun, words.options)
}

fn run_on_named<S: Sources, T: Threads + Sync, R: Read + Drop, W: Write>(
    alloc: Global,
    rt: &T,
    sources: &S,
    name: &str,
    words: &Words<'_>,
    reader: R,
    writer: &mut W,
) -> Result<(), ProgramFault>
    ensures { EndsFrom (S.known sources.now) (Some name.now) words.now.live words.now.options.procs (R.remaining reader) (W.contents writer.old) (W.contents writer.new) result }
{
    let log = sources.source(name)?;
    if words.live {
        return talk_on_file(rt, alloc, log, reader, writer, words.options);
    }
    run_file(rt, alloc, log, reader, writer, words.options)
}

/// Runs the program: its words, its name first, then its input.
///
/// Where the words name scripts, these are worked side by side, as by `run_shared`, on the log, which is
/// the named file or all of the reader's bytes. Where they name none but a log, the reader's bytes are
/// the script, worked as by `run_alone`, or with `--live` a conversation, held as by `run_live`. Where
/// they name neither, the reader's bytes are cut by `split_input`: a script in them is worked as by
/// `run_alone` on the log before it, and a log alone is run as by `run_plain`.
///
/// The faults in their order: those of `read_words`; Read where the file cannot be opened or read;
/// without a file TooLong where the reader has over 1,200,000,000 bytes; Read where the reader returns
/// an error; those of the called function. A log in a file is read to at most one byte past
/// 1,073,741,824, a script beside it to one past 16,777,216. Memory where a growth is refused. Where the
/// words are bad or the input cannot be read, nothing is written, but what a conversation was answered
/// before its reader failed. The memory of a log alone is not given back, since the process ends behind
/// this call.
pub fn run_words<F: Files + Threads + Wait + Sync, R: Read + Drop, W: Write>(
    alloc: Global,
    files: &F,
    words: &[&str],
    reader: R,
    writer: &mut W,
) -> Result<(), Stop>
    ensures { Ends (λ _. None) (map (λ w. w.now) words.now) (R.remaining reader) (W.contents writer.old) (W.contents writer.new) result }
{
    run_named_words(alloc, files, &NamedFiles::new(files), words, reader, writer)
}

/// As `run_words`, where the words name these sources in the place of files: each script is read from
/// the source that has its name, in the order of the words, and so is a log that is named.
pub fn run_named_words<S: Sources, T: Threads + Wait + Sync, R: Read + Drop, W: Write>(
    alloc: Global,
    rt: &T,
    sources: &S,
    words: &[&str],
    reader: R,
    writer: &mut W,
) -> Result<(), Stop>
    ensures { Ends (S.known sources.now) (map (λ w. w.now) words.now) (R.remaining reader) (W.contents writer.old) (W.contents writer.new) result }
{
    let words = read_words(alloc, words)?;
    if !words.scripts.is_empty() {
        run_beside(alloc, rt, sources, &words, reader, writer)?;
        return Ok(());
    }
    match words.log {
        Some(name) => run_on_named(alloc, rt, sources, name, &words, reader, writer)?,
        None => run_input(rt, alloc, reader, writer, words.options)?,
    }
    Ok(())
}
