ghost use Rattle.std.specs.Prelude.{◌≡◌, map};
ghost use Rattle.version_book.specs.Book.{machine_of};
ghost use Rattle.scripts.specs.Analysts.{AnswersBy, LineBy};
ghost use Rattle.scripts.specs.Replies.{reply_text};
ghost use Rattle.scripts.specs.Scripts.{TellsBy};
ghost use Rattle.scripts.specs.Transcript.{Tells, is_quit};

use crate::answer::Answer;
use crate::calls::{add, drop_named, edit, retry, settle, version};
use crate::reply::Reply;
use crate::saving::{log, save};
use crate::side::side;
use crate::view_report::Report;
use crate::views::view;
use commands::{Command, CommandFault, parse_command};
use job_table::Edit;
use std::alloc::Allocator;
use std::io::Write;
use swf_text::{WriteFault, split_line};
use version_book::{Analyst, Book, BookSession};

fn answer<S: Analyst<A>, A: Allocator + Copy>(
    analyst: &mut S,
    alloc: A,
    comments: &[Vec<u8, A>],
    command: Command<A>,
) -> Reply<A>
    ensures { AnswersBy S.rules (map (λ c. c.items) comments.now) analyst.old command (reply_text result) analyst.new }
{
    match command {
        Command::Insert(entry) => Reply::Line(edit(analyst, &Edit::Insert(entry))),
        Command::Remove(number) => Reply::Line(edit(analyst, &Edit::Remove(number))),
        Command::Change {
            number,
            field,
            value,
        } => Reply::Line(edit(
            analyst,
            &Edit::Change {
                number,
                field,
                value,
            },
        )),
        Command::Scenario { name, scenario } => Reply::Line(add(analyst, name, scenario)),
        Command::Drop(name) => Reply::Line(drop_named(analyst, name)),
        Command::Retry(name) => Reply::Line(retry(analyst, name)),
        Command::Settle => Reply::Line(settle(analyst)),
        Command::Schedule(name) => view(analyst, alloc, &name, Report::Schedule),
        Command::Table(name) => view(analyst, alloc, &name, Report::Table),
        Command::Users(name) => view(analyst, alloc, &name, Report::Users),
        Command::Days(name) => view(analyst, alloc, &name, Report::Days),
        Command::Side => side(analyst, alloc),
        Command::Log(name) => log(analyst, alloc, &name),
        Command::Save => save(analyst, alloc, comments),
        Command::Version => Reply::Line(version(analyst)),
        Command::Quit => Reply::Line(Answer::Bye),
    }
}

pub(crate) fn answer_line<S: Analyst<A>, A: Allocator + Copy>(
    analyst: &mut S,
    alloc: A,
    comments: &[Vec<u8, A>],
    line: u64,
    asked: Result<Option<Command<A>>, CommandFault>,
) -> Reply<A>
    ensures { LineBy S.rules (map (λ c. c.items) comments.now) analyst.old line asked (reply_text result) analyst.new }
{
    match asked {
        Ok(None) => Reply::Nothing,
        Ok(Some(command)) => answer(analyst, alloc, comments, command),
        Err(fault) => Reply::Line(Answer::Fault { line, fault }),
    }
}

pub(crate) fn is_quit<A: Allocator + Copy>(asked: &Result<Option<Command<A>>, CommandFault>) -> bool
    ensures { result ≡ is_quit asked.now }
{
    matches!(asked, Ok(Some(Command::Quit)))
}

/// Works a script line after line, up to the first `quit`, and writes the response to each line. The
/// comments are those of the log, which `save` writes.
///
/// Device where the writer returns an error or takes no byte: the response to the line that was worked
/// last is written in part, and those before it in full. No line behind it is worked.
pub fn work_lines<S: Analyst<A>, W: Write, A: Allocator + Copy>(
    analyst: &mut S,
    alloc: A,
    comments: &[Vec<u8, A>],
    script: &[u8],
    writer: &mut W,
) -> Result<(), WriteFault>
    ensures { TellsBy S.rules A (map (λ c. c.items) comments.now) analyst.old script.now (W.contents writer.old) (W.contents writer.new) result analyst.new }
{
    let mut rest = script;
    let mut number = 1u64;
    while !rest.is_empty() {
        let (line, after) = split_line(rest);
        let asked = parse_command(alloc, line);
        let quits = is_quit(&asked);
        answer_line(analyst, alloc, comments, number, asked).write(writer)?;
        if quits {
            return Ok(());
        }
        rest = after;
        number += 1;
    }
    Ok(())
}

/// Works a script on a book, line after line, and writes the response to each, as one session with one
/// worker, which works at `settle`. The comments are those of the log, which `save` writes.
///
/// Device where the writer returns an error or takes no byte; what was written then is a beginning of a
/// transcript of the script.
pub fn run_lines<W: Write, A: Allocator + Copy>(
    alloc: A,
    book: Book<A>,
    comments: &[Vec<u8, A>],
    script: &[u8],
    writer: &mut W,
) -> Result<(), WriteFault>
    ensures { Tells A (map (λ c. c.items) comments.now) (record { machine = machine_of book; seen = 0 }) script.now (W.contents writer.old) (W.contents writer.new) result }
{
    let mut session = BookSession::new(book);
    work_lines(&mut session, alloc, comments, script, writer)
}
