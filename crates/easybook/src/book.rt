ghost use Rattle.std.specs.Prelude.{◌≡◌, ◌++◌, ℕ, List, Option, IfErr, IfOk, OnOk, map};
ghost use Rattle.parallel_reader.specs.Fronts.{IsFront};
ghost use Rattle.book_machine.specs.Call.{AddScenario};
ghost use Rattle.book_machine.specs.Machine.{after, opened};
ghost use Rattle.checkpoints.specs.Spacing.{IsSpacing};
ghost use Rattle.version_book.specs.Book.{machine_of};
ghost use Rattle.scripts.specs.Transcript.{with_scenarios};
ghost use Rattle.easybook.specs.Book.{IsBookOf};
ghost use Rattle.easybook.specs.Opened.{IsOpened};
ghost use Rattle.easybook.specs.Plain.{IsFaultOf};

use crate::fault::ProgramFault;
use crate::opened::{opening_behind, opening_of};
use crate::options::Options;
use commands::Opening;
use job_table::JobTable;
use parallel_reader::BegunLog;
use scenarios::{Scenario, ScenarioList};
use std::alloc::Allocator;
use std::marker::Sync;
use std::thread::Threads;
use swf_text::Memory;
use version_book::{AddRefusal, Book, BookFault};

/// A book over an opened log, and the log's comments that name no scenario.
#[derive(Drop)]
pub(crate) struct OpenedBook<A: Allocator + Copy> {
    pub(crate) book: Book<A>,
    pub(crate) comments: Vec<Vec<u8, A>, A>,
}

fn new_book<A: Allocator + Copy>(
    alloc: A,
    table: JobTable<A>,
    spacing: u32,
) -> Result<Book<A>, Memory>
    requires { IsSpacing spacing }
    ensures machine { IfOk result (λ b. machine_of b ≡ opened table) }
    ensures spacing { IfOk result (λ b. b.state.spacing ≡ spacing) }
{
    match Book::new(alloc, table, spacing) {
        Ok(book) => Ok(book),
        Err(BookFault::Memory) => Err(Memory),
        Err(BookFault::BadSpacing) => unreachable!(),
    }
}

fn add<A: Allocator + Copy>(
    book: &mut Book<A>,
    name: &str,
    scenario: Scenario,
) -> Result<(), Memory>
    ensures added { OnOk result (machine_of book.new ≡ after (AddScenario name.now scenario) (machine_of book.old)) }
    ensures spacing { OnOk result (book.new.state.spacing ≡ book.old.state.spacing) }
{
    match book.add_scenario(0, name, scenario) {
        Err(AddRefusal::JournalFull) => Err(Memory),
        Err(AddRefusal::Memory) => Err(Memory),
        Err(AddRefusal::Fault(_)) => Ok(()),
        Ok(_) => Ok(()),
    }
}

fn add_all<A: Allocator + Copy>(
    book: &mut Book<A>,
    scenarios: &ScenarioList<A>,
) -> Result<(), Memory>
    ensures added { OnOk result (machine_of book.new ≡ with_scenarios (machine_of book.old) scenarios.now.scenarios) }
    ensures spacing { OnOk result (book.new.state.spacing ≡ book.old.state.spacing) }
{
    'scenarios: for place in 0..scenarios.len() {
        let Some(row) = scenarios.at(place) else {
            unreachable!()
        };
        add(book, row.0, row.2)?;
    }
    Ok(())
}

pub(crate) fn book_over<A: Allocator + Copy>(
    alloc: A,
    opening: Opening<A>,
    spacing: u32,
) -> Result<OpenedBook<A>, Memory>
    requires { IsSpacing spacing }
    ensures { IfOk result (λ o. (log : List ℕ) (procs : Option ℕ) → IsOpened log procs (map (λ c. c.items) opening.comments.items) opening.table opening.scenarios
        → IsBookOf log procs spacing (map (λ c. c.items) o.comments.items) o.book) }
{
    let Opening {
        comments,
        table,
        scenarios,
    } = opening;
    let mut book = new_book(alloc, table, spacing)?;
    add_all(&mut book, &scenarios)?;
    Ok(OpenedBook { book, comments })
}

pub(crate) fn opened_book<T: Threads + Sync, A: Allocator + Copy>(
    rt: &T,
    alloc: A,
    log: &[u8],
    options: Options,
) -> Result<OpenedBook<A>, ProgramFault>
    ensures book { IfOk result (λ o. IsBookOf log.now options.procs options.spacing (map (λ c. c.items) o.comments.items) o.book) }
    ensures fault { IfErr result (IsFaultOf log.now options.procs) }
{
    let opening = opening_of(rt, alloc, log, options.procs)?;
    Ok(book_over(alloc, opening, options.spacing)?)
}

pub(crate) fn begun_book<T: Threads + Sync, A: Allocator + Copy>(
    rt: &T,
    alloc: A,
    begun: BegunLog<A>,
    options: Options,
) -> Result<OpenedBook<A>, ProgramFault>
    requires { (read : List ℕ) × IsFront read begun.front }
    ensures book { IfOk result (λ o. (read : List ℕ) → IsFront read begun.front → IsBookOf (read ++ begun.rest.items) options.procs options.spacing (map (λ c. c.items) o.comments.items) o.book) }
    ensures fault { IfErr result (λ f. (read : List ℕ) → IsFront read begun.front → IsFaultOf (read ++ begun.rest.items) options.procs f) }
{
    let (front, rest) = (begun.front, begun.rest);
    let opening = opening_behind(rt, alloc, front, rest.as_slice(), options.procs)?;
    drop(rest);
    Ok(book_over(alloc, opening, options.spacing)?)
}
