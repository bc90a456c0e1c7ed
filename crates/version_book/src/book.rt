ghost use Rattle.std.specs.Prelude.{◌≡◌, length, IfOk, IfErr, OnOk, [], map};
ghost use Rattle.std.specs.Arc.{arc_value};
ghost use Rattle.book_machine.specs.Noted.{noted_of};
ghost use Rattle.checkpoints.specs.Spacing.{IsRefusal, IsSpacing};
ghost use Rattle.scenarios.specs.ScenarioList.{id_of};
ghost use Rattle.book_machine.specs.Machine.{current, settled};
ghost use Rattle.version_book.specs.Book.{machine_of};
ghost use Rattle.version_book.specs.Reading.{moment_of, present};
ghost use Rattle.version_book.specs.Sound.{IsBook};
ghost use Rattle.version_book.specs.Steps.{opening_state};
ghost use Rattle.version_book.specs.Tasks.{free_due};

use crate::reading::Reading;
use crate::state::State;
use book_machine::{Note, SettleState};
use checkpoints::{MAX_SPACING, RunFault};
use job_table::JobTable;
use scenarios::{ScenarioId, ScenarioList};
use std::alloc::Allocator;
use std::marker::Model;
use std::sync::Arc;
use swf_text::Memory;

/// A shared log with all its versions, scenarios with their published runs, tickets for runs that
/// are to be made, and a journal of every call.
///
/// In every book each published run is that of the log of the version that it names, under its
/// scenario, and the journal is a legal history of the book machine that leads to where the book
/// stands.
#[derive(Drop)]
pub struct Book<A: Allocator + Copy> {
    pub(crate) alloc: A,
    pub(crate) state: State<A>,
    pub(crate) journal: Vec<Note<A>, A>,
}

impl<A: Allocator + Copy> Model for Book<A> {
    ghost use Rattle.std.specs.Prelude.{map};
    ghost use Rattle.book_machine.specs.Noted.{noted_of};
    ghost use Rattle.version_book.specs.Book.{BookView};
    ghost use Rattle.version_book.specs.Sound.{IsBook};

    ghost Value = { BookView };

    ghost view = { λ b. record { state = b.state; journal = map noted_of b.journal.items } };

    ghost invariant = { λ b. IsBook (record { state = b.state; journal = map noted_of b.journal.items }) };
}

impl<A: Allocator + Copy> Book<A> {
    /// A book that opens a log: version 0, no scenario, no note. Runs are to be made in segments of
    /// at most `spacing` event seconds. BadSpacing where that is not within 1 to 65,536; Memory
    /// where a growth was refused.
    pub fn new(alloc: A, table: JobTable<A>, spacing: u32) -> Result<Book<A>, RunFault>
        ensures book { IfOk result (λ b. b ≡ record { state = opening_state table spacing; journal = [] }) }
        ensures spacing { OnOk result (IsSpacing spacing) }
        ensures fault { IfErr result (IsRefusal spacing) }
    {
        if spacing < 1 || spacing > MAX_SPACING {
            return Err(RunFault::BadSpacing);
        }
        let state = State::new(alloc, table, spacing)?;
        Ok(Book {
            alloc,
            state,
            journal: Vec::new(alloc),
        })
    }

    /// The current version: how many edits were accepted. In every book each published run is of
    /// its version, and the journal leads to where it stands.
    pub fn version(&self) -> u64
        ensures version { result ≡ length self.now.state.edits }
        ensures book { IsBook self.now }
    {
        self.state.version()
    }

    /// The log of the current version.
    pub fn current(&self) -> &Arc<JobTable<A>, A>
        ensures value { arc_value result.now ≡ self.now.state.current }
        ensures log { self.now.state.current ≡ current (machine_of self.now) }
    {
        &self.state.current
    }

    /// The scenarios, in the order in which they were added.
    pub fn scenarios(&self) -> &ScenarioList<A>
        ensures { result.now ≡ self.now.state.listing }
    {
        &self.state.scenarios
    }

    /// The version, its log and the scenarios, all of this moment. Memory where a growth is refused.
    pub fn reading(&self) -> Result<Reading<A>, Memory>
        ensures { IfOk result (λ r. moment_of r ≡ present (machine_of self.now)) }
    {
        Ok(Reading {
            version: self.version(),
            table: self.current().clone()?,
            scenarios: self.scenarios().copy()?,
        })
    }

    /// The id of the scenario with this name.
    pub fn id_of(&self, name: &str) -> Option<ScenarioId>
        ensures { result ≡ id_of name.now self.now.state.listing }
    {
        self.state.scenarios.id_of(name)
    }

    /// The most event seconds that a segment of a new run may hold.
    pub fn spacing(&self) -> u32
        ensures { result ≡ self.now.state.spacing }
    {
        self.state.spacing
    }

    /// The scenario for which a claim would return a task; also none while 256 tickets stand.
    pub fn due(&self) -> Option<ScenarioId>
        ensures { result ≡ free_due self.now.state }
    {
        self.state.due()
    }

    /// How far all scenarios are, compared with a version that was seen.
    pub fn settled(&self, seen: u64) -> SettleState
        ensures { result ≡ settled seen (machine_of self.now) }
    {
        self.state.settled(seen)
    }

    /// The notes of all calls, in their order.
    pub fn journal(&self) -> &[Note<A>]
        ensures { map noted_of result.now ≡ self.now.journal }
    {
        self.journal.as_slice()
    }
}
