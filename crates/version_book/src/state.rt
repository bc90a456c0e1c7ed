ghost use Rattle.std.specs.Prelude.{◌≡◌, ◌≤◌, length, map, IfOk, ℕ};
ghost use Rattle.std.specs.Arc.{arc_value};
ghost use Rattle.book_machine.specs.Noted.{noted_edit_of};
ghost use Rattle.checkpoints.specs.Spacing.{IsSpacing};
ghost use Rattle.version_book.specs.Book.{StateView, machine_at};
ghost use Rattle.version_book.specs.Sound.{IsSound};
ghost use Rattle.version_book.specs.Steps.{opening_state};
ghost use Rattle.book_machine.specs.Machine.{settled};
ghost use Rattle.version_book.specs.Tasks.{free_due};

use crate::lookups::{first_due, settled};
use crate::shown::Shown;
use book_machine::{NotedEdit, SettleState};
use job_table::JobTable;
use scenarios::{MAX_SCENARIOS, ScenarioId, ScenarioList};
use std::alloc::Allocator;
use std::marker::Model;
use std::sync::Arc;
use swf_text::{ENTRY_LIMIT, Memory};
use tasks::Ticket;

/// The most tickets that stand at once.
pub(crate) const TICKET_LIMIT: usize = 256;

/// The state of a book: all that its calls change except the journal.
#[derive(Drop)]
pub(crate) struct State<A: Allocator + Copy> {
    pub(crate) alloc: A,
    pub(crate) spacing: u32,
    pub(crate) opening: Arc<JobTable<A>, A>,
    pub(crate) current: Arc<JobTable<A>, A>,
    pub(crate) edits: Vec<NotedEdit<A>, A>,
    pub(crate) scenarios: ScenarioList<A>,
    pub(crate) shown: Vec<Shown<A>, A>,
    pub(crate) tickets: Vec<Ticket<A>, A>,
    pub(crate) next_ticket: u64,
}

impl<A: Allocator + Copy> Model for State<A> {
    ghost use Rattle.std.specs.Prelude.{◌≤◌, map, vec_capacity};
    ghost use Rattle.std.specs.Arc.{arc_value};
    ghost use Rattle.book_machine.specs.Noted.{noted_edit_of};
    ghost use Rattle.scenarios.specs.Limits.{scenarios_limit};
    ghost use Rattle.book_machine.specs.Machine.{ticket_limit};
    ghost use Rattle.version_book.specs.Book.{StateView};
    ghost use Rattle.version_book.specs.Sound.{IsSound};

    ghost Value = { StateView };

    ghost view = { λ s. record { spacing = s.spacing; opening = arc_value s.opening; current = arc_value s.current; edits = map noted_edit_of s.edits.items; listing = s.scenarios; shown = s.shown.items; tickets = s.tickets.items; next_ticket = s.next_ticket } };

    ghost invariant = { λ s. IsSound (record { spacing = s.spacing; opening = arc_value s.opening; current = arc_value s.current; edits = map noted_edit_of s.edits.items; listing = s.scenarios; shown = s.shown.items; tickets = s.tickets.items; next_ticket = s.next_ticket }) × (scenarios_limit ≤ vec_capacity s.shown) × (ticket_limit ≤ vec_capacity s.tickets) };
}

impl<A: Allocator + Copy> State<A> {
    pub(crate) fn new(alloc: A, table: JobTable<A>, spacing: u32) -> Result<State<A>, Memory>
        requires { IsSpacing spacing }
        ensures state { IfOk result (λ s. s ≡ opening_state table spacing) }
        ensures sound { IfOk result IsSound }
    {
        prove!(table.len() <= ENTRY_LIMIT);
        let opening = Arc::new(alloc, table)?;
        let current = opening.clone()?;
        Ok(State {
            alloc,
            spacing,
            opening,
            current,
            edits: Vec::new(alloc),
            scenarios: ScenarioList::new(alloc),
            shown: Vec::with_capacity(alloc, MAX_SCENARIOS)?,
            tickets: Vec::with_capacity(alloc, TICKET_LIMIT)?,
            next_ticket: 1,
        })
    }

    pub(crate) fn version(&self) -> u64
        ensures version { result ≡ length self.now.edits }
        ensures sound { IsSound self.now }
    {
        self.edits.len() as u64
    }

    pub(crate) fn due(&self) -> Option<ScenarioId>
        ensures { result ≡ free_due self.now }
    {
        if self.tickets.len() >= TICKET_LIMIT {
            return None;
        }
        let version = self.edits.len() as u64;
        match first_due(self.shown.as_slice(), version, self.tickets.as_slice()) {
            Some(shown) => Some(shown.id()),
            None => None,
        }
    }

    pub(crate) fn settled(&self, seen: u64) -> SettleState
        ensures { (n : ℕ) → result ≡ settled seen (machine_at n self.now) }
    {
        settled(self.shown.as_slice(), seen, self.edits.len() as u64)
    }
}
