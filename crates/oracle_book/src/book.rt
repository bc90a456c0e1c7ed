use crate::row::{PlainScenario, PlainTicket};
use book_machine::{Call, NotedEdit, Reply, SettleState};
use job_table::{EditFault, JobTable};
use scenarios::{AddFault, Scenario, ScenarioId, ScenarioList};
use std::alloc::Allocator;
use swf_text::Memory;

/// The most tickets that stand at once.
const TICKET_LIMIT: usize = 256;

/// The log as it is now, the scenarios, and the tasks that workers have.
#[derive(Drop)]
pub struct PlainBook<A: Allocator + Copy> {
    log: JobTable<A>,
    names: ScenarioList<A>,
    scenarios: Vec<PlainScenario, A>,
    tickets: Vec<PlainTicket, A>,
    version: u64,
    last_ticket: u64,
}

impl<A: Allocator + Copy> PlainBook<A> {
    /// A log that was just opened: version 0, no scenario, no ticket.
    pub fn new(alloc: A, log: JobTable<A>) -> PlainBook<A> {
        PlainBook {
            log,
            names: ScenarioList::new(alloc),
            scenarios: Vec::new(alloc),
            tickets: Vec::new(alloc),
            version: 0,
            last_ticket: 0,
        }
    }

    /// What a call replies, which it then has changed; Memory where a growth is refused.
    pub fn step(&mut self, call: &Call<A>) -> Result<Reply, Memory> {
        match call {
            Call::Edit(edit) => self.edit(edit),
            Call::AddScenario { name, scenario } => self.add(name.text(), *scenario),
            Call::DropScenario { name } => Ok(self.drop_named(name.text())),
            Call::Retry { id } => Ok(self.retry(*id)),
            Call::Claim => self.claim(),
            Call::Finish { ticket, fits } => Ok(self.finish(*ticket, *fits)),
            Call::GiveUp { ticket } => Ok(self.give_up(*ticket)),
            Call::View { id, seen } => Ok(self.view(*id, *seen)),
        }
    }

    /// How far the scenarios are, for a session that has seen this version.
    pub fn settled(&self, seen: u64) -> SettleState {
        let given_up = |scenario: &PlainScenario| {
            seen <= self.version && scenario.was_given_up(self.version)
        };
        let behind = self
            .scenarios
            .iter()
            .filter(|scenario| !scenario.shows(seen))
            .count();
        let waiting = self
            .scenarios
            .iter()
            .any(|scenario| !scenario.shows(seen) && !given_up(scenario));
        if waiting {
            return SettleState::Waiting;
        }
        if behind == 0 {
            return SettleState::Done;
        }
        SettleState::Failed(behind as u64)
    }

    fn edit(&mut self, edit: &NotedEdit<A>) -> Result<Reply, Memory> {
        let edit = edit.edit()?;
        match self.log.apply(&edit) {
            Ok(()) => {
                self.version = self.version.saturating_add(1);
                Ok(Reply::Edited {
                    version: self.version,
                })
            }
            Err(EditFault::Memory) => Err(Memory),
            Err(fault) => Ok(Reply::EditRefused(fault)),
        }
    }

    // A scenario more, of which nothing is shown.
    fn add(&mut self, name: &str, scenario: Scenario) -> Result<Reply, Memory> {
        self.scenarios.reserve(1)?;
        match self.names.add(name, scenario) {
            Ok(id) => {
                self.scenarios.push(PlainScenario {
                    id,
                    shown: None,
                    given_up: None,
                })?;
                Ok(Reply::Added { id })
            }
            Err(AddFault::Memory) => Err(Memory),
            Err(fault) => Ok(Reply::AddRefused(fault)),
        }
    }

    fn drop_named(&mut self, name: &str) -> Reply {
        match self.names.drop_named(name) {
            Ok(id) => {
                self.scenarios.retain(|scenario| scenario.id != id);
                self.tickets.retain(|ticket| ticket.id != id);
                Reply::Dropped { id }
            }
            Err(_) => Reply::NoSuchScenario,
        }
    }

    fn place_of(&self, id: ScenarioId) -> Option<usize> {
        self.scenarios.iter().position(|scenario| scenario.id == id)
    }

    fn ticket(&self, number: u64) -> Option<PlainTicket> {
        for ticket in &self.tickets {
            if ticket.number == number {
                return Some(*ticket);
            }
        }
        None
    }

    // That ticket is worked no more.
    fn close(&mut self, number: u64) {
        self.tickets.retain(|ticket| ticket.number != number);
    }

    fn retry(&mut self, id: ScenarioId) -> Reply {
        let Some(place) = self.place_of(id) else {
            return Reply::NoSuchScenario;
        };
        if let Some(scenario) = self.scenarios.get_mut(place) {
            scenario.given_up = None;
        }
        Reply::Retried
    }

    // Whether a worker has a task of this scenario for the log as it is now.
    fn is_worked(&self, id: ScenarioId) -> bool {
        for ticket in &self.tickets {
            if ticket.id == id && ticket.version == self.version {
                return true;
            }
        }
        false
    }

    // The first scenario whose run for the log as it is now is missing, and nobody works on it.
    fn first_missing(&self) -> Option<PlainScenario> {
        for scenario in &self.scenarios {
            if !scenario.shows(self.version)
                && !scenario.was_given_up(self.version)
                && !self.is_worked(scenario.id)
            {
                return Some(*scenario);
            }
        }
        None
    }

    fn claim(&mut self) -> Result<Reply, Memory> {
        let Some(scenario) = self.first_missing() else {
            return Ok(Reply::NoneDue);
        };
        if self.tickets.len() >= TICKET_LIMIT {
            return Ok(Reply::TooManyTickets);
        }
        let number = self.last_ticket.saturating_add(1);
        self.tickets.push(PlainTicket {
            number,
            id: scenario.id,
            version: self.version,
        })?;
        self.last_ticket = number;
        Ok(Reply::Claimed {
            ticket: number,
            id: scenario.id,
            version: self.version,
            base: scenario.shown,
        })
    }

    fn finish(&mut self, number: u64, fits: bool) -> Reply {
        let Some(ticket) = self.ticket(number) else {
            return Reply::UnknownTicket;
        };
        if !fits {
            return Reply::Stranger;
        }
        self.close(number);
        if let Some(at) = self.place_of(ticket.id)
            && let Some(scenario) = self.scenarios.get_mut(at)
        {
            if let Some(published) = scenario.shown
                && published >= ticket.version
            {
                return Reply::Stale { published };
            }
            scenario.shown = Some(ticket.version);
        }
        Reply::Finished {
            version: ticket.version,
        }
    }

    // A ticket without a run; where it is for the log as it is now, nobody is to try again.
    fn give_up(&mut self, number: u64) -> Reply {
        let Some(ticket) = self.ticket(number) else {
            return Reply::UnknownTicket;
        };
        self.close(number);
        if ticket.version == self.version
            && let Some(at) = self.place_of(ticket.id)
            && let Some(scenario) = self.scenarios.get_mut(at)
        {
            scenario.given_up = Some(ticket.version);
        }
        Reply::GivenUp
    }

    fn view(&self, id: ScenarioId, seen: u64) -> Reply {
        let Some(place) = self.place_of(id) else {
            return Reply::NoSuchScenario;
        };
        match self.scenarios.get(place) {
            Some(scenario) => match scenario.shown {
                Some(found) if found < seen => Reply::Behind { seen, found },
                Some(version) => Reply::Shown { version },
                None => Reply::NotYet,
            },
            None => Reply::NoSuchScenario,
        }
    }
}
