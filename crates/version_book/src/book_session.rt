ghost use Rattle.std.specs.Prelude.{◌≡◌};
ghost use Rattle.version_book.specs.Book.{machine_of};
ghost use Rattle.version_book.specs.BookRules.{book_rules};

use crate::analyst::Analyst;
use crate::book::Book;
use crate::reading::Reading;
use crate::refusal::{AddRefusal, DropRefusal, EditRefusal, RetryRefusal, ViewRefusal};
use book_machine::SettleState;
use job_table::Edit;
use scenarios::{Scenario, ScenarioId};
use std::alloc::Allocator;
use std::marker::Model;
use swf_text::Memory;
use tasks::Published;

/// A session with a book of its own, which works what is due when it settles.
#[derive(Drop)]
pub struct BookSession<A: Allocator + Copy> {
    pub book: Book<A>,
    /// The session's number in the book's notes.
    pub number: u64,
    /// The greatest version that an edit or a view returned.
    pub seen: u64,
}

impl<A: Allocator + Copy> Model for BookSession<A> {
    ghost use Rattle.version_book.specs.Book.{machine_of};
    ghost use Rattle.version_book.specs.Session.{Session};

    ghost Value = { Session };

    ghost view = { λ s. record { machine = machine_of s.book; seen = s.seen } };
}

impl<A: Allocator + Copy> BookSession<A> {
    /// Session 0 of a book, which has seen nothing yet.
    pub fn new(book: Book<A>) -> BookSession<A>
        ensures { result ≡ record { machine = machine_of book; seen = 0 } }
    {
        BookSession {
            book,
            number: 0,
            seen: 0,
        }
    }
}

impl<A: Allocator + Copy> Analyst<A> for BookSession<A> {
    ghost rules = { book_rules };

    fn edit(&mut self, edit: &Edit<A>) -> Result<u64, EditRefusal> {
        let outcome = self.book.edit(self.number, edit);
        if let Ok(version) = outcome {
            self.seen = self.seen.max(version);
        }
        outcome
    }

    fn add_scenario(&mut self, name: &str, scenario: Scenario) -> Result<ScenarioId, AddRefusal> {
        self.book.add_scenario(self.number, name, scenario)
    }

    fn drop_scenario(&mut self, name: &str) -> Result<ScenarioId, DropRefusal> {
        self.book.drop_scenario(self.number, name)
    }

    fn retry(&mut self, id: ScenarioId) -> Result<(), RetryRefusal> {
        self.book.retry(self.number, id)
    }

    fn view(&mut self, id: ScenarioId) -> Result<Published<A>, ViewRefusal> {
        let outcome = self.book.view(self.number, id, self.seen);
        if let Ok(published) = &outcome {
            self.seen = self.seen.max(published.version());
        }
        outcome
    }

    fn find(&mut self, name: &str) -> Option<ScenarioId> {
        self.book.id_of(name)
    }

    fn version(&mut self) -> u64 {
        self.book.version()
    }

    fn current(&mut self) -> Result<Reading<A>, Memory> {
        self.book.reading()
    }

    fn settle(&mut self) -> SettleState {
        self.settle_all().0
    }

    fn seen(&self) -> u64 {
        self.seen
    }
}
