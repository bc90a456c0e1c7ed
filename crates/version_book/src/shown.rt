ghost use Rattle.std.specs.Prelude.{◌≡◌, ◌==◌, ◌&&◌, None, Some, option_copied};
ghost use Rattle.book_machine.specs.Machine.{is_below};
ghost use Rattle.version_book.specs.Book.{published_version};
ghost use Rattle.version_book.specs.Lookups.{has_id, is_mark, is_behind, is_awaited};

use scenarios::{Scenario, ScenarioId};
use std::alloc::Allocator;
use std::marker::Model;
use tasks::Published;

/// A scenario of the book: what is published for it, and the version at which its run was given up.
#[derive(Drop)]
pub(crate) struct Shown<A: Allocator + Copy> {
    id: ScenarioId,
    scenario: Scenario,
    published: Option<Published<A>>,
    mark: Option<u64>,
}

impl<A: Allocator + Copy> Model for Shown<A> {
    ghost use Rattle.version_book.specs.Book.{ShownView};

    ghost Value = { ShownView };

    ghost view = { λ s. record { id = s.id; scenario = s.scenario; published = s.published; mark = s.mark } };
}

pub(crate) fn is_below(published: Option<u64>, version: u64) -> bool
    ensures { result ≡ is_below published version }
{
    match published {
        Some(found) => found < version,
        None => true,
    }
}

fn is_mark(mark: Option<u64>, version: u64) -> bool
    ensures { result ≡ is_mark mark version }
{
    match mark {
        Some(given_up) => given_up == version,
        None => false,
    }
}

impl<A: Allocator + Copy> Shown<A> {
    pub(crate) fn new(id: ScenarioId, scenario: Scenario) -> Shown<A>
        ensures { result ≡ record { id = id; scenario = scenario; published = None; mark = None } }
    {
        Shown {
            id,
            scenario,
            published: None,
            mark: None,
        }
    }

    pub(crate) fn id(&self) -> ScenarioId
        ensures { result ≡ self.now.id }
    {
        self.id
    }

    pub(crate) fn has_id(&self, id: ScenarioId) -> bool
        ensures { result ≡ has_id id self.now }
    {
        self.id.number() == id.number()
    }

    pub(crate) fn scenario(&self) -> Scenario
        ensures { result ≡ self.now.scenario }
    {
        self.scenario
    }

    pub(crate) fn published(&self) -> Option<&Published<A>>
        ensures { option_copied result ≡ self.now.published }
    {
        self.published.as_ref()
    }

    pub(crate) fn published_version(&self) -> Option<u64>
        ensures { result ≡ published_version self.now }
    {
        Some(self.published.as_ref()?.version())
    }

    pub(crate) fn is_marked(&self, version: u64) -> bool
        ensures { result ≡ is_mark self.now.mark version }
    {
        is_mark(self.mark, version)
    }

    pub(crate) fn is_behind(&self, seen: u64) -> bool
        ensures { result ≡ is_behind seen self.now }
    {
        is_below(self.published_version(), seen)
    }

    pub(crate) fn is_awaited(&self, seen: u64, version: u64) -> bool
        ensures { result ≡ is_awaited seen version self.now }
    {
        self.is_behind(seen) && !(self.is_marked(version) && seen <= version)
    }

    pub(crate) fn publish(&mut self, published: Published<A>)
        ensures { self.new ≡ record self.old { published = Some published } }
    {
        self.published = Some(published);
    }

    pub(crate) fn mark(&mut self, version: u64)
        ensures { self.new ≡ record self.old { mark = Some version } }
    {
        self.mark = Some(version);
    }

    pub(crate) fn unmark(&mut self)
        ensures { self.new ≡ record self.old { mark = None } }
    {
        self.mark = None;
    }
}
