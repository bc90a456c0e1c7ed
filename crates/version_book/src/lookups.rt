// Look-ups among the scenarios of a book, of which there are at most 64.
ghost use Rattle.std.specs.Prelude.{◌≡◌, find, filter, count_by, not, option_copied, vec_capacity};
ghost use Rattle.std.specs.List.{list_any, position};
ghost use Rattle.version_book.specs.Lookups.{AreApart, has_id, is_awaited, is_behind, is_due_at, marking, publishing, settled_at, unmarking, version_shown, with_change};

use crate::shown::Shown;
use book_machine::SettleState;
use scenarios::ScenarioId;
use std::alloc::Allocator;
use tasks::tickets::is_out;
use tasks::{Published, Ticket};

pub(crate) fn shown_of<A: Allocator + Copy>(shown: &[Shown<A>], id: ScenarioId) -> Option<&Shown<A>>
    ensures { option_copied result ≡ find (has_id id) shown.now }
{
    shown.iter().find(move |x| x.has_id(id))
}

fn is_due<A: Allocator + Copy>(shown: &Shown<A>, version: u64, tickets: &[Ticket<A>]) -> bool
    ensures { result ≡ is_due_at version tickets.now shown.now }
{
    shown.is_behind(version) && !shown.is_marked(version) && !is_out(tickets, shown.id(), version)
}

pub(crate) fn first_due<'a, A: Allocator + Copy>(
    shown: &'a [Shown<A>],
    version: u64,
    tickets: &[Ticket<A>],
) -> Option<&'a Shown<A>>
    ensures { option_copied result ≡ find (is_due_at version tickets.now) shown.now }
{
    shown.iter().find(move |x| is_due(x, version, tickets))
}

fn is_any_awaited<A: Allocator + Copy>(shown: &[Shown<A>], seen: u64, version: u64) -> bool
    ensures { result ≡ list_any (is_awaited seen version) shown.now }
{
    shown.iter().any(move |x| x.is_awaited(seen, version))
}

fn count_behind<A: Allocator + Copy>(shown: &[Shown<A>], seen: u64) -> usize
    ensures { result ≡ count_by (is_behind seen) shown.now }
{
    shown.iter().filter(move |x| x.is_behind(seen)).count()
}

pub(crate) fn settled<A: Allocator + Copy>(
    shown: &[Shown<A>],
    seen: u64,
    version: u64,
) -> SettleState
    ensures { result ≡ settled_at seen version shown.now }
{
    if is_any_awaited(shown, seen, version) {
        return SettleState::Waiting;
    }
    let behind = count_behind(shown, seen);
    if behind == 0 {
        return SettleState::Done;
    }
    SettleState::Failed(behind as u64)
}

pub(crate) fn published_version<A: Allocator + Copy>(
    shown: &[Shown<A>],
    id: ScenarioId,
) -> Option<u64>
    ensures { result ≡ version_shown id shown.now }
{
    shown_of(shown, id)?.published_version()
}

fn place_of<A: Allocator + Copy>(shown: &[Shown<A>], id: ScenarioId) -> Option<usize>
    ensures { result ≡ position (has_id id) shown.now }
{
    shown.iter().position(move |x| x.has_id(id))
}

pub(crate) fn publish<A: Allocator + Copy>(
    shown: &mut Vec<Shown<A>, A>,
    id: ScenarioId,
    published: Published<A>,
)
    requires { AreApart shown.old.items }
    ensures shown { shown.new.items ≡ with_change id (publishing published) shown.old.items }
    ensures capacity { vec_capacity shown.new ≡ vec_capacity shown.old }
{
    if let Some(place) = place_of(shown, id) {
        shown[place].publish(published);
    }
}

pub(crate) fn mark<A: Allocator + Copy>(shown: &mut Vec<Shown<A>, A>, id: ScenarioId, version: u64)
    requires { AreApart shown.old.items }
    ensures shown { shown.new.items ≡ with_change id (marking version) shown.old.items }
    ensures capacity { vec_capacity shown.new ≡ vec_capacity shown.old }
{
    if let Some(place) = place_of(shown, id) {
        shown[place].mark(version);
    }
}

pub(crate) fn unmark<A: Allocator + Copy>(shown: &mut Vec<Shown<A>, A>, id: ScenarioId)
    requires { AreApart shown.old.items }
    ensures shown { shown.new.items ≡ with_change id unmarking shown.old.items }
    ensures capacity { vec_capacity shown.new ≡ vec_capacity shown.old }
{
    if let Some(place) = place_of(shown, id) {
        shown[place].unmark();
    }
}

pub(crate) fn hide<A: Allocator + Copy>(shown: &mut Vec<Shown<A>, A>, id: ScenarioId)
    ensures shown { shown.new.items ≡ filter (λ x. not (has_id id x)) shown.old.items }
    ensures capacity { vec_capacity shown.new ≡ vec_capacity shown.old }
{
    shown.retain(move |x| !x.has_id(id));
}
