//! Look-ups among the standing tickets, of which there are at most 256.
ghost use Rattle.std.specs.Prelude.{◌≡◌, ◌==◌, find, filter, not, IfSome, option_copied, vec_capacity};
ghost use Rattle.std.specs.Arc.{arc_value};
ghost use Rattle.std.specs.List.{position};
ghost use Rattle.tasks.specs.Tickets.{HasThoseOf, has_number, is_out};

use crate::ticket::Ticket;
use checkpoints::Run;
use scenarios::ScenarioId;
use std::alloc::Allocator;
use std::sync::Arc;

/// The standing ticket with this number.
pub fn ticket_of<A: Allocator + Copy>(tickets: &[Ticket<A>], number: u64) -> Option<&Ticket<A>>
    ensures { option_copied result ≡ find (has_number number) tickets.now }
{
    tickets.iter().find(move |t| t.has_number(number))
}

/// Whether a ticket of the scenario stands at this version.
pub fn is_out<A: Allocator + Copy>(tickets: &[Ticket<A>], id: ScenarioId, version: u64) -> bool
    ensures { result ≡ is_out id version tickets.now }
{
    tickets.iter().any(move |t| t.is_of(id, version))
}

fn place_of<A: Allocator + Copy>(tickets: &[Ticket<A>], number: u64) -> Option<usize>
    ensures { result ≡ position (has_number number) tickets.now }
{
    tickets.iter().position(move |t| t.has_number(number))
}

/// The run that the task of the ticket with this number has left there, if one is there.
pub fn take_run<A: Allocator + Copy>(
    tickets: &mut Vec<Ticket<A>, A>,
    number: u64,
) -> Option<Arc<Run<A>, A>>
    ensures run { IfSome result (λ run. HasThoseOf (find (has_number number) tickets.old.items) (arc_value run)) }
    ensures tickets { tickets.new.items ≡ tickets.old.items }
    ensures capacity { vec_capacity tickets.new ≡ vec_capacity tickets.old }
{
    let place = place_of(tickets, number)?;
    tickets[place].take_run()
}

/// Closes the ticket with this number.
pub fn close<A: Allocator + Copy>(tickets: &mut Vec<Ticket<A>, A>, number: u64)
    ensures tickets { tickets.new.items ≡ filter (λ t. not (has_number number t)) tickets.old.items }
    ensures capacity { vec_capacity tickets.new ≡ vec_capacity tickets.old }
{
    tickets.retain(move |t| !t.has_number(number));
}

/// Closes the tickets of the scenario with this id.
pub fn close_all<A: Allocator + Copy>(tickets: &mut Vec<Ticket<A>, A>, id: ScenarioId)
    ensures tickets { tickets.new.items ≡ filter (λ t. not (t.id == id)) tickets.old.items }
    ensures capacity { vec_capacity tickets.new ≡ vec_capacity tickets.old }
{
    tickets.retain(move |t| !t.is_for(id));
}
