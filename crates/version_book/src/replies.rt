// The replies that are noted for the results of the calls: none where the journal is full or memory runs out.
ghost use Rattle.std.specs.Prelude.{◌≡◌};
ghost use Rattle.version_book.specs.Answers.{edit_answer, add_answer, drop_answer, retry_answer, view_answer, claim_answer, finish_answer, give_up_answer, fitted};
ghost use Rattle.version_book.specs.Steps.{reply_in};

use crate::faults::{FinishFault, TooManyTickets, UnknownTicket, ViewFault};
use crate::refusal::{
    AddRefusal, ClaimRefusal, DropRefusal, EditRefusal, FinishRefusal, GiveUpRefusal, RetryRefusal,
    ViewRefusal,
};
use book_machine::Reply;
use scenarios::{NoSuchScenario, ScenarioId};
use std::alloc::Allocator;
use tasks::{Published, Task};

pub(crate) fn edit_reply(outcome: &Result<u64, EditRefusal>) -> Option<Reply>
    ensures { result ≡ reply_in (edit_answer outcome.now) }
{
    match outcome {
        Ok(version) => Some(Reply::Edited { version: *version }),
        Err(EditRefusal::Fault(fault)) => Some(Reply::EditRefused(*fault)),
        Err(EditRefusal::JournalFull) | Err(EditRefusal::Memory) => None,
    }
}

pub(crate) fn add_reply(outcome: &Result<ScenarioId, AddRefusal>) -> Option<Reply>
    ensures { result ≡ reply_in (add_answer outcome.now) }
{
    match outcome {
        Ok(id) => Some(Reply::Added { id: *id }),
        Err(AddRefusal::Fault(fault)) => Some(Reply::AddRefused(*fault)),
        Err(AddRefusal::JournalFull) | Err(AddRefusal::Memory) => None,
    }
}

pub(crate) fn drop_reply(outcome: &Result<ScenarioId, DropRefusal>) -> Option<Reply>
    ensures { result ≡ reply_in (drop_answer outcome.now) }
{
    match outcome {
        Ok(id) => Some(Reply::Dropped { id: *id }),
        Err(DropRefusal::Fault(NoSuchScenario)) => Some(Reply::NoSuchScenario),
        Err(DropRefusal::JournalFull) | Err(DropRefusal::Memory) => None,
    }
}

pub(crate) fn retry_reply(outcome: &Result<(), RetryRefusal>) -> Option<Reply>
    ensures { result ≡ reply_in (retry_answer outcome.now) }
{
    match outcome {
        Ok(()) => Some(Reply::Retried),
        Err(RetryRefusal::Fault(NoSuchScenario)) => Some(Reply::NoSuchScenario),
        Err(RetryRefusal::JournalFull) | Err(RetryRefusal::Memory) => None,
    }
}

pub(crate) fn view_reply<A: Allocator + Copy>(
    outcome: &Result<Published<A>, ViewRefusal>,
) -> Option<Reply>
    ensures { result ≡ reply_in (view_answer outcome.now) }
{
    match outcome {
        Ok(published) => Some(Reply::Shown {
            version: published.version(),
        }),
        Err(ViewRefusal::Fault(ViewFault::NoSuchScenario)) => Some(Reply::NoSuchScenario),
        Err(ViewRefusal::Fault(ViewFault::NotYet)) => Some(Reply::NotYet),
        Err(ViewRefusal::Fault(ViewFault::Behind { seen, found })) => Some(Reply::Behind {
            seen: *seen,
            found: *found,
        }),
        Err(ViewRefusal::JournalFull) | Err(ViewRefusal::Memory) => None,
    }
}

pub(crate) fn claim_reply<A: Allocator + Copy>(
    outcome: &Result<Option<Task<A>>, ClaimRefusal>,
) -> Option<Reply>
    ensures { result ≡ reply_in (claim_answer outcome.now) }
{
    match outcome {
        Ok(None) => Some(Reply::NoneDue),
        Ok(Some(task)) => Some(Reply::Claimed {
            ticket: task.ticket(),
            id: task.id(),
            version: task.version(),
            base: task.base_version(),
        }),
        Err(ClaimRefusal::Fault(TooManyTickets)) => Some(Reply::TooManyTickets),
        Err(ClaimRefusal::JournalFull) | Err(ClaimRefusal::Memory) => None,
    }
}

pub(crate) fn finish_reply(outcome: &Result<u64, FinishRefusal>) -> Option<Reply>
    ensures { result ≡ reply_in (finish_answer outcome.now) }
{
    match outcome {
        Ok(version) => Some(Reply::Finished { version: *version }),
        Err(FinishRefusal::Fault(FinishFault::UnknownTicket)) => Some(Reply::UnknownTicket),
        Err(FinishRefusal::Fault(FinishFault::Stranger)) => Some(Reply::Stranger),
        Err(FinishRefusal::Fault(FinishFault::Stale { published })) => Some(Reply::Stale {
            published: *published,
        }),
        Err(FinishRefusal::JournalFull) | Err(FinishRefusal::Memory) => None,
    }
}

/// Whether what a finish returned says that the run was of the ticket's log and scenario: it is
/// published, or is not newer than what is published.
pub fn fitted(outcome: &Result<u64, FinishRefusal>) -> bool
    ensures { result ≡ fitted outcome.now }
{
    matches!(
        outcome,
        Ok(_) | Err(FinishRefusal::Fault(FinishFault::Stale { .. }))
    )
}

pub(crate) fn give_up_reply(outcome: &Result<(), GiveUpRefusal>) -> Option<Reply>
    ensures { result ≡ reply_in (give_up_answer outcome.now) }
{
    match outcome {
        Ok(()) => Some(Reply::GivenUp),
        Err(GiveUpRefusal::Fault(UnknownTicket)) => Some(Reply::UnknownTicket),
        Err(GiveUpRefusal::JournalFull) | Err(GiveUpRefusal::Memory) => None,
    }
}
