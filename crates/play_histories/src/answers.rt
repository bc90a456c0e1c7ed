// What the calls of a session answer, written as the replies of the book machine.
use book_machine::Reply;
use scenarios::{NoSuchScenario, ScenarioId};
use std::alloc::Allocator;
use version_book::{
    AddRefusal, DropRefusal, EditRefusal, Published, RetryRefusal, ViewFault, ViewRefusal,
};

/// Why a call has no reply.
#[derive(Clone, Copy)]
pub(crate) enum Unanswered {
    /// The journal is full.
    JournalFull,
    /// A growth was refused.
    Memory,
    /// What was shown is not the run of its version.
    OtherRun,
}

/// What a call answers.
pub(crate) type Answer = Result<Reply, Unanswered>;

pub(crate) fn of_edit(outcome: Result<u64, EditRefusal>) -> Answer {
    match outcome {
        Ok(version) => Ok(Reply::Edited { version }),
        Err(EditRefusal::Fault(fault)) => Ok(Reply::EditRefused(fault)),
        Err(EditRefusal::JournalFull) => Err(Unanswered::JournalFull),
        Err(EditRefusal::Memory) => Err(Unanswered::Memory),
    }
}

pub(crate) fn of_add(outcome: Result<ScenarioId, AddRefusal>) -> Answer {
    match outcome {
        Ok(id) => Ok(Reply::Added { id }),
        Err(AddRefusal::Fault(fault)) => Ok(Reply::AddRefused(fault)),
        Err(AddRefusal::JournalFull) => Err(Unanswered::JournalFull),
        Err(AddRefusal::Memory) => Err(Unanswered::Memory),
    }
}

pub(crate) fn of_drop(outcome: Result<ScenarioId, DropRefusal>) -> Answer {
    match outcome {
        Ok(id) => Ok(Reply::Dropped { id }),
        Err(DropRefusal::Fault(NoSuchScenario)) => Ok(Reply::NoSuchScenario),
        Err(DropRefusal::JournalFull) => Err(Unanswered::JournalFull),
        Err(DropRefusal::Memory) => Err(Unanswered::Memory),
    }
}

pub(crate) fn of_retry(outcome: Result<(), RetryRefusal>) -> Answer {
    match outcome {
        Ok(()) => Ok(Reply::Retried),
        Err(RetryRefusal::Fault(NoSuchScenario)) => Ok(Reply::NoSuchScenario),
        Err(RetryRefusal::JournalFull) => Err(Unanswered::JournalFull),
        Err(RetryRefusal::Memory) => Err(Unanswered::Memory),
    }
}

// Why a view has no run, as a reply.
fn of_view_refusal(refusal: ViewRefusal) -> Answer {
    match refusal {
        ViewRefusal::Fault(ViewFault::NoSuchScenario) => Ok(Reply::NoSuchScenario),
        ViewRefusal::Fault(ViewFault::NotYet) => Ok(Reply::NotYet),
        ViewRefusal::Fault(ViewFault::Behind { seen, found }) => Ok(Reply::Behind { seen, found }),
        ViewRefusal::JournalFull => Err(Unanswered::JournalFull),
        ViewRefusal::Memory => Err(Unanswered::Memory),
    }
}

pub(crate) fn of_view<A: Allocator + Copy>(outcome: &Result<Published<A>, ViewRefusal>) -> Answer {
    match outcome {
        Ok(published) => Ok(Reply::Shown {
            version: published.version(),
        }),
        Err(refusal) => of_view_refusal(*refusal),
    }
}
