// What a session calls and reads at a desk.
use crate::answers;
use crate::answers::{Answer, Unanswered};
use crate::known_log::{Looks, is_current, is_right};
use crate::session_call::SessionCall;
use crate::wrong::Wrong;
use book_machine::Reply;
use chronicle::Naming;
use job_table::Edit;
use scenarios::ScenarioId;
use std::alloc::Allocator;
use std::sync::Wait;
use version_book::{Published, ViewRefusal};
use workers::{Desk, Session, Settled};

/// Whether what a session has seen goes with what it was answered: what it was answered last, and never
/// less.
pub(crate) fn is_seen(before: u64, after: u64, reply: &Reply) -> bool {
    match reply {
        Reply::Edited { version } | Reply::Shown { version } => {
            before <= *version && after == *version
        }
        _ => after == before,
    }
}

// What a view answers; a run of the known log is to be that of its version.
fn of_known<A: Allocator + Copy>(outcome: &Result<Published<A>, ViewRefusal>) -> Answer {
    match outcome {
        Ok(shown) if !is_right(shown) => Err(Unanswered::OtherRun),
        _ => answers::of_view(outcome),
    }
}

/// A desk, with what lets a thread wait at it.
#[derive(Drop)]
pub(crate) struct DeskHandle<'a, R, A: Allocator + Copy, J: Naming> {
    pub(crate) rt: &'a R,
    pub(crate) desk: &'a Desk<A, J>,
}

impl<R: Wait, A: Allocator + Copy, J: Naming> DeskHandle<'_, R, A, J> {
    pub(crate) fn find(&self, session: &mut Session<A, J>, name: &str) -> Option<ScenarioId> {
        session.find(self.rt, self.desk, name)
    }

    pub(crate) fn settle(&self, session: &mut Session<A, J>) -> Settled {
        session.settle(self.rt, self.desk)
    }

    /// Whether all is there that the session settles for.
    pub(crate) fn is_done(&self, session: &mut Session<A, J>) -> bool {
        matches!(self.settle(session), Settled::Done)
    }

    /// Whether the session waits for nothing, since the desk is stopped.
    pub(crate) fn is_stopped(&self, session: &mut Session<A, J>) -> bool {
        matches!(self.settle(session), Settled::Stopped)
    }

    /// What the session sees of the book and of itself.
    pub(crate) fn looks(&self, session: &mut Session<A, J>) -> Looks {
        Looks {
            version: session.version(self.rt, self.desk),
            base: session.find(self.rt, self.desk, "base"),
            more: session.find(self.rt, self.desk, "more"),
            seen: session.seen(),
            listed: session.list().len(),
        }
    }

    /// Whether the session reads that the book stands as it looks; None where memory runs out.
    pub(crate) fn reads(&self, session: &mut Session<A, J>) -> Option<bool> {
        match session.current(self.rt, self.desk) {
            Ok(current) => Some(is_current(&current, self.looks(session))),
            Err(_) => None,
        }
    }

    /// Whether the session reads that the book stands as it looks.
    pub(crate) fn is_read(&self, session: &mut Session<A, J>) -> bool {
        matches!(self.reads(session), Some(true))
    }

    /// Edits; whether that makes this version.
    pub(crate) fn makes(&self, session: &mut Session<A, J>, edit: &Edit<A>, version: u64) -> bool {
        match session.edit(self.rt, self.desk, edit) {
            Ok(made) => made == version,
            Err(_) => false,
        }
    }

    /// Makes a call, and tells what it answers.
    pub(crate) fn answer(&self, session: &mut Session<A, J>, call: &SessionCall<'_, A>) -> Answer {
        let (rt, desk) = (self.rt, self.desk);
        match call {
            SessionCall::Edit(edit) => answers::of_edit(session.edit(rt, desk, *edit)),
            SessionCall::Add { name, scenario } => {
                answers::of_add(session.add_scenario(rt, desk, *name, *scenario))
            }
            SessionCall::Drop { name } => {
                answers::of_drop(session.drop_scenario(rt, desk, *name))
            }
            SessionCall::Retry { id } => answers::of_retry(session.retry(rt, desk, *id)),
            SessionCall::View { id } => answers::of_view(&session.view(rt, desk, *id)),
        }
    }

    /// The same of a desk over the known log, whose runs are to be those of their versions.
    pub(crate) fn known(&self, session: &mut Session<A, J>, call: &SessionCall<'_, A>) -> Answer {
        match call {
            SessionCall::View { id } => of_known(&session.view(self.rt, self.desk, *id)),
            _ => self.answer(session, call),
        }
    }

    /// Makes a call, and tells its reply, by which what is seen does not fall.
    pub(crate) fn reply(
        &self,
        session: &mut Session<A, J>,
        call: &SessionCall<'_, A>,
    ) -> Result<Reply, Wrong> {
        let seen = session.seen();
        match self.answer(session, call) {
            Ok(reply) if is_seen(seen, session.seen(), &reply) => Ok(reply),
            Ok(_) => Err(Wrong::Seen),
            Err(_) => Err(Wrong::Refused),
        }
    }
}
