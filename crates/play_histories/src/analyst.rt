// The calls of a session at a desk whose growths are refused one by one. Whether their replies are right
// is seen when the desk is closed and its journal judged.
use crate::answers::{Answer, Unanswered};
use crate::desk_handle::{DeskHandle, is_seen};
use crate::growing::Growing;
use crate::known_log::{Looks, ten};
use crate::session_call::SessionCall;
use crate::wrong::{Wrong, right_if};
use book_machine::Reply;
use chronicle::Naming;
use job_table::Edit;
use scenarios::ScenarioId;
use std::alloc::Allocator;
use std::sync::Wait;
use std::sync::atomic::Ordering;
use workers::{Session, Settled};

/// What meets the first growths at the desk.
#[derive(Clone, Copy, PartialEq, Eq)]
pub(crate) enum First {
    Edit,
    Add,
    Drop,
    Retry,
    View,
    Read,
    /// A worker's claim and finish.
    Work,
    /// A worker's run, which it then gives up.
    Run,
}

impl<A: Allocator + Copy> Growing<'_, A> {
    // Notes that memory ran out, by which nothing may have changed.
    fn notes_want(&self, is_unchanged: bool) -> Result<(), Wrong> {
        self.wants.fetch_add(1, Ordering::SeqCst);
        right_if(is_unchanged, Wrong::Changed)
    }

    fn answer<R: Wait, J: Naming>(
        &self,
        handle: &DeskHandle<'_, R, A, J>,
        session: &mut Session<A, J>,
        call: &SessionCall<'_, A>,
    ) -> Result<Answer, Wrong> {
        let before = handle.looks(session);
        let answer = handle.known(session, call);
        if !matches!(answer, Err(Unanswered::Memory)) {
            return Ok(answer);
        }
        let is_unchanged = handle.looks(session) == before;
        self.notes_want(is_unchanged && handle.is_read(session))?;
        Ok(handle.known(session, call))
    }

    fn reply<R: Wait, J: Naming>(
        &self,
        handle: &DeskHandle<'_, R, A, J>,
        session: &mut Session<A, J>,
        call: &SessionCall<'_, A>,
    ) -> Result<Reply, Wrong> {
        let before = handle.looks(session);
        let Ok(reply) = self.answer(handle, session, call)? else {
            return Err(Wrong::Reply);
        };
        let after = handle.looks(session);
        right_if(is_seen(before.seen, after.seen, &reply), Wrong::Seen)?;
        right_if(
            after.listed == before.listed.saturating_add(1),
            Wrong::Listed,
        )?;
        Ok(reply)
    }

    fn reads_again<R: Wait, J: Naming>(
        &self,
        handle: &DeskHandle<'_, R, A, J>,
        session: &mut Session<A, J>,
        before: Looks,
    ) -> Result<(), Wrong> {
        self.notes_want(handle.looks(session) == before)?;
        right_if(handle.is_read(session), Wrong::Reply)
    }

    fn reads<R: Wait, J: Naming>(
        &self,
        handle: &DeskHandle<'_, R, A, J>,
        session: &mut Session<A, J>,
    ) -> Result<(), Wrong> {
        let before = handle.looks(session);
        match handle.reads(session) {
            Some(is_right) => right_if(is_right, Wrong::Reply),
            None => self.reads_again(handle, session, before),
        }
    }

    fn base<R: Wait, J: Naming>(
        &self,
        handle: &DeskHandle<'_, R, A, J>,
        session: &mut Session<A, J>,
    ) -> Result<ScenarioId, Wrong> {
        match handle.find(session, "base") {
            Some(base) => Ok(base),
            None => Err(Wrong::Reply),
        }
    }

    /// Makes the call that comes first, if a session makes it.
    pub(crate) fn begins<R: Wait, J: Naming>(
        &self,
        handle: &DeskHandle<'_, R, A, J>,
        session: &mut Session<A, J>,
        first: First,
    ) -> Result<(), Wrong> {
        let (id, scenario) = (self.base(handle, session)?, ten()?);
        let none = Edit::Remove(99);
        let call = match first {
            First::Edit => SessionCall::Edit(&none),
            First::Add => SessionCall::Add {
                name: "base",
                scenario,
            },
            First::Drop => SessionCall::Drop { name: "more" },
            First::Retry => SessionCall::Retry { id },
            First::View => SessionCall::View { id },
            First::Read | First::Work | First::Run => return self.reads(handle, session),
        };
        self.reply(handle, session, &call)?;
        Ok(())
    }

    fn settles<R: Wait, J: Naming>(
        &self,
        handle: &DeskHandle<'_, R, A, J>,
        session: &mut Session<A, J>,
        id: ScenarioId,
    ) -> Result<Settled, Wrong> {
        match handle.settle(session) {
            Settled::Failed(1) => {
                self.reply(handle, session, &SessionCall::Retry { id })?;
                Ok(handle.settle(session))
            }
            settled => Ok(settled),
        }
    }

    // Settles, and looks: this version is shown, unless the desk is stopped; whether it was not.
    fn sees<R: Wait, J: Naming>(
        &self,
        handle: &DeskHandle<'_, R, A, J>,
        session: &mut Session<A, J>,
        version: u64,
    ) -> Result<bool, Wrong> {
        let id = self.base(handle, session)?;
        let settled = self.settles(handle, session, id)?;
        let reply = self.reply(handle, session, &SessionCall::View { id })?;
        let is_right = matches!(settled, Settled::Stopped) || reply == Reply::Shown { version };
        right_if(is_right, Wrong::Settled)?;
        Ok(matches!(settled, Settled::Done))
    }

    // The scenario `more`, the second of the book, joins, and leaves after an edit; it is then no
    // scenario.
    fn adds_and_drops<R: Wait, J: Naming>(
        &self,
        handle: &DeskHandle<'_, R, A, J>,
        session: &mut Session<A, J>,
    ) -> Result<(), Wrong> {
        let (name, scenario) = ("more", ten()?);
        let Reply::Added { id } = self.reply(handle, session, &SessionCall::Add { name, scenario })?
        else {
            return Err(Wrong::Reply);
        };
        self.reply(handle, session, &SessionCall::Edit(&Edit::Remove(4)))?;
        self.reply(handle, session, &SessionCall::Drop { name })?;
        self.reply(handle, session, &SessionCall::Retry { id })?;
        self.reply(handle, session, &SessionCall::View { id })?;
        Ok(())
    }

    /// Makes all calls beside a worker; whether all runs were there.
    pub(crate) fn plays<R: Wait, J: Naming>(
        &self,
        handle: &DeskHandle<'_, R, A, J>,
        session: &mut Session<A, J>,
    ) -> Result<bool, Wrong> {
        self.reply(handle, session, &SessionCall::Edit(self.joins))?;
        let one = self.sees(handle, session, 1)?;
        self.adds_and_drops(handle, session)?;
        let two = self.sees(handle, session, 2)?;
        self.reads(handle, session)?;
        Ok(one && two)
    }

    /// Looks after a worker that was answered this last has made one run and the desk was stopped, and
    /// once more after an edit.
    pub(crate) fn looks_after<R: Wait, J: Naming>(
        &self,
        handle: &DeskHandle<'_, R, A, J>,
        session: &mut Session<A, J>,
        last: Option<Reply>,
    ) -> Result<(), Wrong> {
        let settled = match last {
            Some(Reply::Finished { version: 0 }) => Settled::Done,
            Some(Reply::GivenUp) => Settled::Failed(1),
            _ => Settled::Stopped,
        };
        let id = self.base(handle, session)?;
        right_if(handle.settle(session) == settled, Wrong::Settled)?;
        self.reply(handle, session, &SessionCall::View { id })?;
        self.reply(handle, session, &SessionCall::Edit(self.joins))?;
        self.reply(handle, session, &SessionCall::View { id })?;
        right_if(handle.is_stopped(session), Wrong::Settled)
    }
}
