// No contract speaks of where the scripts are worked, so the view of a `Workplace` is a unit.
ghost use Rattle.std.specs.Prelude.{OnOk, map};
ghost use Rattle.workers.specs.Callers.{IsNewSession};
ghost use Rattle.easybook.specs.DeskRules.{IsWorkedAtDesk};

use crate::answered::Answered;
use crate::desk_session::DeskSession;
use crate::script_list::ScriptList;
use crate::works::Works;
use chronicle::Naming;
use scripts::work_lines;
use std::alloc::Allocator;
use std::marker::Model;
use std::sync::Wait;
use swf_text::Memory;
use workers::{Desk, Session};

/// What the threads share: the desk, the handle by which a thread waits for it, and the scripts.
#[derive(Drop)]
pub(crate) struct Workplace<'d, A: Allocator + Copy, J: Naming + Works, R: Wait> {
    pub(crate) rt: &'d R,
    pub(crate) alloc: A,
    pub(crate) desk: &'d Desk<A, J>,
    pub(crate) scripts: &'d ScriptList<'d, A, J>,
}

impl<'d, A: Allocator + Copy, J: Naming + Works, R: Wait> Model for Workplace<'d, A, J, R> {
    ghost Value = { Unit {0} };

    ghost view = { λ p. tt };
}

impl<'d, A: Allocator + Copy, J: Naming + Works, R: Wait> Workplace<'d, A, J, R> {
    pub(crate) fn stop(&self) {
        let rt = self.rt;
        let desk = self.desk;
        desk.stop(rt);
    }
}

/// A script's thread: a new session, until it works its script, and then what that produced, unless
/// memory ran out.
#[derive(Drop)]
pub(crate) struct ScriptThread<A: Allocator + Copy, J: Naming + Works> {
    session: Option<Session<A, J>>,
    pub(crate) answered: Option<Answered<A, J>>,
}

impl<A: Allocator + Copy, J: Naming + Works> Model for ScriptThread<A, J> {
    ghost use Rattle.std.specs.Prelude.{IfSome, Option};
    ghost use Rattle.workers.specs.Callers.{IsNewSession, SessionView};

    ghost Value = { Option SessionView };

    ghost view = { λ p. p.session };

    ghost invariant = { λ p. IfSome p.session IsNewSession };
}

impl<A: Allocator + Copy, J: Naming + Works> ScriptThread<A, J> {
    pub(crate) fn new(session: Session<A, J>) -> ScriptThread<A, J>
        requires { IsNewSession session }
    {
        ScriptThread {
            session: Some(session),
            answered: None,
        }
    }

    pub(crate) fn work<R: Wait>(&mut self, place: &Workplace<'_, A, J, R>) {
        let Some(session) = self.session.take() else {
            return;
        };
        self.answered = work_session(place, session);
    }
}

fn work_script<'d, A: Allocator + Copy, J: Naming, R: Wait>(
    analyst: &mut DeskSession<'d, A, J, R>,
    alloc: A,
    comments: &[Vec<u8, A>],
    script: &[u8],
    text: &mut Vec<u8, A>,
) -> Result<(), Memory>
    ensures { OnOk result (IsWorkedAtDesk A J.opening (map (λ c. c.items) comments.now) analyst.old script.now analyst.new text.old.items text.new.items) }
{
    work_lines(analyst, alloc, comments, script, text).map_err(|_| Memory)
}

fn work_session<A: Allocator + Copy, J: Naming + Works, R: Wait>(
    place: &Workplace<'_, A, J, R>,
    session: Session<A, J>,
) -> Option<Answered<A, J>>
    requires { IsNewSession session }
{
    let Workplace {
        rt,
        alloc,
        desk,
        scripts,
    } = place;
    let script = scripts.at(session.number() as usize)?;
    let mut text = Vec::new(*alloc);
    let mut analyst = DeskSession { rt, desk, session };
    let comments = scripts.comments();
    let Ok(()) = work_script(&mut analyst, *alloc, comments, script, &mut text) else {
        return None;
    };
    Some(Answered {
        session: analyst.session,
        text,
    })
}
