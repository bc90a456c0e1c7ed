ghost use Rattle.std.specs.Prelude.{◌≡◌};
ghost use Rattle.easybook.specs.Along.{ended_by};
ghost use Rattle.easybook.specs.DeskRules.{desk_rules};

use book_machine::SettleState;
use chronicle::Naming;
use job_table::Edit;
use scenarios::{Scenario, ScenarioId};
use std::alloc::Allocator;
use std::marker::Model;
use std::sync::Wait;
use swf_text::Memory;
use version_book::{
    AddRefusal, Analyst, DropRefusal, EditRefusal, Published, Reading, RetryRefusal, ViewRefusal,
};
use workers::{Desk, Session, Settled};

/// A session, the desk that opened it, and the handle by which its thread waits for the desk.
#[derive(Drop)]
pub(crate) struct DeskSession<'d, A: Allocator + Copy, J: Naming, R: Wait> {
    pub(crate) rt: &'d R,
    pub(crate) desk: &'d Desk<A, J>,
    pub(crate) session: Session<A, J>,
}

impl<'d, A: Allocator + Copy, J: Naming, R: Wait> Model for DeskSession<'d, A, J, R> {
    ghost use Rattle.workers.specs.Callers.{SessionView};

    ghost Value = { SessionView };

    ghost view = { λ s. s.session };
}

fn state_of(ended: Settled) -> SettleState
    ensures { ended ≡ ended_by result }
{
    match ended {
        Settled::Done => SettleState::Done,
        Settled::Failed(count) => SettleState::Failed(count),
        Settled::Stopped => SettleState::Waiting,
    }
}

impl<'d, A: Allocator + Copy, J: Naming, R: Wait> Analyst<A> for DeskSession<'d, A, J, R> {
    ghost rules = { desk_rules J.opening };

    fn edit(&mut self, edit: &Edit<A>) -> Result<u64, EditRefusal> {
        self.session.edit(self.rt, self.desk, edit)
    }

    fn add_scenario(&mut self, name: &str, scenario: Scenario) -> Result<ScenarioId, AddRefusal> {
        self.session
            .add_scenario(self.rt, self.desk, name, scenario)
    }

    fn drop_scenario(&mut self, name: &str) -> Result<ScenarioId, DropRefusal> {
        self.session.drop_scenario(self.rt, self.desk, name)
    }

    fn retry(&mut self, id: ScenarioId) -> Result<(), RetryRefusal> {
        self.session.retry(self.rt, self.desk, id)
    }

    fn view(&mut self, id: ScenarioId) -> Result<Published<A>, ViewRefusal> {
        self.session.view(self.rt, self.desk, id)
    }

    fn find(&mut self, name: &str) -> Option<ScenarioId> {
        self.session.find(self.rt, self.desk, name)
    }

    fn version(&mut self) -> u64 {
        self.session.version(self.rt, self.desk)
    }

    fn current(&mut self) -> Result<Reading<A>, Memory> {
        self.session.current(self.rt, self.desk)
    }

    fn settle(&mut self) -> SettleState {
        state_of(self.session.settle(self.rt, self.desk))
    }

    fn seen(&self) -> u64 {
        self.session.seen()
    }
}
