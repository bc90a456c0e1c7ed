ghost use Rattle.std.specs.Prelude.{◌≡◌, IfOk};
ghost use Rattle.scenarios.specs.ScenarioList.{id_of};
ghost use Rattle.book_machine.specs.Machine.{version};
ghost use Rattle.workers.specs.History.{IsCurrentAt, Reads, Settles};

use crate::desk::Desk;
use crate::session::Session;
use crate::settled::Settled;
use chronicle::Naming;
use scenarios::ScenarioId;
use std::alloc::Allocator;
use std::sync::Wait;
use swf_text::Memory;
use version_book::Reading;

impl<A: Allocator + Copy, J: Naming> Session<A, J> {
    /// The id of the scenario with this name, at a place of the history behind all earlier responses to
    /// the session. It is not listed.
    pub fn find<R: Wait>(&mut self, rt: &R, desk: &Desk<A, J>, name: &str) -> Option<ScenarioId>
        ensures history { Reads J.opening self.old.front (λ m. result ≡ id_of name.now m.listing) self.new.front }
        ensures same { self.new ≡ record self.old { front = self.new.front } }
    {
        desk.shared.lock(rt).find(name, &mut self.front)
    }

    /// The current version, at a place of the history behind all earlier responses to the session. It is
    /// not listed.
    pub fn version<R: Wait>(&mut self, rt: &R, desk: &Desk<A, J>) -> u64
        ensures history { Reads J.opening self.old.front (λ m. result ≡ version m) self.new.front }
        ensures same { self.new ≡ record self.old { front = self.new.front } }
    {
        desk.shared.lock(rt).version(&mut self.front)
    }

    /// The current version with its log and the scenarios, all of one moment, at a place of the history
    /// behind all earlier responses to the session. It is not listed. Memory where a growth is refused.
    pub fn current<R: Wait>(&mut self, rt: &R, desk: &Desk<A, J>) -> Result<Reading<A>, Memory>
        ensures history { Reads J.opening self.old.front (λ m. IfOk result (IsCurrentAt m)) self.new.front }
        ensures same { self.new ≡ record self.old { front = self.new.front } }
    {
        desk.shared.lock(rt).current(&mut self.front)
    }

    /// Waits until every scenario shows a version that this session has seen, or a newer one, or is
    /// given up, or until the desk is stopped, and returns which, at a place of the history behind all
    /// earlier responses to the session. It sleeps while it waits.
    pub fn settle<R: Wait>(&mut self, rt: &R, desk: &Desk<A, J>) -> Settled
        ensures history { Settles J.opening self.old.front self.old.seen result self.new.front }
        ensures same { self.new ≡ record self.old { front = self.new.front } }
    {
        desk.when_settled(rt, self.seen)
            .settle(self.seen, &mut self.front)
    }
}
