// Two workers whose tasks cross.
use crate::fuzz::works::TEN;
use checking::{FOUR, Flags};
use easybook::{ProgramFault, run_shared_gated};
use std::marker::Sync;
use std::sync::Wait;
use std::thread::Threads;
use workers::Gate;

/// Adds a second scenario, and settles both.
const SCRIPT: &[u8] = b"scenario b 16 1000\nsettle\n";

/// The first ticket is to be worked.
const FIRST_AT_WORK: u64 = 2;

/// The second ticket's run is to be handed in.
const SECOND_DONE: u64 = 4;

/// Holds ticket 1 before its work until ticket 2 is to be handed in, and ticket 2 before it is handed
/// in until ticket 1 is to be worked.
#[derive(Drop)]
struct Crossed(Flags);

impl Gate for Crossed {
    fn before_work(&self, ticket: u64) {
        if ticket == 1 {
            self.0.set(FIRST_AT_WORK);
            self.0.wait(SECOND_DONE);
        }
    }

    fn before_finish(&self, ticket: u64) {
        if ticket == 2 {
            self.0.set(SECOND_DONE);
            self.0.wait(FIRST_AT_WORK);
        }
    }
}

fn settle<R: AllocGlobal + Threads + Wait + Sync>(
    rt: &R,
    gate: &Crossed,
    out: &mut Vec<u8>,
) -> Result<(), ProgramFault> {
    let script = Vec::from_slice(rt.alloc(), SCRIPT)?;
    run_shared_gated(rt, rt.alloc(), &[script], out, FOUR, TEN, gate)
}

pub(crate) fn are_beside<R: AllocGlobal + Threads + Wait + Sync>(rt: &R) -> bool {
    let gate = Crossed(Flags::new());
    let mut out = Vec::new(rt.alloc());
    settle(rt, &gate, &mut out) == Ok(())
        && out.as_slice() == b"== 1\nscenario b added\nsettled 0\n".as_slice()
        && gate.0.are_in_time()
}
