ghost use Rattle.std.specs.Prelude.{◌≡◌, ◌++◌, ℕ, List, None, IfErr, IfOk, map, slice_get};
ghost use Rattle.parallel_reader.specs.Fronts.{IsFront};
ghost use Rattle.easybook.specs.Opened.{IsOpened};
ghost use Rattle.easybook.specs.Plain.{IsFaultOf};

use crate::fault::ProgramFault;
use commands::{Opening, open_text};
use parallel_reader::{LogFront, read_parallel};
use std::alloc::Allocator;
use std::marker::Sync;
use std::thread::Threads;

/// The most bytes of a log.
pub(crate) const LOG_LIMIT: usize = 1_073_741_824;

pub(crate) fn opening_of<T: Threads + Sync, A: Allocator + Copy>(
    rt: &T,
    alloc: A,
    log: &[u8],
    procs: Option<u64>,
) -> Result<Opening<A>, ProgramFault>
    ensures opened { IfOk result (λ o. IsOpened log.now procs (map (λ c. c.items) o.comments.items) o.table o.scenarios) }
    ensures some { IfOk result (λ o. slice_get o.scenarios.scenarios 0 ≡ None → ⊥) }
    ensures fault { IfErr result (IsFaultOf log.now procs) }
{
    if log.len() > LOG_LIMIT {
        return Err(ProgramFault::TooLong);
    }
    let text = read_parallel(rt, alloc, log)?;
    let opening = open_text(alloc, text, procs)?;
    Ok(opening)
}

pub(crate) fn opening_behind<T: Threads + Sync, A: Allocator + Copy>(
    rt: &T,
    alloc: A,
    front: LogFront<A>,
    bytes: &[u8],
    procs: Option<u64>,
) -> Result<Opening<A>, ProgramFault>
    requires { (read : List ℕ) × IsFront read front }
    ensures opened { IfOk result (λ o. (read : List ℕ) → IsFront read front → IsOpened (read ++ bytes.now) procs (map (λ c. c.items) o.comments.items) o.table o.scenarios) }
    ensures some { IfOk result (λ o. slice_get o.scenarios.scenarios 0 ≡ None → ⊥) }
    ensures fault { IfErr result (λ f. (read : List ℕ) → IsFront read front → IsFaultOf (read ++ bytes.now) procs f) }
{
    if front.bytes().saturating_add(bytes.len() as u64) > LOG_LIMIT as u64 {
        return Err(ProgramFault::TooLong);
    }
    let text = front.read_behind(rt, alloc, bytes)?;
    let opening = open_text(alloc, text, procs)?;
    Ok(opening)
}
