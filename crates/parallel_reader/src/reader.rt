ghost use Rattle.std.specs.Prelude.{◌≡◌, ◌<◌, false, length, IfOk, IfErr};
ghost use Rattle.std.specs.List.{AllByRecursion};
ghost use Rattle.swf_text.specs.Comment.{IsComment};
ghost use Rattle.swf_text.specs.Grammar.{IsText, IsOkOf, IsFaultOf, HasReached};
ghost use Rattle.swf_text.specs.Text.{LogText, lines};

use crate::pieces::begin_log;
use rayon::current_num_threads;
use std::alloc::Allocator;
use std::marker::Sync;
use std::thread::Threads;
use swf_text::{FaultKind, SwfFault, SwfText, read_swf};

/// Fewer bytes than these are read by one thread.
const LEAST_BYTES: usize = 262_144;

pub(crate) fn is_for_one<R: Threads>(rt: &R, bytes: &[u8]) -> bool
    ensures { result ≡ false → 0 < length bytes.now }
{
    bytes.len() < LEAST_BYTES || current_num_threads(rt) < 2
}

/// Reads a log as `read_swf` does, with a thread for each processor: the same log, or the same
/// fault, except that memory may run out in other places.
///
/// A fault of kind `Memory` comes where a growth was refused, and has the line that was being
/// added then, or where the growth was to hold what is read ahead, line 1 or the first line of which
/// batches are made; all lines before it are without faults. After a fault there is no value. A short
/// log, and any log where there is one processor, is read by the thread that calls.
pub fn read_parallel<R: Threads + Sync, A: Allocator + Copy>(
    rt: &R,
    alloc: A,
    bytes: &[u8],
) -> Result<SwfText<A>, SwfFault>
    ensures text { IfOk result (λ text. IsText (lines bytes.now) text) }
    ensures only { (t : LogText) → IsText (lines bytes.now) t → IsOkOf result t }
    ensures fault { IfErr result (λ fault. IsFaultOf (lines bytes.now) fault) }
    ensures reached { IfErr result (λ fault. HasReached (lines bytes.now) fault.line) }
    ensures comments { IfOk result (λ text. AllByRecursion IsComment text.comments) }
{
    if is_for_one(rt, bytes) {
        return read_swf(alloc, bytes);
    }
    let mut reader = bytes;
    match begin_log(rt, alloc, &mut reader) {
        Ok(read) => {
            let at = read.front.bytes() as usize;
            read.front.read_behind(rt, alloc, &bytes[at..])
        }
        Err(_) => Err(SwfFault {
            line: 1,
            kind: FaultKind::Memory,
        }),
    }
}
