ghost use Rattle.std.specs.Prelude.{◌≡◌, ◌+◌, ◌<◌, IfOk, IfErr};
ghost use Rattle.std.specs.List.{AllByRecursion, before_first, after_first};
ghost use Rattle.swf_text.specs.Comment.{IsComment};
ghost use Rattle.swf_text.specs.Grammar.{IsText, IsOkOf, IsFaultOf, HasReached};
ghost use Rattle.swf_text.specs.Text.{LogText, lines, is_feed};
ghost use Rattle.swf_text.specs.Reading.{text_of, with_line, Adds, Gives};

use crate::builder::Builder;
use crate::fault::{FaultKind, SwfFault};
use crate::front::packed_front;
use crate::packed::PackedLine;
use crate::text::SwfText;
use memchr::memchr;
use std::alloc::Allocator;

/// The bytes before the first line feed, and those after it; all of them and none where there is no
/// line feed. Takes no memory.
pub fn split_line(bytes: &[u8]) -> (&[u8], &[u8])
    ensures line { result.0.now ≡ before_first is_feed bytes.now }
    ensures rest { result.1.now ≡ after_first is_feed bytes.now }
{
    match memchr(b'\n', bytes) {
        Some(end) => (&bytes[..end], &bytes[end + 1..]),
        None => (bytes, &[]),
    }
}

// The codes of `job` are those of a job line, or say nothing.
#[tactic(auto, unfolding(crate::specs::Reading::with_line))]
fn add_first<'a, A: Allocator + Copy>(
    alloc: A,
    text: &mut Builder<A>,
    job: &mut PackedLine,
    bytes: &'a [u8],
) -> Result<&'a [u8], FaultKind>
    ensures adds { Adds text.new result (with_line text.old (before_first is_feed bytes.now)) }
    ensures rest { IfOk result (λ rest. rest.now ≡ after_first is_feed bytes.now) }
{
    if let Some(rest) = packed_front(job, bytes) {
        text.add_packed(alloc, job)?;
        return Ok(rest);
    }
    let (line, rest) = split_line(bytes);
    text.add_line(alloc, line)?;
    Ok(rest)
}

fn read_all<A: Allocator + Copy>(alloc: A, bytes: &[u8]) -> Result<SwfText<A>, SwfFault>
    ensures exact { Gives result (text_of bytes.now) }
    ensures reached { IfErr result (λ fault. HasReached (lines bytes.now) fault.line) }
{
    let mut text = Builder::new(alloc);
    let mut job = PackedLine::UNKNOWN;
    let mut rest = bytes;
    let mut line = 1u64;
    while !rest.is_empty() {
        match add_first(alloc, &mut text, &mut job, rest) {
            Ok(after) => rest = after,
            Err(kind) => return Err(SwfFault { line, kind }),
        }
        line += 1;
    }
    Ok(text.finish())
}

/// Reads a log of the Standard Workload Format, version 2: its comments and its entries, or the
/// first faulty line, counted from 1, with its first fault in the order of `FaultKind`.
///
/// A fault of kind `Memory` comes where a growth was refused, and has the line that was being
/// read then; all lines before it are without faults. After a fault there is no value.
pub fn read_swf<A: Allocator + Copy>(alloc: A, bytes: &[u8]) -> Result<SwfText<A>, SwfFault>
    ensures text { IfOk result (λ text. IsText (lines bytes.now) text) }
    ensures only { (t : LogText) → IsText (lines bytes.now) t → IsOkOf result t }
    ensures fault { IfErr result (λ fault. IsFaultOf (lines bytes.now) fault) }
    ensures reached { IfErr result (λ fault. HasReached (lines bytes.now) fault.line) }
    ensures comments { IfOk result (λ text. AllByRecursion IsComment text.comments) }
{
    read_all(alloc, bytes)
}
