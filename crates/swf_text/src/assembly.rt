ghost use Rattle.std.specs.Prelude.{◌≡◌, map, IfOk, IfErr};
ghost use Rattle.std.specs.List.{AllByRecursion};
ghost use Rattle.swf_text.specs.Comment.{IsComment};
ghost use Rattle.swf_text.specs.Grammar.{IsText, IsOkOf, IsFaultOf, HasReached};
ghost use Rattle.swf_text.specs.Line.{line_of};
ghost use Rattle.swf_text.specs.Text.{LogText, lines};
ghost use Rattle.swf_text.specs.Reading.{text_of, Gives};
ghost use Rattle.swf_text.specs.Bounds.{bounds_of, bytes_at};

use crate::builder::Builder;
use crate::fault::SwfFault;
use crate::line::LineRead;
use crate::memory::Memory;
use crate::reader::split_line;
use crate::text::SwfText;
use std::alloc::Allocator;

/// Where each line of the bytes begins, and where it ends, without its line feed; carriage returns
/// at its end belong to it. Memory where a growth was refused.
pub fn line_bounds<A: Allocator + Copy>(
    alloc: A,
    bytes: &[u8],
) -> Result<Vec<(usize, usize), A>, Memory>
    ensures lines { IfOk result (λ bounds. map (bytes_at bytes.now) bounds.items ≡ lines bytes.now) }
    ensures bounds { IfOk result (λ bounds. bounds.items ≡ bounds_of bytes.now) }
{
    let mut bounds = Vec::new(alloc);
    let mut rest = bytes;
    let mut start = 0usize;
    while !rest.is_empty() {
        let (front, after) = split_line(rest);
        let end = start + front.len();
        bounds.push((start, end))?;
        rest = after;
        start = end + 1;
    }
    Ok(bounds)
}

/// The bytes of a line, given its bounds; of bounds past the end, those that are there.
pub fn line_at(bytes: &[u8], bound: (usize, usize)) -> &[u8]
    ensures { result.now ≡ bytes_at bytes.now bound }
{
    let rest = &bytes[bound.0.min(bytes.len())..];
    &rest[..bound.1.saturating_sub(bound.0).min(rest.len())]
}

fn add_all<A: Allocator + Copy>(
    alloc: A,
    bytes: &[u8],
    bounds: &[(usize, usize)],
    readings: &[LineRead],
) -> Result<SwfText<A>, SwfFault>
    requires bounds { bounds.now ≡ bounds_of bytes.now }
    requires readings { readings.now ≡ map line_of (lines bytes.now) }
    ensures exact { Gives result (text_of bytes.now) }
    ensures reached { IfErr result (λ fault. HasReached (lines bytes.now) fault.line) }
{
    let mut text = Builder::new(alloc);
    for (place, read) in readings.iter().enumerate() {
        let line = line_at(bytes, bounds[place]);
        if let Err(kind) = text.add_read(alloc, line, *read) {
            return Err(SwfFault {
                line: place as u64 + 1,
                kind,
            });
        }
    }
    Ok(text.finish())
}

/// Puts a log together from the bounds of its lines, as `line_bounds` gives them, and what
/// `read_line` tells of each: the same answer as `read_swf` gives of the bytes, but that memory
/// may run out in other places. So lines may be read in any order, or side by side.
///
/// A fault of kind `Memory` comes where a growth was refused, and has the line that was being
/// added then; all lines before it are without faults.
pub fn assemble<A: Allocator + Copy>(
    alloc: A,
    bytes: &[u8],
    bounds: &[(usize, usize)],
    readings: &[LineRead],
) -> Result<SwfText<A>, SwfFault>
    requires bounds { bounds.now ≡ bounds_of bytes.now }
    requires readings { readings.now ≡ map line_of (lines bytes.now) }
    ensures text { IfOk result (λ text. IsText (lines bytes.now) text) }
    ensures only { (t : LogText) → IsText (lines bytes.now) t → IsOkOf result t }
    ensures fault { IfErr result (λ fault. IsFaultOf (lines bytes.now) fault) }
    ensures reached { IfErr result (λ fault. HasReached (lines bytes.now) fault.line) }
    ensures comments { IfOk result (λ text. AllByRecursion IsComment text.comments) }
{
    add_all(alloc, bytes, bounds, readings)
}
