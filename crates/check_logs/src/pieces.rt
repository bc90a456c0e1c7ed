// A log that is put together from the bounds and the readings of its lines.
ghost use Rattle.std.specs.Prelude.{◌≡◌, map, IfOk};
ghost use Rattle.swf_text.specs.Line.{line_of};
ghost use Rattle.swf_text.specs.Bounds.{bytes_at};

use std::alloc::{AllocError, Allocator, Global};
use swf_text::{LineRead, Memory, SwfFault, SwfText, assemble, line_at, line_bounds, read_line};

fn readings_at(
    alloc: Global,
    bytes: &[u8],
    bounds: &[(usize, usize)],
) -> Result<Vec<LineRead>, AllocError>
    ensures { IfOk result (λ readings. readings.items ≡ map (λ bound. line_of (bytes_at bytes.now bound)) bounds.now) }
{
    bounds
        .iter()
        .map(|bound| read_line(line_at(bytes, *bound)))
        .collect(alloc)
}

/// A log as it is put together on `heap` from the bounds and readings of its lines.
pub(crate) fn read_by_lines<A: Allocator + Copy>(
    alloc: Global,
    heap: A,
    bytes: &[u8],
) -> Result<Result<SwfText<A>, SwfFault>, Memory> {
    let bounds = line_bounds(alloc, bytes)?;
    let readings = readings_at(alloc, bytes, &bounds)?;
    Ok(assemble(heap, bytes, &bounds, &readings))
}
