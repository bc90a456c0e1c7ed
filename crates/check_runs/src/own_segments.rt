// A run that is made of another run's own segments, with its tables and counts made anew.
ghost use Rattle.std.specs.Prelude.{◌≡◌, map, IfOk};
ghost use Rattle.std.specs.Arc.{arc_value};

use checkpoints::{Run, Segment};
use std::alloc::Allocator;
use std::sync::Arc;
use swf_text::Memory;

fn shared<A: Allocator + Copy>(
    alloc: A,
    segments: &[Arc<Segment<A>, A>],
) -> Result<Vec<Arc<Segment<A>, A>, A>, Memory>
    ensures { IfOk result (λ all. map arc_value all.items ≡ map arc_value segments.now) }
{
    let mut all = Vec::with_capacity(alloc, segments.len())?;
    for segment in segments {
        all.push(segment.clone()?)?;
    }
    Ok(all)
}

/// The run of a run's own segments.
pub(crate) fn made_again<A: Allocator + Copy>(alloc: A, run: &Run<A>) -> Result<Run<A>, Memory> {
    let segments = shared(alloc, run.segments())?;
    let again = Run::of_segments(alloc, run.plan().copy()?, segments)?;
    Ok(again)
}
