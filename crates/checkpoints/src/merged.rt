ghost use Rattle.std.specs.Prelude.{map, IfOk};
ghost use Rattle.checkpoints.specs.Merged.{AreFew, IsMerged};

use metrics::Part;
use std::alloc::Allocator;
use swf_text::Memory;

// Each half is merged by itself, so that an entry is copied as often as the parts can be halved.
pub(crate) fn merged<A: Allocator + Copy>(alloc: A, parts: &[&Part<A>]) -> Result<Part<A>, Memory>
    requires { AreFew (map (λ part. part.now) parts.now) }
    ensures { IfOk result (IsMerged (map (λ part. part.now) parts.now)) }
{
    match parts {
        [] => Ok(Part::empty(alloc)),
        [part] => Part::empty(alloc).merge(part),
        [part, other] => part.merge(other),
        _ => {
            let (front, back) = parts.split_at(parts.len() / 2);
            let part = merged(alloc, front)?;
            let other = merged(alloc, back)?;
            part.merge(&other)
        }
    }
}
