ghost use Rattle.std.specs.Prelude.{◌≡◌, ◌++◌, map, OnOk};

use scenarios::{Job, Placed};
use std::alloc::Allocator;
use swf_text::Memory;

pub(crate) fn add_placed<A: Allocator + Copy>(
    placed: &mut Vec<Placed, A>,
    jobs: &[Job],
    second: u64,
) -> Result<(), Memory>
    ensures { OnOk result (placed.new.items ≡ placed.old.items ++ map (λ job. record { job = job; start = second }) jobs.now) }
{
    for job in jobs {
        placed.push(Placed {
            job: *job,
            start: second,
        })?;
    }
    Ok(())
}
