ghost use Rattle.std.specs.Prelude.{◌≡◌, ◌+◌, ◌≤◌, ◌++◌, OnOk, OnErr, IsOk, map, length, vec_len, vec_capacity};
ghost use Rattle.easy_rule.specs.Pass.{start_at};

use scenarios::Job;
use std::alloc::Allocator;
use swf_text::Memory;

/// A job's start.
#[derive(Clone, Copy, Debug, PartialEq, Eq)]
pub struct Start {
    /// The job number.
    pub number: u64,
    /// The second at which it starts.
    pub at: u64,
}

/// Adds the starts of these jobs at second `now` to a list, in order.
///
/// It takes no memory where the list has capacity for them. Memory where a growth was refused; the list
/// is then as it was.
pub fn add_starts<A: Allocator>(
    starts: &mut Vec<Start, A>,
    jobs: &[Job],
    now: u64,
) -> Result<(), Memory>
    ensures ok { OnOk result (starts.new.items ≡ starts.old.items ++ map (start_at now) jobs.now) }
    ensures capacity { vec_len starts.old + length jobs.now ≤ vec_capacity starts.old → IsOk result }
    ensures err { OnErr result (starts.new.items ≡ starts.old.items) }
{
    starts.reserve(jobs.len())?;
    for job in jobs {
        let start = Start {
            number: job.number(),
            at: now,
        };
        let Ok(()) = starts.push(start) else {
            unreachable!()
        };
    }
    Ok(())
}
