//! The measures of a job that was started.

ghost use Rattle.std.specs.Prelude.{◌≡◌, IsTrue, ◌↔◌};
ghost use Rattle.metrics.specs.Measures.{wait, slowdown, busy};
ghost use Rattle.metrics.specs.Placed.{CanStart, CanSum};

use scenarios::{Placed, SECONDS_END};
use swf_text::ENTRY_LIMIT;

/// Whether the job may start when it does: not before its submission, and before second 2^49.
pub fn can_start(placed: &Placed) -> bool
    ensures { IsTrue result ↔ CanStart placed.now }
{
    placed.job.submit() <= placed.start && placed.start < SECONDS_END
}

/// Whether sums can be made over the jobs: each may start when it does, and there are at most
/// 4,194,304.
pub fn can_sum(placed: &[Placed]) -> bool
    ensures { IsTrue result ↔ CanSum placed.now }
{
    placed.len() <= ENTRY_LIMIT && placed.iter().all(can_start)
}

/// The seconds from its submission to its start.
pub fn wait(placed: &Placed) -> u64
    requires { CanStart placed.now }
    ensures { result ≡ wait placed.now }
{
    placed.start - placed.job.submit()
}

/// The bounded slowdown, in thousandths: its seconds from submission to end for each second that it
/// runs, where a job of less than ten seconds counts as one of ten; at least 1000.
pub fn slowdown(placed: &Placed) -> u64
    requires { CanStart placed.now }
    ensures { result ≡ slowdown placed.now }
{
    let length = placed.job.length();
    ((wait(placed) + length) * 1000 / length.max(10)).max(1000)
}

/// The processor-seconds that it takes.
pub fn busy(placed: &Placed) -> u64
    ensures { result ≡ busy placed.now }
{
    placed.job.size() * placed.job.length()
}
