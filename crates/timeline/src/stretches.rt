ghost use Rattle.std.specs.Prelude.{◌≡◌, ◌+◌, ◌≤◌, length};
ghost use Rattle.std.specs.List.Sorted.{IsNonDecreasing};
ghost use Rattle.timeline.specs.Stretches.{place_after, placed_stretch, waiting_stretch};

use cluster_state::RunningNumber;
use frames::Stretch;
use scenarios::Job;

fn place_behind(seconds: &[u64], second: u64, lasting: u64) -> u32
    requires rising { IsNonDecreasing seconds.now }
    requires few { length seconds.now ≤ 4294967295 }
    ensures { result ≡ place_after seconds.now (second + lasting) }
{
    let place = seconds.partition_point(|s| s.saturating_sub(second) <= lasting);
    place as u32
}

/// The stretch of places at which a job waits among rising seconds: from the first second behind its
/// submit second on, until the first behind its start.
///
/// `start` is the second at which it starts. None says that it doesn't start before the last of these
/// seconds: it waits to the last. It takes at most two halvings of the seconds, and no memory.
pub fn waiting_stretch(seconds: &[u64], job: &Job, start: Option<u64>) -> Stretch<u64>
    requires rising { IsNonDecreasing seconds.now }
    requires few { length seconds.now ≤ 4294967295 }
    ensures { result ≡ waiting_stretch seconds.now job.now start }
{
    let to = match start {
        Some(start) => place_behind(seconds, start, 0),
        None => seconds.len() as u32,
    };
    Stretch {
        item: job.number(),
        from: place_behind(seconds, job.submit(), 0),
        to,
    }
}

/// The stretch of places at which a job of this start, in seconds, runs among rising seconds: from the
/// first second behind its start on, until the first behind its end. It takes two halvings of the
/// seconds, and no memory.
pub fn running_stretch(seconds: &[u64], job: &Job, start: u64) -> Stretch<RunningNumber>
    requires rising { IsNonDecreasing seconds.now }
    requires few { length seconds.now ≤ 4294967295 }
    ensures { result ≡ placed_stretch seconds.now (record { job = job.now; start = start }) }
{
    Stretch {
        item: RunningNumber {
            number: job.number(),
            start,
        },
        from: place_behind(seconds, start, 0),
        to: place_behind(seconds, start, job.length()),
    }
}
