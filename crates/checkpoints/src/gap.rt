ghost use Rattle.std.specs.Prelude.{◌≡◌, ◌++◌, ◌∷◌, ◌≤◌, [], filter, length, map, IfOk, OnOk};
ghost use Rattle.std.specs.List.Sorted.{IsNonDecreasing};
ghost use Rattle.frames.specs.Frames.{stands_somewhere};
ghost use Rattle.easy_rule.specs.Simulation.{start_of};
ghost use Rattle.timeline.specs.Stretches.{placed_stretch, waiting_stretches};

use crate::starts::{sort_by_number, start_among};
use cluster_state::RunningNumber;
use easy_rule::Start;
use frames::Stretch;
use scenarios::Job;
use std::alloc::Allocator;
use std::marker::Model;
use swf_text::Memory;
use timeline::stretches::{running_stretch, waiting_stretch};

/// The first seconds of pieces, and the starts before the last of these seconds. It tells where jobs
/// stand among the seconds.
#[derive(Drop)]
pub(crate) struct Gap<A: Allocator + Copy> {
    seconds: Vec<u64, A>,
    starts: Vec<Start, A>,
    by_number: Vec<Start, A>,
}

impl<A: Allocator + Copy> Model for Gap<A> {
    ghost use Rattle.checkpoints.specs.Closing.{GapView, IsGap};

    ghost Value = { GapView };

    ghost view = { λ g. record { seconds = g.seconds.items; starts = g.starts.items } };

    ghost invariant = { λ g. IsGap g.seconds.items g.starts.items g.by_number.items };
}

impl<A: Allocator + Copy> Gap<A> {
    pub(crate) fn of(seconds: Vec<u64, A>, starts: Vec<Start, A>) -> Result<Gap<A>, Memory>
        requires rising { IsNonDecreasing seconds.items }
        requires few { length seconds.items ≤ 4294967295 }
        ensures { IfOk result (λ gap. gap ≡ record { seconds = seconds.items; starts = starts.items }) }
    {
        let mut by_number = Vec::from_slice(*starts.allocator(), starts.as_slice())?;
        sort_by_number(&mut by_number)?;
        Ok(Gap {
            seconds,
            starts,
            by_number,
        })
    }

    pub(crate) fn starts(&self) -> &[Start]
        ensures { result.now ≡ self.now.starts }
    {
        self.starts.as_slice()
    }

    pub(crate) fn add_waiting(
        &self,
        job: &Job,
        made: &mut Vec<Stretch<u64>, A>,
    ) -> Result<(), Memory>
        ensures { OnOk result (made.new.items ≡ made.old.items ++ filter stands_somewhere (waiting_stretches self.now.seconds (job.now ∷ []) (start_of self.now.starts))) }
    {
        let start = start_among(self.by_number.as_slice(), job.number());
        add(made, waiting_stretch(self.seconds.as_slice(), job, start))
    }

    pub(crate) fn add_running(
        &self,
        job: &Job,
        start: u64,
        made: &mut Vec<Stretch<RunningNumber>, A>,
    ) -> Result<(), Memory>
        ensures { OnOk result (made.new.items ≡ made.old.items ++ filter stands_somewhere (map (placed_stretch self.now.seconds) (record { job = job.now; start = start } ∷ []))) }
    {
        add(made, running_stretch(self.seconds.as_slice(), job, start))
    }
}

fn add<T: Copy, A: Allocator + Copy>(
    made: &mut Vec<Stretch<T>, A>,
    stretch: Stretch<T>,
) -> Result<(), Memory>
    ensures { OnOk result (made.new.items ≡ made.old.items ++ filter stands_somewhere (stretch ∷ [])) }
{
    if stretch.stands_somewhere() {
        made.push(stretch)?;
    }
    Ok(())
}
