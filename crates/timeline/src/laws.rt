ghost use Rattle.timeline.specs.Laws.{AllEndByTheBound, AllHaveEnded, AllStartByTheBound, EachJobStartsOnce, EventsEndByTheBound, NoneStartsEarly, StartsAreRunningJobs};
ghost use Rattle.timeline.specs.Laws.{EachStateIsSettled, EachStateIsSound, OnlyEndsUnsettle, QuietSecondsChangeNothing};
ghost use Rattle.timeline.specs.Laws.{HeadsStartByTheirShadowTimes, ShadowTimesNeverRise};
ghost use Rattle.timeline.specs.Closed.{NumbersStandUntilTheyEnd, StartsAreFinal, StatesFollowFromStarts};
ghost use Rattle.timeline.specs.Ledger.{LedgersSwap, NotesKeepTheLedger};
ghost use Rattle.timeline.specs.Meeting.{EachHasMet, SnapshotsMeet, StatesMeet};
ghost use Rattle.timeline.specs.Stretches.{AllStartsTell, LaterStartsTell, RunningStandInAStretch, StatesStandInStretches, WaitingStandInAStretch};

/// Each job of a plan starts exactly once, at its submit second or later, and nobody else starts.
pub fn each_job_starts_once()
    ensures once { EachJobStartsOnce }
    ensures not_early { NoneStartsEarly }
{}

/// Who starts at a second runs before the next one, with that start, and who runs there with that
/// start has started at it.
pub fn starts_are_running_jobs()
    ensures { StartsAreRunningJobs }
{}

/// After the last submit second plus the lengths of all jobs nobody waits or runs, no job ends or
/// starts later than that, and no event second comes later.
pub fn all_jobs_end()
    ensures state { AllHaveEnded }
    ensures ends { AllEndByTheBound }
    ensures starts { AllStartByTheBound }
    ensures events { EventsEndByTheBound }
{}

/// The state before each second is sound, and nobody may start in it.
pub fn states_are_settled()
    ensures sound { EachStateIsSound }
    ensures settled { EachStateIsSettled }
{}

/// Seconds at which no job ends and none is submitted change no state, and nobody starts in them.
pub fn quiet_seconds_change_nothing()
    ensures { QuietSecondsChangeNothing }
{}

/// Where no job ends at a second, nobody who waited before it may start at it, and the shadow is that
/// of the state before.
pub fn only_ends_unsettle()
    ensures { OnlyEndsUnsettle }
{}

/// While a job waits first, its shadow time never goes up from one second to a later one, and it
/// starts no later than any of its shadow times.
pub fn heads_start_by_their_shadow_times()
    ensures never_rise { ShadowTimesNeverRise }
    ensures starts { HeadsStartByTheirShadowTimes }
{}

/// Before each second, of a plan's jobs those wait that are submitted before it and have no start
/// before it, in the order of the log; and those run that started before it and end at it or later,
/// with their starts, rising by number. So a number stands there from its submit second on, until its
/// job has ended. A start before a second is the job's start in the whole simulation.
pub fn states_follow_from_starts()
    ensures state { StatesFollowFromStarts }
    ensures stands { NumbersStandUntilTheyEnd }
    ensures starts { StartsAreFinal }
{}

/// Of two plans whose jobs are equal but for those of touched numbers, the states before a second are
/// equal, these numbers aside, exactly where the same other numbers have started before it in both,
/// and those of them that started at different seconds have ended in both. The whole states are equal
/// and hold no touched number exactly where, besides, none waits or runs in either.
pub fn states_meet()
    ensures others { StatesMeet }
    ensures whole { SnapshotsMeet }
    ensures each { EachHasMet }
{}

/// In what the starts of two plans differ can be kept start by start. A start of a number that is not
/// touched is kept as one plan's alone until the other plan has one of it; where their seconds differ,
/// one second past the later of the two ends is kept, if it is the latest.
pub fn ledgers_are_kept_by_starts()
    ensures notes { NotesKeepTheLedger }
    ensures swap { LedgersSwap }
{}

/// The numbers of the states before rising seconds are what stands at each place of two lists of
/// stretches: of each job of the plan the places at which it waits, in the order of the log, and those
/// at which it runs, where each place's numbers are put in order. The starts that tell them may be
/// those of the whole simulation, or those before any second that comes no earlier than these.
pub fn states_stand_in_stretches()
    ensures states { StatesStandInStretches }
    ensures all { AllStartsTell }
    ensures later { LaterStartsTell }
{}

/// From one second up to another, the numbers of the states before rising seconds follow from what
/// happens there alone: from the jobs that wait and run before the first of the two, those that are
/// submitted from it on and before the second one, and the starts that are made in between. The waiting
/// numbers are what stands at each place of the waiting jobs' stretches and then the coming ones'; the
/// running numbers what stands there of the stretches of the running jobs and of the started ones, put in
/// order.
pub fn states_stand_in_a_stretch()
    ensures waiting { WaitingStandInAStretch }
    ensures running { RunningStandInAStretch }
{}
