ghost use Rattle.checkpoints.specs.Alike.{RunsOfOneTableAreAlike};
ghost use Rattle.checkpoints.specs.Schedule.{EachJobHasARow};
ghost use Rattle.checkpoints.specs.Simulated.{EachRunIsSimulated};

/// The schedule of a log has a row for each job that is simulated, in their order.
pub fn each_job_has_a_row()
    ensures { EachJobHasARow }
{}

/// A run keeps all starts that the simulation, second by second, gives its own table and scenario, in
/// their order; so its schedule is the simulation's, and its tables are the sums over it.
pub fn each_run_is_simulated()
    ensures { EachRunIsSimulated }
{}

/// Two runs of one table and scenario have the same starts, the same schedule and the same tables,
/// however they were cut into segments.
pub fn runs_of_one_table_are_alike()
    ensures { RunsOfOneTableAreAlike }
{}
