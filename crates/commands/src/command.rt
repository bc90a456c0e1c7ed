use crate::name::ScenarioName;
use scenarios::Scenario;
use std::alloc::Allocator;
use swf_text::{EntryLines, Value};

/// One command of a script, with the words behind it as values.
#[derive(Drop)]
pub enum Command<A: Allocator + Copy> {
    /// `insert` and eighteen numbers: this entry joins the log.
    Insert(EntryLines<A>),
    /// `remove` and a job number: this job leaves the log.
    Remove(u64),
    /// `change`, a job number, a field and a number: that field of the job gets this value.
    Change {
        number: u64,
        field: u8,
        value: Value,
    },
    /// `scenario`, a name, processors, a factor in thousandths, and optionally an order.
    Scenario {
        name: ScenarioName,
        scenario: Scenario,
    },
    /// `drop` and a name: this scenario goes.
    Drop(ScenarioName),
    /// `retry` and a name: this scenario is worked again.
    Retry(ScenarioName),
    /// `settle`: wait until each scenario is worked.
    Settle,
    /// `schedule` and a name: the start and the end of each job.
    Schedule(ScenarioName),
    /// `table` and a name: the sums and means of the run.
    Table(ScenarioName),
    /// `users` and a name: the same by user.
    Users(ScenarioName),
    /// `days` and a name: the same by day.
    Days(ScenarioName),
    /// `side`: the scenarios side by side.
    Side,
    /// `log` and a name: the jobs of the log under this scenario.
    Log(ScenarioName),
    /// `save`: the log with its scenarios.
    Save,
    /// `version`: the number of the log's version.
    Version,
    /// `quit`: the script ends here.
    Quit,
}
