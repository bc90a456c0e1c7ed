ghost use Rattle.std.specs.Prelude.{◌≡◌, IfOk};
ghost use Rattle.scripts.specs.Reports.{report_text};

use checkpoints::Run;
use report::{days_text, schedule_text, table_text, users_text};
use std::alloc::Allocator;
use swf_text::Memory;

/// The kinds of reports on a run.
#[derive(Clone, Copy, Debug, PartialEq, Eq)]
pub(crate) enum Report {
    /// The start and the end of each job.
    Schedule,
    /// Counts, waits, slowdowns and utilization.
    Table,
    /// The jobs of each user.
    Users,
    /// The busy processors of each day.
    Days,
}

impl Report {
    /// The report on a run of a scenario of this name, at this version. Memory where a growth is
    /// refused.
    pub(crate) fn text<A: Allocator + Copy>(
        self,
        alloc: A,
        name: &str,
        version: u64,
        run: &Run<A>,
    ) -> Result<Vec<u8, A>, Memory>
        ensures { IfOk result (λ text. text.items ≡ report_text self name.now version run.now) }
    {
        match self {
            Report::Schedule => schedule_text(alloc, name, version, run),
            Report::Table => table_text(alloc, name, version, run),
            Report::Users => users_text(alloc, name, version, run),
            Report::Days => days_text(alloc, name, version, run),
        }
    }
}
