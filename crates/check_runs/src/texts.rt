// The texts of runs. What stands in them is proved, and cases of tests/ show them.
use checkpoints::Run;
use report::{SideLine, days_text, log_text, schedule_text, side_text, table_text, users_text};
use std::alloc::Allocator;
use std::sync::Arc;
use swf_text::Memory;

/// All texts of a run have their lengths: schedule, tables and log.
pub(crate) fn texts<A: Allocator + Copy>(alloc: A, run: &Run<A>) -> Result<bool, Memory> {
    let lengths = [
        schedule_text(alloc, "base", 0, run)?.len(),
        table_text(alloc, "base", 0, run)?.len(),
        users_text(alloc, "base", 0, run)?.len(),
        days_text(alloc, "base", 0, run)?.len(),
        log_text(alloc, "base", 0, run.table(), run.scenario())?.len(),
    ];
    Ok(lengths == [247, 173, 147, 63, 281])
}

/// The run is answered of beside a scenario that has none.
pub(crate) fn beside<A: Allocator + Copy>(alloc: A, run: Run<A>) -> Result<bool, Memory> {
    let shown = SideLine::Shown {
        name: "base",
        version: 0,
        run: Arc::new(alloc, run)?,
    };
    let text = side_text(alloc, &[shown, SideLine::NotYet { name: "big" }])?;
    Ok(text.len() == 110)
}
