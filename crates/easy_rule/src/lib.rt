//! EASY backfilling: which waiting jobs start now, and when the first one can start at the latest.
#![tactic(auto)]

mod at_once;
mod backfill;
mod behind;
mod candidate;
mod decision;
pub mod examples;
mod first;
pub mod laws;
mod pass;
mod shadow_time;
mod shadow_walk;
mod start;

pub use at_once::{start_at_once, starts_at_once};
pub use behind::decide_behind;
pub use decision::{decide, decide_into};
pub use shadow_time::Shadow;
pub use shadow_walk::{shadow, shadow_counted};
pub use start::{Start, add_starts};
