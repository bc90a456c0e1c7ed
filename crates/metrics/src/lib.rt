//! What a schedule amounts to: sums over its jobs, by user and by day, and the tables of these.
#![tactic(auto)]

mod days;
mod entries;
mod laws;
mod measures;
mod part;
mod rows;
mod stored;
mod tables;
mod totals;
mod users;

pub use laws::jobs_have_one_part;
pub use measures::{busy, can_start, can_sum, slowdown, wait};
pub use part::Part;
pub use rows::{DayRow, Overall, UserRow};
pub use scenarios::{Placed, Skips};
pub use tables::Tables;
pub use totals::Totals;
pub use users::UserSums;
