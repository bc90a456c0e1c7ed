//! The texts of reports, byte for byte: a schedule, the tables of a run, scenarios side by side,
//! and a log.
#![tactic(auto)]

mod batch;
mod days;
mod entries;
mod heading;
mod line;
mod page;
mod pieces;
mod printing;
mod schedule;
mod side;
mod source;
mod table;
mod texts;
mod users;

pub use days::days_text;
pub use entries::log_text;
pub use printing::ScheduleReport;
pub use side::{SideLine, side_text};
pub use table::table_text;
pub use texts::{plan_report, schedule_text};
pub use users::users_text;
