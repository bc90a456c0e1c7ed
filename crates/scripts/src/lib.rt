//! Scripts: an analyst's commands on a log, one after another, and the response to each. One
//! interpreter serves all that edit and view a log: a session with a book of its own, and a session at
//! a desk.
#![tactic(auto)]

mod answer;
mod calls;
mod hearing;
mod laws;
mod lifting;
mod live;
mod refusal_name;
mod reply;
mod run;
mod saving;
mod side;
mod view_report;
mod views;

pub use laws::{
    each_scenario_is_added, the_first_schedule, transcripts_lift, unrefused_transcripts_are_one,
};
pub use lifting::Lifting;
pub use live::{LiveFault, run_live};
pub use run::{run_lines, work_lines};
pub use saving::bytes_of;
