//! The plain program of the definitions: it works every second from 0 on and gives every job its
//! start, with jobs, lists and a rule of its own. Faster programs are measured by it.
#![tactic(auto)]

mod entry_job;
mod job;
mod last_second;
mod plan;
mod rule;
mod running;
mod simulation;
mod state;

pub use entry_job::effective;
pub use job::PlainJob;
pub use plan::LogPlan;
pub use simulation::simulate;
