//! What holds of a simulation second by second: its laws of time, each the contract of a function,
//! the second by which all jobs have ended, and where among rising seconds a job waits and runs.
#![tactic(auto)]

pub mod last_second;
pub mod laws;
pub mod stretches;
