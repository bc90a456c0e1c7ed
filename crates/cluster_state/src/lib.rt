//! The state of a simulated machine: who waits, who runs.
#![tactic(auto)]

mod by_end;
mod candidate;
mod candidates;
mod changes;
mod cluster;
mod ends;
pub mod laws;
mod lookup;
mod queue;
mod runner;
mod running_set;
mod snapshot;
mod waiter;
mod waiting;

pub use by_end::RunningByEnd;
pub use cluster::Cluster;
pub use snapshot::{RunningNumber, Snapshot};
pub use waiting::Waiting;
pub use waiting_places::Offer;
