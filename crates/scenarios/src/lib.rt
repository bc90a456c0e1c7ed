//! Scenarios, lists of them by name, the job that an entry of a log is under a scenario, and the plan
//! of a table under one.
#![tactic(auto)]

mod entry_job;
mod job;
mod jobs;
mod list_fault;
mod name;
mod order;
mod placed;
mod plan;
mod plan_ref;
mod scenario;
mod scenario_id;
mod scenario_list;
mod skip;
mod skips;

pub use entry_job::{MAX_ESTIMATE, effective};
pub use job::Job;
pub use jobs::Jobs;
pub use list_fault::{AddFault, NoSuchScenario};
pub use name::is_name;
pub use order::Order;
pub use placed::{Placed, SECONDS_END};
pub use plan::Plan;
pub use plan_ref::PlanRef;
pub use scenario::{MAX_FACTOR, MAX_PROCS, Scenario};
pub use scenario_id::ScenarioId;
pub use scenario_list::{MAX_SCENARIOS, ScenarioList};
pub use skip::Skip;
pub use skips::Skips;
