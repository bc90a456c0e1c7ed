//! The event loop: simulates a table of jobs under a scenario, one event second after another.
#![tactic(auto)]

mod arrivals;
mod arriving;
mod engine;
mod fault;
mod last_shadow;
mod stepped;
mod stepping;
mod upcoming;

pub use engine::Engine;
pub use fault::EngineFault;
pub use stepped::Stepped;
