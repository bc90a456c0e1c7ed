//! One history of a desk for all who call it: the calls that were noted, the callers that were opened
//! and the stops, in one order. It only grows, and exists in the proofs alone; at run time there is
//! its length.
#![tactic(auto)]

mod event;
mod front;
mod law;
pub mod laws;
mod naming;
mod unnamed;
mod whole;

pub use event::Event;
pub use front::Front;
pub use naming::Naming;
pub use unnamed::Unnamed;
pub use whole::Whole;

#[cfg(test)]
mod tests;
