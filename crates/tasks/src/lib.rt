//! Tasks: what a claim asks of a worker, the ticket that stands for it meanwhile, the run that the worker
//! leaves there, and what is published of it.
#![tactic(auto)]

mod base;
mod delivery;
mod published;
mod task;
mod ticket;
pub mod tickets;

pub use base::Base;
pub use published::Published;
pub use task::Task;
pub use ticket::Ticket;
