//! The desk: a version book under one lock, its sessions and its workers, and the one history of them
//! all. Here alone threads wait.
#![tactic(auto)]

mod close_fault;
mod closing;
mod desk;
mod gate;
mod hearing;
mod listed_call;
mod listing;
mod making;
mod parts;
mod roster;
mod session;
mod session_readings;
mod session_steps;
mod settled;
mod shared;
mod worker;
mod worker_steps;

pub use close_fault::CloseFault;
pub use closing::{NotClosed, close};
pub use desk::Desk;
pub use gate::{Gate, NoGate};
pub use listed_call::ListedCall;
pub use session::Session;
pub use settled::Settled;
pub use shared::MAX_CALLERS;
pub use worker::{Worker, WorkerEnd};
