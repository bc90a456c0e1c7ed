//! Reads a log with several threads: what each line is, side by side; what it adds to the lines
//! before it, in order.
#![tactic(auto)]

mod batch;
mod filling;
mod front;
mod piece;
mod pieces;
mod portion;
mod reader;
mod rising;

pub use front::LogFront;
pub use pieces::{BegunLog, begin_log};
pub use reader::read_parallel;
