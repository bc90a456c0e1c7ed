//! Runs: the simulation of a table under a scenario, cut into segments, with its schedule and
//! tables.
#![tactic(auto)]

mod closing;
mod cutting;
mod fault;
mod gap;
pub mod laws;
mod merge_tree;
mod merged;
mod nodes;
mod noting;
mod parts;
mod piece;
mod planned;
mod rebuilding;
mod row;
mod rows;
mod run;
mod running_frame;
mod schedule;
mod segment;
mod segments;
mod shared;
mod simulation;
mod starts;
mod sums;
mod waiting_frame;

pub use cutting::{comes_before, next_piece};
pub use fault::RunFault;
pub use piece::Piece;
pub use planned::plan_rows;
pub use row::Row;
pub use rows::Rows;
pub use run::Run;
pub use segment::Segment;
pub use segments::Segments;
pub use simulation::{MAX_SPACING, simulate};
