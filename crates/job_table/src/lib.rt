//! The table of a log's jobs, in their order, and its edits, each of which counts what it copies: at
//! least one for each chunk that it makes anew, and at most 898.
#![tactic(auto)]

mod arranging;
mod cursor;
mod edit;
mod fault;
mod index;
pub mod laws;
mod rows;
mod table;

pub use cursor::Cursor;
pub use edit::Edit;
pub use fault::EditFault;
pub use table::JobTable;
