//! What tests and programs that check share: logs and edits as they are written, numbers of a seed, flags
//! that threads wait for, and readers and writers that fail.
#![tactic(auto)]

mod chance;
mod edits;
mod flags;
mod logs;
mod readers;
mod writers;

pub use chance::{Chance, of_turn};
pub use edits::{Written, edit_of};
pub use flags::Flags;
pub use logs::{FOUR, entry_of, shared_table, table_of};
pub use readers::Dripping;
pub use writers::Filling;
