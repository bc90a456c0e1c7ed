//! A sorted row in blocks, each of which knows what its items weigh together.
#![tactic(auto)]

mod block;
mod block_row;
mod front;
mod groups;
mod growth;
mod items;
mod light;
mod place;
mod ranked;
mod row_edits;
mod search;
mod sorted;
mod walk;

pub use items::Items;
pub use ranked::Ranked;
pub use sorted::Blocks;
