//! A long list in groups of shared chunks, so that a copy shares all but what an edit touches.
#![tactic(auto)]

mod chunk;
mod copied;
mod edits;
mod groups;
mod list;
mod numbered;
mod pieces;
mod rest;
mod row;
mod row_rest;
mod search;

pub use copied::{Copied, Keyed};
pub use list::Chunks;
pub use numbered::Numbered;
pub use rest::Rest;
