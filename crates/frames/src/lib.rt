//! Frames: the lists that stand at neighbouring places, in one, in which an item that stands in many of
//! them takes memory once.
#![tactic(auto)]

mod frame;
mod keyed;
pub mod laws;
mod same;
mod standing;
mod stretch;

pub use frame::Frame;
pub use keyed::Keyed;
pub use same::Same;
pub use standing::Standing;
pub use stretch::Stretch;
