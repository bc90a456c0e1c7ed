//! Those who wait, each at a place of its own in order of arrival, among whom the first who fits an
//! offer is soon found.
#![tactic(auto)]

mod corner;
mod frontier;
mod growth;
mod offer;
mod places;
mod refused;
mod search;
mod tree;
mod waiting;
mod waits;

pub use offer::Offer;
pub use places::Places;
pub use waiting::Waiting;
pub use waits::Waits;
