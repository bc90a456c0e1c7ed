//! One response, handed over: what is received at one end answers the request that was made when both ends
//! were.
#![tactic(auto)]

mod ends;
mod parcel;
mod response;

pub use ends::{Receiver, Sender, open};
pub use response::Response;
