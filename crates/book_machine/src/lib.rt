//! The book machine: who may call what of a shared log, what each call replies, and the laws of
//! every history of such calls.
#![tactic(auto)]

mod call;
mod caller;
pub mod laws;
mod name;
mod note;
mod noted_edit;
mod noted_entry;
mod reply;
mod settle_state;

pub use call::Call;
pub use caller::Caller;
pub use name::NotedName;
pub use note::Note;
pub use noted_edit::NotedEdit;
pub use noted_entry::NotedEntry;
pub use reply::Reply;
pub use settle_state::SettleState;
