//! The version book: a shared log with all its versions, scenarios with their published runs, tickets
//! for runs that are to be made, and a journal of every call; and the calls of one who edits and views it.
//! It waits for nobody.
#![tactic(auto)]

mod analyst;
mod book;
mod book_session;
mod calls;
mod faults;
mod journal;
mod laws;
mod lookups;
mod named;
mod reading;
mod refusal;
mod replies;
mod session_steps;
mod settling;
mod shown;
mod state;
mod worker_steps;

pub use analyst::Analyst;
pub use book::Book;
pub use book_machine::{Call, Caller, Note, Reply, SettleState};
pub use book_session::BookSession;
pub use checkpoints::RunFault as BookFault;
pub use faults::{FinishFault, TooManyTickets, UnknownTicket, ViewFault};
pub use laws::main_theorem;
pub use named::Named;
pub use reading::Reading;
pub use refusal::{
    AddRefusal, ClaimRefusal, DropRefusal, EditRefusal, FinishRefusal, GiveUpRefusal, Refusal,
    RetryRefusal, ViewRefusal,
};
pub use replies::fitted;
pub use tasks::{Base, Published, Task};
