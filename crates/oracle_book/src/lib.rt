//! The plain program of the book machine: it goes over the calls of a history one by one, with lists
//! of its own, and so judges the replies that a book gave.
#![tactic(auto)]

mod book;
mod judge;
mod row;

pub use book::PlainBook;
pub use judge::first_wrong;
