//! Tests of the libraries that read, keep and write logs, in a crate of their own so that each of these
//! is proved once: what is answered where memory is refused, also of places, of rows in blocks and of
//! frames; which lines are packed; logs that are cut off; writers that fail; what edits of a table count;
//! and many edits beside a plain list.
#![tactic(auto)]

#[cfg(test)]
mod batches;
#[cfg(test)]
mod counts;
#[cfg(test)]
mod cuts;
#[cfg(test)]
mod edits;
pub mod example;
#[cfg(test)]
mod fronts;
#[cfg(test)]
mod growths;
#[cfg(test)]
mod lines_answered;
#[cfg(test)]
mod packed;
#[cfg(test)]
mod pieces;
#[cfg(test)]
mod places;
#[cfg(test)]
mod sorted;
#[cfg(test)]
mod stretches;
#[cfg(test)]
mod writing;
