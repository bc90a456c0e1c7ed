//! Tests of the version book and of the plain program that judges it: histories that are worked by hand,
//! each call of which goes on as it should where one growth after another is refused, and lists of calls
//! that are made up.
#![tactic(auto)]

#[cfg(test)]
mod histories;
#[cfg(test)]
mod lists;
#[cfg(test)]
mod other_runs;
#[cfg(test)]
mod player;
#[cfg(test)]
mod rows;
#[cfg(test)]
mod tally;
