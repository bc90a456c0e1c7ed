//! Tests of what runs a log: what each call of the machine's state, the event loop, runs with their tables
//! and texts, runs after edits and the plain program answers where one growth after another is refused, and
//! where none is; how runs are cut; what is worked of them after edits; and what is read of many jobs that
//! end at once.
#![tactic(auto)]

#[cfg(test)]
mod clusters;
#[cfg(test)]
mod decisions;
#[cfg(test)]
mod engines;
#[cfg(test)]
mod equal_ends;
#[cfg(test)]
mod logs;
#[cfg(test)]
mod openings;
#[cfg(test)]
mod own_segments;
#[cfg(test)]
mod plain;
#[cfg(test)]
mod refusals;
#[cfg(test)]
mod rerun_rows;
#[cfg(test)]
mod reruns;
#[cfg(test)]
mod runs;
#[cfg(test)]
mod texts;
#[cfg(test)]
mod trials;
