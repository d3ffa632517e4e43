//! Tests of the regions of `region_run`, by its public calls.
//!
//! They see what no clause says: that calls succeed where memory is there, and what a region comes to on given surfaces,
//! messages and turns. Expected values are worked out by hand from the definitions. A crate with tests is proved a second
//! time with them, so they don't stand in `region_run`, which is large.
#![tactic(auto)]

#[cfg(test)]
mod hostile_tests;
#[cfg(test)]
mod message_tests;
#[cfg(test)]
mod pair_tests;
#[cfg(test)]
mod walk;
