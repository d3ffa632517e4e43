//! The order and the number of the events that are committed.
//!
//! The regions of a surface each give a list of events. `merge` makes one list of them, in the order of keys, and
//! a `Tally` numbers the events as they are written, up to a limit. The crate promises that no event is lost, made
//! or written out of order, and that the number of an event is one more than the number of those before it.
//!
//! It stands on `surf_kinds` for the events and their order, and on std's sort.
#![tactic(auto)]

mod merged;
mod tally;

pub use merged::merge;
pub use tally::{EventLimit, Tally};

#[cfg(test)]
mod tests;
