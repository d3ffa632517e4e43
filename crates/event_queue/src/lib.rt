//! The next events of a range of places, and the least of them by key.
//!
//! A [`Queue`] keeps at most one event for each place. It promises that `least` is the kept event with the least
//! key, that `get` gives what was set last, and that `set` changes nothing else and takes no memory. It is a
//! tournament tree with eight below each: every node is the first of the eight below it, so that the root is the
//! first of all, and a change is carried up only as far as it makes a difference. There are two such trees, one of
//! the first four of each eight places and one of the others: no lattice uses those, and a tree in which nothing
//! was set touches no memory. It stands on `surf_kinds`.
#![tactic(auto)]

mod entry;
mod queue;
mod tournament;

pub use queue::Queue;

#[cfg(test)]
mod tests;
