//! The messages between two regions: the rings that they go through, and the stacks that they build.
//!
//! A region tells another of its events by messages. [`ring`] gives the two ends of a ring of messages, each of
//! which may go to a thread of its own. An end keeps what it knows of the other: how many slots are free, or how many
//! messages wait. [`beside`] looks at both ends at once. The receiver keeps, for each sender, the events that stand
//! of those that it was told: its [`Stacks`].
//!
//! The crate promises that a message is refused only where no slot is known to be free, that none is missed where one
//! is known to wait, that what was received and what then waits is what was sent, and that a stack is the replay of
//! the messages taken from its sender. It stands on `surf_kinds`, and on `rtrb` for the rings.
#![tactic(auto)]

mod ends;
pub mod laws;
mod op;
mod stacks;

pub use ends::{InEnd, OutEnd, beside, ring};
pub use op::Op;
pub use stacks::{Stacks, cut};

#[cfg(test)]
mod tests;
