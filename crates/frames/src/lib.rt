//! Counts of the species that one writer publishes while it goes on, and readers that never wait.
//!
//! [`frames`] gives a [`FrameWriter`] and several [`FrameReader`]s, each of which may go to a thread of its own. The
//! writer adds the changes that events make, and publishes all that it added at one step. A reader's frame is a
//! [`Sample`]: how many events there were, the tick of the last, and how many sites have each species.
//!
//! The crate promises that each frame is the state after a list of changes that begins with every list that this reader
//! saw or was told of, so a reader's frames never go back. What the writer tells is its published list; of that list and
//! one that a reader saw, one begins the other. Nothing is said between two readers, and nothing of when a reader sees
//! a change.
//!
//! Two copies of the counts lie in a `left_right` pair; `logbook` keeps, in the proofs alone, the list of all changes.
#![tactic(auto)]

mod change_log;
pub mod laws;
mod pair;
mod places;
mod reader;
mod sample;
mod writer;

pub use reader::{FrameReader, Told};
pub use sample::{Change, Sample};
pub use writer::{FrameWriter, frames};

#[cfg(test)]
mod tests;
