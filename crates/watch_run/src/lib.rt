//! A run of a crew before viewers.
//!
//! [`run_watched`] writes the text of a run as `run_writer` does. Beside the rounds viewers sample the counts of the
//! surface, which are published after each round; when the run is over each learns the rest and takes its last sample. The
//! crate promises for the text all that `run_writer` does, and of a run that went to its end the lines of its viewers, as
//! `watching` says what they show. It ends what it publishes on every path. It stands on the writer of runs and on
//! `watching`.
#![tactic(auto)]

mod beside;

pub use beside::{Seats, run_watched};
