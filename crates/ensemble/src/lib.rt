//! A manifest run with many seeds.
//!
//! [`ensemble`] runs a manifest once for each of a row of seeds, on as many threads as are asked for, and gives what
//! each run came to: how many events there were, the tick of the last, and how many sites each species has. It promises
//! the list that `specs/Outcomes.antt` defines by the histories of the seeds, in the order of the seeds, whatever the
//! number of threads; or that memory ran out. [`write_ensemble`] writes this list as text, with the least, the greatest
//! and the sum of each species' counts (`specs/Texts.antt`).
//!
//! The crate stands on `manifest_read` for what is run, and on `one_engine`, which runs it.
#![tactic(auto)]

mod call;
pub mod laws;
mod one_seed;
mod outcome;
mod spread;
mod table;
mod workers;
mod writing;

pub use call::ensemble;
pub use outcome::{EnsembleSettings, Outcome};
pub use workers::engines_at_once;
pub use writing::{write_ensemble, write_outcome, write_totals};

#[cfg(test)]
mod tests;
