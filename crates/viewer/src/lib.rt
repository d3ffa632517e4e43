//! The samples that one viewer takes of the frames of a run.
//!
//! A [`Viewer`] has a reader of `frames` and room for a fixed number of samples, so that taking one needs no memory and
//! waits for nobody. The crate promises that no sample has fewer events than the one before it, and that once the
//! viewer has learnt what the writer told, each sample is the state after a beginning of the published changes.
#![tactic(auto)]

mod viewer;

pub use viewer::Viewer;

#[cfg(test)]
mod tests;
