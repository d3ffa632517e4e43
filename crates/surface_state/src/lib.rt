//! What stands at the sites of a lattice, and how events change it and are taken back.
//!
//! A `Surface` holds the state of each site and counts the sites of each species. It promises that `apply`
//! rewrites the sites of an event's place and no others, that it gives what stood there, that `undo` puts this
//! back in every field, and that the counts are exact after every call. It stands on `surf_kinds` and `lattice`.
#![tactic(auto)]

mod before;
mod counts;
pub mod laws;
mod surface;

pub use before::Before;
pub use surface::Surface;

#[cfg(test)]
mod tests;
