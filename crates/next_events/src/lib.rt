//! The next events of places on a surface, in a queue that goes on with the surface.
//!
//! A queue has an entry for each place of a range: the place's next event on the surface. Where an event or its undo
//! rewrites the sites of a place, the places that share a site with it get new entries, and all others keep theirs.
//! The crate promises which entries change, and to what, on any surface: it doesn't matter how the surface came to be.
//! It stands on `plan`, `surface_state` and `event_queue`.
#![tactic(auto)]

mod entries;
pub mod laws;
mod places;

pub use entries::{next, queue_of, refresh};
pub use places::{EveryPlace, Places};

#[cfg(test)]
mod tests;
