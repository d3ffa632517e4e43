//! The events that were applied to a surface and may be taken back, in the order of their keys.
//!
//! A [`Timeline`] keeps for each event what stood at its sites before it. It promises that its keys rise, that
//! `back_to` gives back the very surface that stood before the entries that it removes, and that no call but
//! `reserve` takes memory. It stands on `surf_kinds` for keys and events and on `surface_state` for the surface.
#![tactic(auto)]

mod cuts;
mod entry;
pub mod laws;
mod timeline;

pub use entry::Entry;
pub use timeline::Timeline;

#[cfg(test)]
mod tests;
