//! One surface that runs on one thread, by the next reaction method of Gibson and Bruck.
//!
//! An [`Engine`] keeps the next event of every place in a queue. Firing the least of them rewrites the sites of its
//! place, and then only the places that share one of these sites get a new next event. The engine promises that
//! `fire` gives the next event of the surface, up to a tick, and leaves the surface after it: so its answers, called
//! again and again, are the history. It stands on `plan`, `surface_state` and `next_events`.
#![tactic(auto)]

mod engine;
pub mod laws;

pub use engine::Engine;

#[cfg(test)]
mod tests;
