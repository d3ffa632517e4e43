//! The next event of a place, by the rules of a program, and the history that a surface runs through.
//!
//! A `Plan` holds the rules, the lattice and the seed. It promises that `next_of` is the next event of a place: of
//! its channels, the one whose wait ends first. The crate holds the definition of the history, and proves that
//! the history is what its places offer, key by key. It stands on `rates`, `draws` and `lattice`.
#![tactic(auto)]

mod index;
pub mod laws;
mod order;
mod plan;
pub mod rescan;

pub use plan::Plan;

#[cfg(test)]
mod tests;
