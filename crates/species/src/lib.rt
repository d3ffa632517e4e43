//! Names and their numbers.
//!
//! [`Texts`] is a list of distinct texts, numbered in the order in which they first came. [`Names`] is such a list for the
//! names of species: a name keeps its number for good, a new name gets the next number, and there are no more than 4,096.
//! Both stand on the set in insertion order of the crate `indexmap`.
#![tactic(auto)]

pub mod laws;
mod names;
mod texts;

pub use names::{NameError, Names};
pub use texts::Texts;

#[cfg(test)]
mod tests;
