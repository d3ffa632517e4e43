//! Tests of the public calls of the crates that read and write what a program is given: `rates` and `manifest_read`,
//! `manifest_write`, and `surface_words`.
//!
//! They see what no clause says: that calls succeed where memory is there, and which rates, manifests, texts and words
//! the definitions come to. Expected values are worked out by hand from the definitions.
#![tactic(auto)]

#[cfg(test)]
mod rate_tests;
#[cfg(test)]
mod read_tests;
#[cfg(test)]
mod texts;
#[cfg(test)]
mod word_tests;
#[cfg(test)]
mod write_tests;
