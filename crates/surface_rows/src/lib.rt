//! The rows of a surface as text.
//!
//! A row is a line of the names of the species at its sites, with one space between. [`write_rows`] promises that
//! the sink gains the lines of all rows or, where the sink fails, a prefix of them; [`write_row_of`] writes one of them. Each name goes out by a call of its
//! own, so nothing here takes memory, however large the surface. The crate stands on `surf_kinds`, `surf_outside` and
//! `species`.
#![tactic(auto)]

pub mod laws;
mod rows;

pub use rows::{name_bytes, write_row_of, write_rows};

#[cfg(test)]
mod tests;
