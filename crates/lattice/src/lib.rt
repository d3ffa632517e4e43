//! The lattice that a surface lies on: its sites, its pairs of neighbours, and what an event does there.
//!
//! The crate holds the definitions of places, channels and rewritten surfaces. It promises that `sites_of` and
//! `places_of` are these definitions, on the square and the hexagonal lattice, with and without wrapping, and
//! that the programs in `plain` are too. A place is taken apart by its site and its step (`surf_kinds`), here and
//! everywhere above. Its `laws` say that a place's two sites differ, that no two places have the same sites, in
//! which rows the sites of a place are, what an event leaves at each site, and that no site is rewritten more than
//! seven times in a tick. It stands on `surf_kinds`.
#![tactic(auto)]

mod grid;
pub mod laws;
mod place_list;
mod place_range;
pub mod plain;

pub use grid::{Kind, Lattice, SizeFault};
pub use place_list::PlaceList;
pub use place_range::PlaceRange;

#[cfg(test)]
mod tests;
