//! The regions that the workers of a run take: bands of rows of a lattice.
//!
//! A `Cut` says which region a place belongs to, which sites a region sees, and which other regions are told of
//! an event. The crate promises that `owner`, `sees`, `told` and `tells` are their definitions over the places of the
//! lattice, that the places of a region are those of the range `places`, and that `neighbours` are the regions before
//! and after one. Its laws say that every place has one owner, that no region is empty, that an event is told to at
//! most two regions, which are neighbours of its owner, and that a region that is told nothing of an event sees none of
//! its sites. It stands on `surf_kinds` and `lattice`.
#![tactic(auto)]

mod cut;
pub mod laws;
mod neighbours;
mod region_list;

pub use cut::Cut;
pub use neighbours::Neighbours;
pub use region_list::RegionList;

#[cfg(test)]
mod tests;
