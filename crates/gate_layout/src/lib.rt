//! The crossbar layout of a circuit.
//!
//! A circuit is laid out on a surface whose cells pass values on to their neighbours: a row for each net, six columns
//! for each gate, and a crossing where a net's row meets the column of a lower net. [`Layout`] tells the role of each
//! cell, which neighbour fills a half of it, and a rank by which whatever fills a half comes before it. It is proved
//! to be a well-formed table. Other layouts serve in its place by the trait [`Roles`].
//!
//! Nets run along tracks, and which net runs where is a [`Placement`]. Roles, feeders and ranks are given on any of
//! them, in [`placed`], and each one that is sound makes a well-formed table. In [`Layout`] each net has a track of its
//! own, through all columns.
//!
//! Roles, feeders and ranks stand in `specs/Placed.antt`, the layout in `specs/Layout.antt`, and what makes a table
//! well-formed in `specs/Table.antt`.
//! Nothing here takes memory. The crate stands on `circuit_text`.
#![tactic(auto)]

mod feeds;
pub mod laws;
mod layout;
mod parts;
pub mod placed;
mod placement;
mod ranks;
mod role;
mod roles;
mod table;

pub use layout::{Layout, TooManySites};
pub use placement::Placement;
pub use role::Role;
pub use table::Roles;
