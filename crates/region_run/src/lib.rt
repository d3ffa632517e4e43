//! A region of a surface at work: a band of rows with a timeline of its own, which may run ahead of its neighbours.
//!
//! A [`Region`] has a surface, the entries that were applied to it, the next events of its own places, a stack of what
//! each neighbour told it, and outboxes and rings for what it tells them. The crate promises that each call is a run of
//! steps of the core of `warp_core`, with the four facts of such runs, and that a region stays one; that a turn keeps
//! its quota, hears its rings and sends what they take; and that a message that is not lawful changes nothing. It
//! stands on `timeline`, `next_events`, `border`, `regions` and `warp_core`.
#![tactic(auto)]

mod board;
mod changes;
mod choice;
mod deliveries;
pub mod laws;
mod region;
mod rooms;
mod side;
mod start;
mod telling;
mod totals;
mod turning;

pub use deliveries::{deliver, look};
pub use region::Region;
pub use totals::{Totals, Turn};
