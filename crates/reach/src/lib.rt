//! The surfaces that firings reach, whatever their order.
//!
//! A firing is a channel at a place, and `IsReached` holds of each list of species that firings make of another. Neither
//! times nor draws occur in it. The laws say that a simulation is one such order, and that where firings use up a
//! number, one at a time, every history is as long as that number.
#![tactic(auto)]

pub mod laws;
