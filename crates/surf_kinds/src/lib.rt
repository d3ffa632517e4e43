//! The numbers, rules and states that every crate of the simulator speaks of.
//!
//! A surface has molecules at the sites of a lattice. A rule turns the species of one site, or of two
//! neighbouring sites, into others. An event is one firing of a rule: at a time, at a place (a site or a
//! pair of neighbours), by a channel (a rule with the way in which its reactants stand). Events are ordered
//! by their keys: by time, then by place.
//!
//! The crate stands on nothing but std, and promises the order of keys, the parts of a place's number and of a
//! channel's, and the bounds of rates.
#![tactic(auto)]

mod counts;
mod event;
pub mod laws;
mod place;
mod rule;
mod site;
mod status;

pub use counts::Counts;
pub use event::{Event, Key, rule_of_channel, way_of_channel};
pub use place::{Place, Step};
pub use rule::{Rate, Rule};
pub use site::{SiteId, SiteState, Sites, SpeciesId};
pub use status::{NoMemory, Status};

#[cfg(test)]
mod tests;
