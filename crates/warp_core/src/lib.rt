//! The optimistic core: regions that run ahead, tell one another of their border events, and undo what they guessed
//! wrong.
//!
//! A surface is cut into regions. Each region has a timeline of events, its own and those that it was told of, and
//! a clock. It fires the next event of its own places as it knows them, and tells the other regions that see one of
//! the event's sites. Where a message comes with a key below the clock, the region cuts its timeline there and takes
//! back what it had told. What lies below all clocks and all messages is final, and can be committed.
//!
//! `Config` is such a configuration over a plan. A step is made where its condition holds, and else nothing changes.
//! For every list of steps the committed events are the history below the horizon, and the list only grows.
//!
//! The theory stands over any simulation that meets a few laws (`specs/World`): what a local timeline is
//! (`specs/Timelines`), what messages do (`specs/Messages`), the steps of one region (`specs/Parts`), when a
//! configuration is consistent (`specs/Cores`) and the steps of all (`specs/Steps`). A network on a lattice cut into
//! bands of rows is such a simulation (`specs/Simulation`), and `specs/Configs` says what a `Config` holds of it.
#![tactic(auto)]

mod commit;
mod config;
pub mod laws;
mod next;
mod outboxes;
mod region;
mod step;
#[cfg(test)]
mod tests;

pub use config::Config;
pub use step::{Did, Step};
