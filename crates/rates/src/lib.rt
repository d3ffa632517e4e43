//! Rates, how they are spelled, and the waits that they give.
//!
//! A rate says how often a reaction comes in a unit of time, and a drawn word how long this one lets wait: the
//! word's energy divided by the rate, in ticks, rounded down, and one tick more. So each wait is at least one
//! tick, and time goes on with every event. The crate promises the value of a wait, and its bounds. Of the text of
//! a rate it promises the rate in lowest terms, and that exactly the texts that spell no rate are refused; of the
//! text of a duration, its whole ticks.
//!
//! It stands on `surf_kinds` for the rates, on `fixed_log` for the energies and on `surf_text` for decimals.
#![tactic(auto)]

mod durations;
pub mod laws;
mod reading;
mod waits;

pub use durations::read_duration;
pub use reading::read_rate;
pub use waits::{wait, wait_bounds};
