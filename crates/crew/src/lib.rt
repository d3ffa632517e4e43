//! The regions of a surface together: on threads in their turns, then settled, then committed.
//!
//! A [`Crew`] has a region for each band of a cut. A round lends each region to a worker for one turn. When all have
//! ended, the regions settle: every message is delivered, and the regions that are behind the least next key catch up,
//! until what lies below all clocks can be committed. The crate promises that a round hands out the history's events
//! from the old horizon on and below the new one, whatever the workers did meanwhile; that the list isn't empty unless
//! the crew is then finished; and that each region made one turn, which added its quota or all that was left. After
//! want of memory no event is handed out, and the crew may be used again. The loops of settling stand over any
//! [`Machine`]. It stands on `region_run`, `warp_core`, `ordered_commit` and `surf_outside`.
#![tactic(auto)]

mod commit;
mod crew;
mod deliver;
pub mod laws;
mod machine;
mod making;
mod members;
mod report;
mod settings;
mod settling;
mod turns;

pub use crew::Crew;
pub use deliver::{deliver_all, drain, sweep, sweep_from};
pub use machine::Machine;
pub use settings::{CrewSettings, Report};
pub use settling::{finish, least_next, pass, settle, some_behind};

#[cfg(test)]
mod tests;
