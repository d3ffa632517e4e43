//! What viewers see of a run: the counts of its surface, published round by round.
//!
//! A [`Publisher`] turns the events of each round into changes of the counts and publishes them. Beside it each viewer
//! samples; once the run is over it learns what was published and takes its last sample. The crate promises that each
//! sample is the state after a beginning of the run's events, that the samples of a viewer never lose events, and that
//! the last shows all; and `laws` says what such a state is: as many events as there were, the time of the last, and how
//! many sites have each species on the surface after them. It stands on `frames` and `viewer`, and on what events do to
//! surfaces.
#![tactic(auto)]

pub mod laws;
mod lines;
mod observer;
mod publisher;
mod viewers;

pub use lines::views_of;
pub use observer::{Nobody, Observer};
pub use publisher::Publisher;
pub use viewers::{finish, sample_all, seats};
