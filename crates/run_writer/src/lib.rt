//! What is written of a run by a crew, round by round.
//!
//! [`write_run`] makes the rounds of a crew and writes the text of its run (`specs/RunText.antt`): the events in the order
//! of the history, the surface at each sampling tick, and the end. All that a round hands out has gone out, and an observer
//! was told of it, before the next round begins, so memory doesn't grow with the run. It promises that a run which goes to
//! its end, or meets the limit, is written whole, that after a fault of the sink or for want of memory a prefix of its text
//! was written, how the crew stands then, and that the observer of a run that went to its end has seen all of its events.
//! [`write_rounds`] does so with a [`Writer`] of the caller, who may make it before others begin to work beside the rounds.
//!
//! [`write_stress`] makes the same rounds and only counts: of a run that went to its end it writes how many events there
//! were, when the last one was, and the counts of the last surface. `laws` says what run texts are, tick by tick.
//!
//! The crate stands on the crew, on the observers of `watching` and on the writers of lines. How a call ends, and what the
//! words and the manifest are, is said by the crate above, which uses [`Buffer`] and [`flush_much`] for other texts of many
//! lines too.
#![tactic(auto)]

mod buffer;
mod counting;
pub mod laws;
mod pages;
mod rounds;
mod surfaces;
mod ticks;
mod writer;

pub use buffer::Buffer;
pub use counting::write_stress;
pub use pages::{Stop, flush, flush_much};
pub use rounds::{write_rounds, write_run};
pub use writer::{Span, Task, Writer};
