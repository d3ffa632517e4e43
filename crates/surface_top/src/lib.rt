//! The program `surface` as a library: from words and a source to what is written.
//!
//! [`surface_main`] does what the words say. What it writes is defined in `specs/Answer.antt`: of a manifest its
//! sizes, its canonical text, its run text (`run_writer`) or what its runs with many seeds come to, of a circuit the values
//! of its outputs or the manifest that it is compiled to, of a netlist its circuit text, of a number the generated manifest
//! or how a run of it ends. A run goes by a crew, and what each of its rounds hands out goes to the one writer of run texts
//! before the next round begins. What a run of `stress` hands out is counted alone.
//!
//! The crate stands on the readers of words, manifests, circuits and netlists, on the two layouts of circuits and their
//! compiler, on the generator of manifests, on the crew and the writer of its runs, on the ensemble, and on the writers of
//! texts.
#![tactic(auto)]

mod answers;
mod call;
mod ending;
mod ensembles;
pub mod laws;
mod message;
mod netlists;
mod report;
mod run;
mod stress;
mod watch;
mod watch_call;

pub use call::surface_main;
pub use surface_words::{Program, Words};
pub use watch_call::watch_main;
