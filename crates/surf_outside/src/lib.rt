//! Where the bytes of a run come from and go to, and a gate between its workers.
//!
//! A source gives bytes and a sink takes them. Each keeps a count of its faults, and a call answers a fault
//! only where that count rose in the call; so whoever sees a fault knows that the outside had one. `slurp`
//! reads a source to its end, and `put_all` and `put` write a whole text. There are objects over memory, which
//! fail at the calls that they were told, and adapters for the readers and writers of std, which are the trusted
//! edge of the programs. `laws` says how texts that are written one after the other add up.
//!
//! The crate promises which bytes each call takes and adds, when it fails, and what stands after a failure.
//! It stands on std, and on `surf_kinds` for the name of want of memory.
#![tactic(auto)]

pub mod laws;
mod mem_sink;
mod mem_source;
mod reading;
mod std_sink;
mod std_source;
mod turns;
mod writing;

pub use mem_sink::MemSink;
pub use mem_source::MemSource;
pub use reading::{SlurpError, Source, slurp};
pub use std_sink::StdSink;
pub use std_source::StdSource;
pub use turns::{Gate, OpenGate};
pub use writing::{Sink, put, put_all};

/// A call of the outside failed.
#[derive(Clone, Copy, Debug, PartialEq, Eq)]
pub struct Failed;

#[cfg(test)]
mod tests;
