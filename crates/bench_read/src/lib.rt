//! Netlists of benchmark circuits: their text, their values, and the circuit text with the same values.
//!
//! A netlist has lines `INPUT(a)`, `OUTPUT(y)` and `y = NAND(a, b)`, in any order. [`read_bench`] gives the netlist of
//! a text, or exactly its fault. [`write_circuit`] writes its circuit text, in which each net follows its operands and a
//! gate has at most two of them. `laws` says that nothing of the meaning is lost: the circuit text is accepted, and for
//! all inputs each output has the value that it has in the netlist.
//!
//! What a line is stands in `specs/Lines.antt`, the faults in `specs/Passes.antt`, the order in which nets are placed
//! in `specs/Order.antt`, the values in `specs/Netlists.antt`, and the circuit in `specs/Chains.antt`.
//!
//! The crate stands on `circuit_text` for the operations and the meaning of circuits, on `surf_text` for lines, on
//! `surf_outside` for sinks, and on the set in insertion order of the crate `indexmap` for names.
#![tactic(auto)]

mod bench;
mod chain;
mod fault;
mod first;
pub mod laws;
mod names;
mod operands;
mod order;
mod placing;
mod ready;
mod second;
mod sort;
mod users;
mod words;
mod writing;

pub use bench::{Bench, read_bench};
pub use fault::{BenchError, BenchFault, BenchKind};
pub use writing::write_circuit;
