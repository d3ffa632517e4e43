//! Circuits of gates: their text and the values of their nets.
//!
//! A circuit text has lines that name inputs and outputs, and lines that define gates. [`read_circuit`] gives the
//! circuit of a text, or exactly its first fault, and [`Circuit::values`] the value of every net. What a line is, the
//! verdict of a line and the circuit of a text stand in `specs/Lines.antt` and `specs/Circuits.antt`, the values in
//! `specs/Values.antt`.
//!
//! The text is read twice: first for the names that its lines define, since an operand or an output may be defined
//! below, and then line by line.
//!
//! The crate stands on `surf_text` for lines and words, on `species` for the table of names, and on `surf_kinds`.
#![tactic(auto)]

mod circuit;
mod defined;
mod fault;
mod gates;
mod kinds;
pub mod laws;
mod nets;
mod outputs;
mod reader;
mod reading;
mod sort;
mod words;

pub use circuit::Circuit;
pub use fault::{CircuitError, CircuitFault, CircuitKind};
pub use kinds::{GateOp, Net};
pub use reading::read_circuit;
