//! Tests of the public calls of the circuit crates: `circuit_text`, `bench_read`, `gate_layout`, `crn_compile` and
//! `track_layout`.
//!
//! They see what no clause says: that calls succeed where memory is there, and which circuits, faults, layouts and
//! manifests the definitions come to on given texts. Expected values are worked out by hand from the definitions.
#![tactic(auto)]

#[cfg(test)]
mod bench_tests;
#[cfg(test)]
mod circuits;
#[cfg(test)]
mod compile_tests;
#[cfg(test)]
mod layout_tests;
#[cfg(test)]
mod text_tests;
#[cfg(test)]
mod track_tests;
