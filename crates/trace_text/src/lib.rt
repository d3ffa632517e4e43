//! The lines of a run: its events, its surfaces, its end and its limit.
//!
//! Each call writes one of these texts, which stand as definitions in `specs/Lines.antt`. It promises that the sink
//! gains the text or, where the sink fails, a prefix of it; and `laws` says that the counts of a surface sum to the
//! number of its sites. Nothing here takes memory: a line is made on the stack and goes out by one call, and a surface
//! goes out name by name. The crate stands on `lattice`, `surface_state` and `surface_rows`, and on `itoa`, which
//! writes digits.
#![tactic(auto)]

pub mod laws;
mod line;
mod lines;

pub use lines::{
    write_counts, write_end, write_event, write_heading, write_limit, write_surface,
    write_surface_row,
};

#[cfg(test)]
mod tests;
