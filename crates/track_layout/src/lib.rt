//! A compact layout of circuits: nets whose columns don't meet share a row.
//!
//! The span of a net runs from its first column to its last. The nets are taken by their first columns, and each gets
//! the least track on which every net so far ends before it begins. [`Tracks`] finds these tracks, column by column, with
//! the free ones in a heap, and is the table of roles on them. [`compact()`] makes the manifest of a circuit on this table.
//! [`laws`] has what is known of tracks: each circuit has them, and one list of them; the table on them is well-formed, and
//! no sharing of rows by the spans has fewer.
//!
//! Spans stand in `specs/Spans.antt`. `specs/Tracks.antt` says what tracks are, and `specs/Turns.antt` gives those of a
//! circuit as a list. How many spans meet is in `specs/Crowd.antt`, and what is known of a compact manifest in
//! `specs/Compact.antt`. The crate stands on `circuit_text`, `gate_layout` and `crn_compile`.
#![tactic(auto)]

mod cells;
mod free;
mod lasts;
pub mod laws;
mod manifest;
mod sweep;
mod tracks;

pub use manifest::compact;
pub use tracks::{TrackError, Tracks};
