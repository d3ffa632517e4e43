//! The canonical text of a manifest.
//!
//! [`write_manifest`] promises that the sink gains the one spelling of the manifest or, where the sink fails, a prefix
//! of it. The laws ([`read_again`], [`one_spelling`]) say that this text is read as the same manifest again, and that
//! no two manifests have the same text. Nothing here takes memory. The crate stands on `manifest_read`, whose
//! definitions say what a manifest is and how it is spelled, and on `surface_rows` for the rows of the surface.
#![tactic(auto)]

mod laws;
mod pieces;
mod writing;

pub use laws::{made_is_read, one_spelling, read_again};
pub use writing::write_manifest;
