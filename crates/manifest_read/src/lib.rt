//! The reader of manifests: the texts that say what is to be simulated.
//!
//! A manifest has settings, the rules, the surface that a run begins with, and lines on colours. [`read_manifest`]
//! gives the manifest of a text, or exactly its first fault, by the definition `manifest_of` in
//! `specs/Manifest.antt`. It reads the text once, line by line, and keeps nothing but what the manifest holds. `laws`
//! says that reading line by line gives what the definitions of a whole text give, and that every manifest is sound.
//!
//! The crate stands on `surf_text` for lines and numbers, on `species` for the names, on `rates` for rates and
//! durations, on `lattice` and on `surf_kinds`.
#![tactic(auto)]

mod collected;
mod content;
mod fault;
mod items;
pub mod laws;
mod manifest;
mod names;
mod numbering;
mod reading;
mod rules;
mod section;
mod settings;
mod sort;
mod state;
mod text;

pub use fault::{ManifestError, ManifestFault, ManifestKind};
pub use items::Items;
pub use manifest::{CellList, LineList, Manifest, RuleList, Settings};
pub use reading::read_manifest;
pub use section::{Opened, Section};
pub use settings::{bool_name, kind_name};
pub use text::{Setting, Text};
