//! The sections of a manifest.

/// What a section holds.
#[derive(Clone, Copy, Debug, PartialEq, Eq)]
pub enum Section {
    Rules,
    Surface,
    Colours,
}

/// A section that is open, and the line that opened it.
#[derive(Clone, Copy, Debug, PartialEq, Eq)]
pub struct Opened {
    pub section: Section,
    pub line: u64,
}
