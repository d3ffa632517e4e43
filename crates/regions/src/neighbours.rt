//! The neighbours of a region.

/// The regions that tell a region of events or are told of its events: the region before it and the one after it, where
/// these are other regions, each once.
#[derive(Clone, Copy, Debug, PartialEq, Eq)]
pub struct Neighbours {
    pub first: Option<u32>,
    pub second: Option<u32>,
}
