//! How a crew works, and what it did.

/// The last tick of a run, how many entries a turn adds at most, and how many messages a ring holds.
#[derive(Clone, Copy, Debug, PartialEq, Eq)]
pub struct CrewSettings {
    pub until: u64,
    pub quota: u32,
    pub slots: u32,
}

/// What a crew did so far. Each number stops at 2^64 - 1.
#[derive(Clone, Copy, Debug, PartialEq, Eq)]
pub struct Report {
    pub regions: u32,
    /// The rounds that answered Ok.
    pub rounds: u64,
    /// The entries that were added, less the received ones that were forgotten.
    pub fired: u64,
    /// The events that were handed out.
    pub committed: u64,
    /// The entries that were cut.
    pub cancelled: u64,
}
