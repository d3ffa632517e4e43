//! What is asked of an ensemble, and what it gives.

use surf_kinds::Counts;

/// Which seeds are run, how far, and on how many threads.
#[derive(Clone, Copy, Debug, PartialEq, Eq)]
pub struct EnsembleSettings {
    /// The first seed. The others follow it one by one, and 0 follows 2^64 - 1.
    pub first: u64,
    /// The number of seeds, from 1 to 1,000.
    pub seeds: u32,
    /// The duration in ticks, up to 10^15.
    pub until: u64,
    /// How many events a run has at most, up to 10,000,000.
    pub limit: u64,
    /// The number of threads, from 1 to 64.
    pub workers: u32,
}

/// What the run with a seed came to.
#[derive(Drop)]
pub struct Outcome {
    pub seed: u64,
    /// The number of its events.
    pub events: u64,
    /// The tick of the last event, and 0 where there is none.
    pub last: u64,
    /// Whether these are all the events up to the duration. If not, there are more than the limit.
    pub ended: bool,
    /// How many sites have each species after these events, in the order of the species.
    pub counts: Counts,
}
