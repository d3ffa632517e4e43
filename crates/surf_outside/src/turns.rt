//! A gate between the workers of a run.

/// Stands at the start and the end of each worker's turn. A test holds a worker there until another's turn has
/// begun. It is shared between threads, its calls return, and nothing else is asked of them.
pub trait Gate: Sync {
    /// A turn begins. Regions are numbered from 0, and `round` is the number of rounds that went well before it.
    fn enter(&self, region: u32, round: u64);

    /// The turn ends.
    fn leave(&self, region: u32, round: u64);
}

/// A gate that holds nobody.
#[derive(Clone, Copy, Debug, PartialEq, Eq)]
pub struct OpenGate;

impl Gate for OpenGate {
    fn enter(&self, _region: u32, _round: u64) {}

    fn leave(&self, _region: u32, _round: u64) {}
}
