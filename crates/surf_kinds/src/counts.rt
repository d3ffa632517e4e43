//! How many sites hold each species.

ghost use Rattle.std.specs.Prelude.{◌≡◌, ◌<◌, ◌++◌, ◌∷◌, [], OnOk, OnErr, length, slice_set};

use crate::status::NoMemory;
use std::alloc::Global;
use std::marker::Model;

/// A list of counts, one for each species in its order.
#[derive(Drop)]
pub struct Counts {
    counts: Vec<u64>,
}

impl Model for Counts {
    ghost use Rattle.std.specs.Prelude.{ℕ, List};

    ghost Value = { List ℕ };

    ghost view = { λ c. c.counts.items };
}

impl Counts {
    /// No counts. Takes no memory.
    pub fn new(alloc: Global) -> Counts
        ensures { result ≡ [] }
    {
        Counts {
            counts: Vec::new(alloc),
        }
    }

    /// Puts a count last. After an error the list is as it was.
    pub fn push(&mut self, item: u64) -> Result<(), NoMemory>
        ensures ok { OnOk result (self.new ≡ self.old ++ item ∷ []) }
        ensures err { OnErr result (self.new ≡ self.old) }
    {
        self.counts.push(item)?;
        Ok(())
    }

    /// Puts another count in place of one. Takes no memory.
    pub fn set(&mut self, index: usize, count: u64)
        requires { index < length self.old }
        ensures { self.new ≡ slice_set self.old index count }
    {
        self.counts[index] = count;
    }

    pub fn as_slice(&self) -> &[u64]
        ensures { result.now ≡ self.now }
    {
        self.counts.as_slice()
    }
}
