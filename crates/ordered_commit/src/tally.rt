//! The numbers of events, up to a limit.

ghost use Rattle.std.specs.Prelude.{◌≡◌, ◌+◌, ◌≤◌, ◌↔◌, IfOk, IfErr, IsErr, OnOk, OnErr};

use std::marker::Model;

/// As many events as the limit allows were admitted.
#[derive(Clone, Copy, Debug, PartialEq, Eq)]
pub struct EventLimit {
    /// How many events the tally admits.
    pub limit: u64,
}

/// A count of the events admitted so far, and how many it admits at most.
#[derive(Debug, Drop)]
pub struct Tally {
    limit: u64,
    admitted: u64,
}

impl Model for Tally {
    ghost use Rattle.std.specs.Prelude.{◌≤◌};
    ghost use Rattle.ordered_commit.specs.Count.{Count};

    ghost Value = { Count };

    ghost view = { λ t. record { limit = t.limit; admitted = t.admitted } };

    ghost invariant = { λ t. t.admitted ≤ t.limit };
}

impl Tally {
    /// A tally that has admitted no event yet, and admits so many.
    pub fn new(limit: u64) -> Tally
        ensures { result ≡ record { limit = limit; admitted = 0 } }
    {
        Tally { limit, admitted: 0 }
    }

    /// Counts one event and gives its number, from 1. Where the limit is reached, it counts nothing.
    pub fn admit(&mut self) -> Result<u64, EventLimit>
        ensures number { IfOk result (λ number. number ≡ self.old.admitted + 1) }
        ensures counted { OnOk result (self.new ≡ record self.old { admitted = self.old.admitted + 1 }) }

        // It refuses exactly where the event's number would be one more than the limit.
        ensures refused { IsErr result ↔ (self.old.admitted + 1 ≡ self.old.limit + 1) }
        ensures error { IfErr result (λ error. error.limit ≡ self.old.limit) }
        ensures unchanged { OnErr result (self.new ≡ self.old) }
        ensures within { self.new.admitted ≤ self.new.limit }
    {
        if self.admitted == self.limit {
            return Err(EventLimit { limit: self.limit });
        }
        self.admitted += 1;
        Ok(self.admitted)
    }
}
