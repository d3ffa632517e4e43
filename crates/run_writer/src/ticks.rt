//! The ticks at which a run shows its surface.

ghost use Rattle.std.specs.Prelude.{◌≡◌, ◌^◌, ◌<◌, ◌≤◌, ◌+◌, All, MatchOption, [], ◌∷◌};
ghost use Rattle.run_writer.specs.RunText.{sampling_ticks, ticks_before};
ghost use Rattle.run_writer.specs.Ticks.{tick_at as tick_of};

use std::marker::Model;

/// The sampling ticks that are left, rising.
#[derive(Drop)]
pub(crate) struct Ticks {
    until: u64,
    samples: u64,
    /// The number of the next tick, from 1.
    number: u64,
    /// The next tick, where one is left.
    next: Option<u64>,
}

impl Model for Ticks {
    ghost use Rattle.std.specs.Prelude.{ℕ, List};
    ghost use Rattle.run_writer.specs.Ticks.{ticks_after, IsNext};

    ghost Value = { List ℕ };

    ghost view = { λ t. ticks_after t.until t.samples t.number };

    ghost invariant = { λ t. IsNext t.until t.samples t.number t.next };
}

/// The tick of a number, where there are so many.
fn tick_at(until: u64, samples: u64, number: u64) -> Option<u64>
    requires duration { until ≤ 10 ^ 15 }
    requires samples { samples ≤ 10000 }
    requires number { 1 ≤ number }
    ensures { result ≡ tick_of until samples number }
{
    if number <= samples {
        Some(number * until / samples)
    } else {
        None
    }
}

impl Ticks {
    /// The ticks of a duration in so many parts.
    pub(crate) fn new(until: u64, samples: u64) -> Ticks
        requires duration { until ≤ 10 ^ 15 }
        requires samples { samples ≤ 10000 }
        ensures ticks { result ≡ sampling_ticks until samples }
        ensures within { All (λ tick. tick ≤ until) result }
    {
        Ticks {
            until,
            samples,
            number: 1,
            next: tick_at(until, samples, 1),
        }
    }

    /// Takes the next tick, where it comes before a time.
    pub(crate) fn before(&mut self, time: u64) -> Option<u64>
        ensures { MatchOption result ((self.new ≡ self.old) × (ticks_before time self.old ≡ [])) (λ tick. (tick < time) × (self.old ≡ tick ∷ self.new)) }
    {
        match self.next {
            Some(tick) if tick < time => {
                self.number += 1;
                self.next = tick_at(self.until, self.samples, self.number);
                Some(tick)
            }
            _ => None,
        }
    }
}
