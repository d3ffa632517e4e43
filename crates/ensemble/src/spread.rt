//! What outcomes come to together.

ghost use Rattle.std.specs.Prelude.{◌≡◌, ◌^◌, ◌+◌, ◌<◌, ◌≤◌, All, length, map, sum, count_by, fold, max, min};
ghost use Rattle.ensemble.specs.Outcomes.{IsWithin};
ghost use Rattle.ensemble.specs.Texts.{count_in as count_of, counts_in, least, greatest};

use crate::outcome::Outcome;
use surf_kinds::SpeciesId;

/// The least, the greatest and the sum of the counts of a species.
#[derive(Clone, Copy)]
pub(crate) struct Spread {
    pub(crate) least: u64,
    pub(crate) greatest: u64,
    pub(crate) sum: u64,
}

impl Spread {
    /// Of one count.
    fn of(count: u64) -> Spread
        ensures { result ≡ record { least = count; greatest = count; sum = count } }
    {
        Spread {
            least: count,
            greatest: count,
            sum: count,
        }
    }

    /// Takes a count more.
    fn add(&mut self, count: u64)
        requires { self.old.sum + count < 2 ^ 64 }
        ensures { self.new ≡ record { least = min self.old.least count; greatest = max self.old.greatest count; sum = self.old.sum + count } }
    {
        self.least = self.least.min(count);
        self.greatest = self.greatest.max(count);
        self.sum += count;
    }
}

/// How many sites have the species.
pub(crate) fn count_in(outcome: &Outcome, species: SpeciesId) -> u64
    ensures { result ≡ count_of species.0 outcome.now }
{
    match outcome.counts.as_slice().get(usize::from(species.0)) {
        Some(count) => *count,
        None => 0,
    }
}

/// The same of a count, and then of those of outcomes.
// A thousand counts, each no more than the sites of the largest surface, have a sum of 30 bits.
fn spread_from(first: u64, others: &[Outcome], species: SpeciesId) -> Spread
    requires few { length others.now < 1000 }
    requires first { first ≤ 1048576 }
    requires small { All (λ o. count_of species.0 o ≤ 1048576) others.now }
    ensures least { result.least ≡ fold min first (counts_in species.0 others.now) }
    ensures greatest { result.greatest ≡ fold max first (counts_in species.0 others.now) }
    ensures sum { result.sum ≡ fold (λ a n. a + n) first (counts_in species.0 others.now) }
{
    let mut spread = Spread::of(first);
    for outcome in others {
        spread.add(count_in(outcome, species));
    }
    spread
}

/// The least, the greatest and the sum of the counts of a species; each is 0 where there are no outcomes.
pub(crate) fn spread_of(outcomes: &[Outcome], species: SpeciesId) -> Spread
    requires few { length outcomes.now ≤ 1000 }
    requires small { All (λ o. count_of species.0 o ≤ 1048576) outcomes.now }
    ensures least { result.least ≡ least (counts_in species.0 outcomes.now) }
    ensures greatest { result.greatest ≡ greatest (counts_in species.0 outcomes.now) }
    ensures sum { result.sum ≡ sum (counts_in species.0 outcomes.now) }
{
    match outcomes.split_first() {
        Some((first, others)) => spread_from(count_in(first, species), others, species),
        None => Spread::of(0),
    }
}

/// The number of all their events.
pub(crate) fn event_sum(outcomes: &[Outcome]) -> u64
    requires { sum (map (λ o. o.events) outcomes.now) < 2 ^ 64 }
    ensures { result ≡ sum (map (λ o. o.events) outcomes.now) }
{
    outcomes.iter().map(|o| o.events).sum()
}

/// How many of them have ended.
pub(crate) fn ended_count(outcomes: &[Outcome]) -> usize
    ensures { result ≡ count_by (λ o. o.ended) outcomes.now }
{
    outcomes.iter().filter(|o| o.ended).count()
}
