//! Changes of the counts, and states of them.

ghost use Rattle.std.specs.Prelude.{◌≡◌, IfOk, length, take};
ghost use Rattle.frames.specs.States.{opening, lowered, lowered_second};
ghost use Rattle.frames.specs.Capped.{applied, raised_capped, raised_capped_second};

use std::alloc::Global;
use surf_kinds::{Counts, NoMemory, SpeciesId};

/// What one event does to the counts.
#[derive(Clone, Copy, Debug, PartialEq, Eq)]
pub struct Change {
    /// The tick of the event.
    pub time: u64,
    /// The old species of the first site.
    pub out1: SpeciesId,
    /// The new species of the first site.
    pub in1: SpeciesId,
    /// The old and the new species of the second site, where there is one.
    pub second: Option<(SpeciesId, SpeciesId)>,
}

/// The state after a list of changes.
#[derive(Drop)]
pub struct Sample {
    /// The number of changes.
    pub events: u64,
    /// The tick of the last change, 0 for none.
    pub time: u64,
    /// How many sites have each species.
    pub counts: Counts,
}

/// The counts of a slice.
fn counts_of(alloc: Global, counts: &[u64]) -> Result<Counts, NoMemory>
    ensures { IfOk result (λ all. all ≡ counts.now) }
{
    let mut all = Counts::new(alloc);
    for count in counts {
        all.push(*count)?;
    }
    Ok(all)
}

/// Overwrites counts by others.
fn copy_counts(into: &mut Counts, from: &Counts)
    requires { length into.old ≡ length from.now }
    ensures { into.new ≡ from.now }
{
    let from = from.as_slice();
    for i in 0..from.len() {
        into.set(i, from[i]);
    }
}

/// Counts one site less of a species.
fn lower(counts: &mut Counts, species: SpeciesId)
    ensures { counts.new ≡ lowered counts.old species }
{
    let index = usize::from(species.0);
    if index < counts.as_slice().len() {
        let count = counts.as_slice()[index];
        counts.set(index, count.saturating_sub(1));
    }
}

/// Counts one more site of a species.
fn raise(counts: &mut Counts, species: SpeciesId)
    ensures { counts.new ≡ raised_capped counts.old species }
{
    let index = usize::from(species.0);
    if index < counts.as_slice().len() {
        let count = counts.as_slice()[index];
        counts.set(index, count.saturating_add(1));
    }
}

fn lower_second(counts: &mut Counts, second: Option<(SpeciesId, SpeciesId)>)
    ensures { counts.new ≡ lowered_second counts.old second }
{
    if let Some((old, _)) = second {
        lower(counts, old);
    }
}

fn raise_second(counts: &mut Counts, second: Option<(SpeciesId, SpeciesId)>)
    ensures { counts.new ≡ raised_capped_second counts.old second }
{
    if let Some((_, new)) = second {
        raise(counts, new);
    }
}

impl Sample {
    /// The state before all changes.
    pub(crate) fn opening(alloc: Global, start: &[u64]) -> Result<Sample, NoMemory>
        ensures { IfOk result (λ sample. sample ≡ opening start.now) }
    {
        Ok(Sample {
            events: 0,
            time: 0,
            counts: counts_of(alloc, start)?,
        })
    }

    pub(crate) fn copy(&self, alloc: Global) -> Result<Sample, NoMemory>
        ensures { IfOk result (λ sample. sample ≡ self.now) }
    {
        Ok(Sample {
            events: self.events,
            time: self.time,
            counts: counts_of(alloc, self.counts.as_slice())?,
        })
    }

    /// Overwrites the sample by another one with as many counts. Takes no memory.
    pub fn overwrite(&mut self, other: &Sample)
        requires { length self.old.counts ≡ length other.now.counts }
        ensures { self.new ≡ other.now }
    {
        self.events = other.events;
        self.time = other.time;
        copy_counts(&mut self.counts, &other.counts);
    }

    /// Brings the sample to the state after one more change.
    pub(crate) fn apply(&mut self, change: &Change)
        ensures { self.new ≡ applied self.old change.now }
    {
        self.events = self.events.saturating_add(1);
        self.time = change.time;
        lower(&mut self.counts, change.out1);
        lower_second(&mut self.counts, change.second);
        raise(&mut self.counts, change.in1);
        raise_second(&mut self.counts, change.second);
    }
}
