//! The run of a manifest with one seed.

ghost use Rattle.std.specs.Prelude.{◌≡◌, ◌^◌, ◌≤◌, IfOk};
ghost use Rattle.manifest_read.specs.Sound.{IsSound};
ghost use Rattle.trace_text.specs.Lines.{counts_of as counts_at};
ghost use Rattle.ensemble.specs.Outcomes.{start_of, nth_seed, nth_outcome};
ghost use Rattle.ensemble.specs.Running.{HasFired};

use crate::outcome::{EnsembleSettings, Outcome};
use manifest_read::Manifest;
use one_engine::Engine;
use plan::Plan;
use std::alloc::Global;
use surf_kinds::{Counts, NoMemory, SpeciesId};
use surface_state::Surface;

/// An engine with the rules of a manifest and a seed, on its first surface.
fn engine_of(alloc: Global, m: &Manifest, seed: u64) -> Result<Engine, NoMemory>
    requires { IsSound m.now }
    ensures { IfOk result (λ e. e ≡ start_of m.now seed) }
{
    let plan = Plan::new(alloc, m.rules.as_slice(), m.lattice, seed)?;
    let cells = m.cells.as_slice();
    let surface = Surface::new(alloc, m.lattice, cells, m.names.count())?;
    Engine::new(alloc, plan, surface)
}

/// Fires the next events, `limit` of them or all that are due. Gives their number, and the tick of the last.
fn fire_at_most(engine: &mut Engine, until: u64, limit: u64) -> (u64, u64)
    requires { until ≤ 10 ^ 15 }
    ensures { HasFired until limit engine.old engine.new result.0 result.1 }
{
    let mut last = 0;
    for events in 0..limit {
        match engine.fire(until) {
            Some(event) => last = event.time,
            None => return (events, last),
        }
    }
    (limit, last)
}

/// How many sites have each species.
fn counts_of(alloc: Global, surface: &Surface) -> Result<Counts, NoMemory>
    ensures { IfOk result (λ c. c ≡ counts_at surface.now.sites surface.now.species_count) }
{
    let mut counts = Counts::new(alloc);
    for species in 0..surface.species_count() {
        let count = surface.count(SpeciesId(species as u16));
        counts.push(u64::from(count))?;
    }
    Ok(counts)
}

/// The seed of this number.
fn seed_at(settings: EnsembleSettings, number: u32) -> u64
    ensures { result ≡ nth_seed settings number }
{
    settings.first.wrapping_add(u64::from(number))
}

/// The outcome of the seed of this number. The engine stands no longer than this call.
pub(crate) fn run_seed(
    alloc: Global,
    m: &Manifest,
    settings: EnsembleSettings,
    number: u32,
) -> Result<Outcome, NoMemory>
    requires sound { IsSound m.now }
    requires until { settings.until ≤ 10 ^ 15 }
    ensures { IfOk result (λ o. o ≡ nth_outcome m.now settings number) }
{
    let seed = seed_at(settings, number);
    let mut engine = engine_of(alloc, m, seed)?;
    let (events, last) = fire_at_most(&mut engine, settings.until, settings.limit);
    let counts = counts_of(alloc, engine.surface())?;
    // The counts are taken, so it does no harm that this may fire the event past the limit.
    let ended = engine.fire(settings.until).is_none();
    Ok(Outcome {
        seed,
        events,
        last,
        ended,
        counts,
    })
}
