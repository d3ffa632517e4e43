//! Outcomes that several workers have found, put in the order of their seeds.

ghost use Rattle.std.specs.Prelude.{◌≡◌, ◌^◌, ◌≤◌, All, IfOk};
ghost use Rattle.manifest_read.specs.Sound.{IsSound};
ghost use Rattle.ensemble.specs.Outcomes.{outcomes as all_outcomes};
ghost use Rattle.ensemble.specs.Running.{IsNumbered, IsTable};

use crate::one_seed::run_seed;
use crate::outcome::{EnsembleSettings, Outcome};
use manifest_read::Manifest;
use std::alloc::Global;
use surf_kinds::NoMemory;

/// An outcome, with the number of its seed.
#[derive(Drop)]
pub(crate) struct Numbered {
    pub(crate) number: u32,
    pub(crate) outcome: Outcome,
}

/// What a worker has found.
pub(crate) type Share = Result<Vec<Numbered>, NoMemory>;

/// A place for each seed.
fn places(
    alloc: Global,
    m: &Manifest,
    settings: EnsembleSettings,
) -> Result<Vec<Option<Outcome>>, NoMemory>
    ensures { IfOk result (λ t. IsTable m.now settings t.items) }
{
    let mut table = Vec::with_capacity(alloc, settings.seeds as usize)?;
    for _ in 0..settings.seeds {
        table.push(None)?;
    }
    Ok(table)
}

/// Puts the outcomes of a worker into their places.
fn place(
    m: &Manifest,
    settings: EnsembleSettings,
    table: &mut Vec<Option<Outcome>>,
    mut found: Vec<Numbered>,
)
    requires table { IsTable m.now settings table.old.items }
    requires found { All (IsNumbered m.now settings) found.items }
    ensures { IsTable m.now settings table.new.items }
{
    while let Some(Numbered { number, outcome }) = found.pop() {
        table[number as usize] = Some(outcome);
    }
}

/// The outcomes of all seeds, in their order. Where the table has none it is found here.
// The workers have taken every seed, so nothing is left to be found; but no clause tells what they have taken.
fn complete(
    alloc: Global,
    m: &Manifest,
    settings: EnsembleSettings,
    mut table: Vec<Option<Outcome>>,
) -> Result<Vec<Outcome>, NoMemory>
    requires sound { IsSound m.now }
    requires until { settings.until ≤ 10 ^ 15 }
    requires table { IsTable m.now settings table.items }
    ensures { IfOk result (λ v. v.items ≡ all_outcomes m.now settings) }
{
    let mut outcomes = Vec::with_capacity(alloc, settings.seeds as usize)?;
    for number in 0..settings.seeds {
        let outcome = match table[number as usize].take() {
            Some(outcome) => outcome,
            None => run_seed(alloc, m, settings, number)?,
        };
        outcomes.push(outcome)?;
    }
    Ok(outcomes)
}

/// The outcomes of all seeds, in their order, from what workers have found.
pub(crate) fn gather(
    alloc: Global,
    m: &Manifest,
    settings: EnsembleSettings,
    mut shares: Vec<Share>,
) -> Result<Vec<Outcome>, NoMemory>
    requires sound { IsSound m.now }
    requires until { settings.until ≤ 10 ^ 15 }
    requires shares { All (λ s. IfOk s (λ found. All (IsNumbered m.now settings) found.items)) shares.items }
    ensures { IfOk result (λ v. v.items ≡ all_outcomes m.now settings) }
{
    let mut table = places(alloc, m, settings)?;
    while let Some(share) = shares.pop() {
        place(m, settings, &mut table, share?);
    }
    complete(alloc, m, settings, table)
}
