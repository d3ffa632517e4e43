//! Workers that take seeds as they come free.

ghost use Rattle.std.specs.Prelude.{◌≡◌, ◌/◌, ◌^◌, ◌<◌, ◌≤◌, All, IfOk, max, min};
ghost use Rattle.manifest_read.specs.Sound.{IsSound};
ghost use Rattle.ensemble.specs.Running.{IsNumbered};

use crate::one_seed::run_seed;
use crate::outcome::EnsembleSettings;
use crate::table::{Numbered, Share};
use manifest_read::Manifest;
use std::alloc::Global;
use std::sync::atomic::{AtomicU64, Ordering};

/// The sites that the engines which stand at once have in all, where there is more than one.
const MOST_SITES: u32 = 4_194_304;

/// How many engines may stand at once on a lattice of so many sites: as many as there are workers, but no more than
/// have 4,194,304 sites in all, and always one.
pub fn engines_at_once(workers: u32, sites: u32) -> u32
    requires { 0 < sites }
    ensures { result ≡ max 1 (min workers (4194304 / sites)) }
{
    workers.min(MOST_SITES / sites).max(1)
}

/// Takes one seed after the other that no worker has taken, to the last, and finds their outcomes. `next` is the number
/// of the next seed, for all workers.
fn take_seeds(alloc: Global, m: &Manifest, settings: EnsembleSettings, next: &AtomicU64) -> Share
    requires sound { IsSound m.now }
    requires until { settings.until ≤ 10 ^ 15 }
    ensures { IfOk result (λ found. All (IsNumbered m.now settings) found.items) }
{
    let mut found = Vec::new(alloc);
    for _ in 0..settings.seeds {
        let number = next.fetch_add(1, Ordering::SeqCst);
        if number >= u64::from(settings.seeds) {
            break;
        }
        let number = number as u32;
        let outcome = run_seed(alloc, m, settings, number)?;
        found.push(Numbered { number, outcome })?;
    }
    Ok(found)
}

/// What a worker does: it takes seeds. Where memory runs out, no worker takes another one.
pub(crate) fn work(
    alloc: Global,
    m: &Manifest,
    settings: EnsembleSettings,
    next: &AtomicU64,
) -> Share
    requires sound { IsSound m.now }
    requires until { settings.until ≤ 10 ^ 15 }
    ensures { IfOk result (λ found. All (IsNumbered m.now settings) found.items) }
{
    let share = take_seeds(alloc, m, settings, next);
    if share.is_err() {
        next.store(u64::from(settings.seeds), Ordering::SeqCst);
    }
    share
}
