//! The call that runs an ensemble.

ghost use Rattle.std.specs.Prelude.{◌≡◌, ◌≤◌, All, IfOk, length};
ghost use Rattle.manifest_read.specs.Sound.{IsSound};
ghost use Rattle.ensemble.specs.Outcomes.{outcomes, AreAllowed, IsWithin};

use crate::outcome::{EnsembleSettings, Outcome};
use crate::table::gather;
use crate::workers::{engines_at_once, work};
use manifest_read::Manifest;
use std::alloc::Global;
use std::sync::atomic::AtomicU64;
use std::thread;
use std::thread::Threads;
use surf_kinds::NoMemory;

/// Runs a manifest once with each seed, and gives the outcomes in the order of the seeds, or says that memory ran out.
/// The number of workers has no effect on them.
///
/// As many engines stand at once as `engines_at_once` says, or fewer, one in each thread. A thread takes the next seed
/// as soon as it has the outcome of its last one.
pub fn ensemble<R: Threads + Sync>(
    rt: &R,
    alloc: Global,
    m: &Manifest,
    settings: EnsembleSettings,
) -> Result<Vec<Outcome>, NoMemory>
    requires sound { IsSound m.now }
    requires allowed { AreAllowed settings }
    ensures outcomes { IfOk result (λ v. v.items ≡ outcomes m.now settings) }

    // What `write_ensemble` asks of them.
    ensures within { IfOk result (λ v. All (IsWithin (length m.now.names)) v.items) }
    ensures few { IfOk result (λ v. length v.items ≤ 1000) }
{
    let engines = engines_at_once(settings.workers, m.lattice.site_count());
    // Where there are fewer seeds, the other threads would find none.
    let threads = engines.min(settings.seeds) as usize;
    let next = AtomicU64::new(0);
    let shares = thread::map_indices(rt, alloc, threads, &|_| work(alloc, m, settings, &next))?;
    gather(alloc, m, settings, shares)
}
