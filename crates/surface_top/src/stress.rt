//! What `stress` writes: how the run of a generated manifest ends. A run goes by a crew; what its rounds hand out is
//! counted, and none of it is written or stays in memory.

ghost use Rattle.std.specs.Prelude.{◌≡◌, ◌≤◌, ◌<◌, ◌+◌, None};
ghost use Rattle.manifest_read.specs.Sound.{IsSound};
ghost use Rattle.workload.specs.Generated.{generated_manifest};
ghost use Rattle.surface_top.specs.Answer.{stress_answer};
ghost use Rattle.surface_top.specs.Ending.{Answered};
ghost use Rattle.surface_top.specs.Kept.{RunLeaves, stress_options};

use crate::ending::Ending;
use crate::run::{RunOptions, ending_of, left_by, span_of, started};
use crew::Crew;
use manifest_read::Manifest;
use manifest_read::laws::manifests_are_sound;
use run_writer::{Task, write_stress};
use std::alloc::Global;
use std::thread::Threads;
use surf_kinds::NoMemory;
use surf_outside::{Gate, Sink};

/// The most events of a run.
const MOST_EVENTS: u64 = 10_000_000;

/// The options of the run of `stress`: of a manifest's own seed and duration, without a surface.
fn stress_options(workers: u64) -> RunOptions
    ensures { result ≡ stress_options workers }
{
    RunOptions {
        workers,
        quota: 256,
        slots: 256,
        seed: None,
        until: None,
        samples: 0,
        limit: MOST_EVENTS,
    }
}

/// Runs a manifest to its end, and writes what `stress` says of it. The crew of a run that went to its end or met the limit
/// is left in `kept`.
fn stress_manifest<R: Threads + Sync, O: Sink, G: Gate>(
    rt: &R,
    gate: &G,
    alloc: Global,
    workers: u64,
    number: u64,
    manifest: &Manifest,
    kept: &mut Option<Crew>,
    out: &mut O,
) -> Ending
    requires sound { IsSound manifest.now }
    requires workers { (1 ≤ workers) × (workers ≤ 64) }
    requires none { kept.old ≡ None }
    ensures kept { RunLeaves result (record { manifest = manifest.now; options = stress_options workers }) kept.new }
    ensures answered { Answered (stress_answer number manifest.now) result (O.written out.old) (O.written out.new) (O.faults out.old) (O.faults out.new) }
{
    let options = stress_options(workers);
    let (plan, surface, mut crew) = match started(alloc, manifest, options) {
        Ok(parts) => parts,
        Err(NoMemory) => return Ending::Memory,
    };
    let task = Task {
        names: &manifest.names,
        plan: &plan,
        span: span_of(manifest, options),
    };
    let run = write_stress(rt, gate, alloc, number, &task, &mut crew, surface, out);
    let ending = ending_of(run, MOST_EVENTS);
    *kept = left_by(ending, crew);
    ending
}

/// Runs the manifest of a number to its end, and writes how it ended. The crew of a run that went to its end or met the
/// limit is left in `kept`.
pub(crate) fn stress<R: Threads + Sync, O: Sink, G: Gate>(
    rt: &R,
    gate: &G,
    alloc: Global,
    workers: u64,
    number: u64,
    kept: &mut Option<Crew>,
    out: &mut O,
) -> Ending
    requires number { number ≤ 1000000000 }
    requires workers { (1 ≤ workers) × (workers ≤ 64) }
    requires none { kept.old ≡ None }
    ensures kept { RunLeaves result (record { manifest = generated_manifest number; options = stress_options workers }) kept.new }
    ensures answered { Answered (stress_answer number (generated_manifest number)) result (O.written out.old) (O.written out.new) (O.faults out.old) (O.faults out.new) }
{
    manifests_are_sound();
    match workload::make(alloc, number) {
        Ok(manifest) => stress_manifest(rt, gate, alloc, workers, number, &manifest, kept, out),
        Err(NoMemory) => Ending::Memory,
    }
}
