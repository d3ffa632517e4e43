//! A run of a manifest before viewers, whose lines follow it.

ghost use Rattle.std.specs.Prelude.{◌≡◌, Some, None, IfOk};
ghost use Rattle.manifest_read.specs.Sound.{IsSound};
ghost use Rattle.watch_run.specs.Seats.{AreSeats};
ghost use Rattle.surface_top.specs.Answer.{run_answer, scene_of};
ghost use Rattle.surface_top.specs.Ending.{Answered, HasBounds, run_ending};
ghost use Rattle.surface_top.specs.Kept.{RunLeaves};
ghost use Rattle.surface_top.specs.Watched.{Shows};

use crate::ending::Ending;
use crate::run::{RunOptions, ending_of, left_by, span_of, started};
use crew::Crew;
use manifest_read::Manifest;
use run_writer::{Stop, Task};
use std::alloc::Global;
use std::sync::Wait;
use std::thread::Threads;
use surf_kinds::NoMemory;
use surf_outside::{Gate, Sink};
use watch_run::{Seats, run_watched};

/// How the call ends after a run before viewers, whose lines are put aside.
fn ending_with(run: Result<Vec<u8>, Stop>, limit: u64, lines: &mut Vec<u8>) -> Ending
    ensures ending { result ≡ run_ending limit run }
    ensures lines { IfOk run (λ text. lines.new ≡ text) }
{
    match run {
        Ok(text) => {
            *lines = text;
            Ending::Done
        }
        Err(stop) => ending_of(Err(stop), limit),
    }
}

/// Runs a manifest before viewers as [`crate::run::run_manifest`] runs it without, and puts their lines aside.
pub(crate) fn watch_manifest<R: Threads + Wait + Sync, O: Sink + Send, G: Gate>(
    rt: &R,
    gate: &G,
    alloc: Global,
    manifest: &Manifest,
    options: RunOptions,
    seats: Seats,
    kept: &mut Option<Crew>,
    lines: &mut Vec<u8>,
    out: &mut O,
) -> Ending
    requires sound { IsSound manifest.now }
    requires bounds { HasBounds options }
    requires seats { AreSeats seats }
    requires none { kept.old ≡ None }
    ensures kept { RunLeaves result (record { manifest = manifest.now; options = options }) kept.new }
    ensures shown { Shows result seats (Some (record { manifest = manifest.now; options = options })) lines.new.items }
    ensures answered { Answered (run_answer (scene_of options.seed options.until options.samples options.limit manifest.now) manifest.now) result (O.written out.old) (O.written out.new) (O.faults out.old) (O.faults out.new) }
{
    let (plan, surface, mut crew) = match started(alloc, manifest, options) {
        Ok(parts) => parts,
        Err(NoMemory) => return Ending::Memory,
    };
    let task = Task {
        names: &manifest.names,
        plan: &plan,
        span: span_of(manifest, options),
    };
    let run = run_watched(rt, gate, alloc, &task, seats, &mut crew, surface, out);
    let ending = ending_with(run, options.limit, lines);
    *kept = left_by(ending, crew);
    ending
}
