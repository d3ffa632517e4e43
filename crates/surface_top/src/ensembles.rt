//! What `ensemble` writes: what the runs of a manifest with many seeds come to, line by line.

ghost use Rattle.std.specs.Prelude.{◌≡◌, ◌≤◌, [], All, length, OnOk};
ghost use Rattle.std.specs.List.{flat_map};
ghost use Rattle.manifest_read.specs.Sound.{IsSound};
ghost use Rattle.ensemble.specs.Outcomes.{IsWithin};
ghost use Rattle.ensemble.specs.Texts.{outcome_text, totals_text, ensemble_text};
ghost use Rattle.surface_words.specs.Reading.{IsEnsembleInRange};
ghost use Rattle.surface_top.specs.Answer.{Text, settings_of, ensemble_answer};
ghost use Rattle.surface_top.specs.Ending.{Answered, write_ending};
ghost use Rattle.run_writer.specs.Pages.{page, Puts};

use crate::ending::Ending;
use ensemble::{EnsembleSettings, Outcome, ensemble, write_outcome, write_totals};
use manifest_read::Manifest;
use run_writer::{Buffer, Stop, flush, flush_much};
use species::Names;
use std::alloc::Global;
use std::thread::Threads;
use surf_kinds::NoMemory;
use surf_outside::{Failed, Sink};

/// The options of an ensemble.
#[derive(Clone, Copy)]
pub(crate) struct EnsembleOptions {
    pub(crate) workers: u64,
    pub(crate) seeds: u64,
    pub(crate) first: u64,
    /// In ticks, in place of the manifest's duration.
    pub(crate) until: Option<u64>,
    pub(crate) limit: u64,
}

/// Writes the line of a seed.
fn put_outcome<O: Sink>(
    out: &mut O,
    buffer: &mut Buffer,
    names: &Names,
    outcome: &Outcome,
) -> Result<(), Stop>
    ensures { Puts (page (O.written out.old) (O.faults out.old) buffer.old) (page (O.written out.new) (O.faults out.new) buffer.new) (outcome_text names.now outcome.now) result }
{
    match write_outcome(buffer, names, outcome) {
        Ok(()) => flush_much(out, buffer),
        Err(Failed) => Err(Stop::Memory),
    }
}

/// Writes the lines of all seeds. No more than one of them is held, and what had not gone out before.
fn put_outcomes<O: Sink>(
    out: &mut O,
    buffer: &mut Buffer,
    names: &Names,
    outcomes: &[Outcome],
) -> Result<(), Stop>
    ensures { Puts (page (O.written out.old) (O.faults out.old) buffer.old) (page (O.written out.new) (O.faults out.new) buffer.new) (flat_map (outcome_text names.now) outcomes.now) result }
{
    for outcome in outcomes {
        match put_outcome(out, buffer, names, outcome) {
            Ok(()) => {}
            Err(stop) => return Err(stop),
        }
    }
    Ok(())
}

/// Writes the lines of all seeds together and of each species, and sends all that waits.
fn put_totals<O: Sink>(
    out: &mut O,
    buffer: &mut Buffer,
    names: &Names,
    outcomes: &[Outcome],
) -> Result<(), Stop>
    requires few { length outcomes.now ≤ 1000 }
    requires within { All (IsWithin (length names.now)) outcomes.now }
    ensures puts { Puts (page (O.written out.old) (O.faults out.old) buffer.old) (page (O.written out.new) (O.faults out.new) buffer.new) (totals_text names.now outcomes.now) result }
    ensures none { OnOk result (buffer.new.bytes ≡ []) }
{
    match write_totals(buffer, names, outcomes) {
        Ok(()) => flush(out, buffer),
        Err(Failed) => Err(Stop::Memory),
    }
}

/// Writes the text of an ensemble, and sends all of it.
fn put_ensemble<O: Sink>(
    out: &mut O,
    buffer: &mut Buffer,
    names: &Names,
    outcomes: &[Outcome],
) -> Result<(), Stop>
    requires few { length outcomes.now ≤ 1000 }
    requires within { All (IsWithin (length names.now)) outcomes.now }
    ensures puts { Puts (page (O.written out.old) (O.faults out.old) buffer.old) (page (O.written out.new) (O.faults out.new) buffer.new) (ensemble_text names.now outcomes.now) result }
    ensures none { OnOk result (buffer.new.bytes ≡ []) }
{
    match put_outcomes(out, buffer, names, outcomes) {
        Ok(()) => put_totals(out, buffer, names, outcomes),
        Err(stop) => Err(stop),
    }
}

/// How the call ends after an ensemble was written, which has no limit.
fn ending_of(written: Result<(), Stop>) -> Ending
    ensures { result ≡ write_ending written }
{
    match written {
        Ok(()) => Ending::Done,
        Err(Stop::Write) => Ending::WriteFault,
        Err(_) => Ending::Memory,
    }
}

/// Writes the text of outcomes.
fn write_outcomes<O: Sink>(
    alloc: Global,
    names: &Names,
    outcomes: &[Outcome],
    out: &mut O,
) -> Ending
    requires few { length outcomes.now ≤ 1000 }
    requires within { All (IsWithin (length names.now)) outcomes.now }
    ensures { Answered (Text (ensemble_text names.now outcomes.now)) result (O.written out.old) (O.written out.new) (O.faults out.old) (O.faults out.new) }
{
    let mut buffer = Buffer::new(alloc);
    let written = put_ensemble(out, &mut buffer, names, outcomes);
    ending_of(written)
}

/// What is asked of the seeds of a manifest.
fn settings_of(options: EnsembleOptions, manifest: &Manifest) -> EnsembleSettings
    requires { IsEnsembleInRange options.workers options.seeds options.until options.limit }
    ensures { result ≡ settings_of options.workers options.seeds options.first options.until options.limit manifest.now }
{
    EnsembleSettings {
        first: options.first,
        seeds: options.seeds as u32,
        until: options.until.unwrap_or(manifest.until),
        limit: options.limit,
        workers: options.workers as u32,
    }
}

/// Runs a manifest once with each seed, and writes what the runs come to.
pub(crate) fn ensemble_manifest<R: Threads + Sync, O: Sink>(
    rt: &R,
    alloc: Global,
    manifest: &Manifest,
    options: EnsembleOptions,
    out: &mut O,
) -> Ending
    requires sound { IsSound manifest.now }
    requires within { IsEnsembleInRange options.workers options.seeds options.until options.limit }
    ensures { Answered (ensemble_answer (settings_of options.workers options.seeds options.first options.until options.limit manifest.now) manifest.now) result (O.written out.old) (O.written out.new) (O.faults out.old) (O.faults out.new) }
{
    let settings = settings_of(options, manifest);
    match ensemble(rt, alloc, manifest, settings) {
        Ok(outcomes) => write_outcomes(alloc, &manifest.names, &outcomes, out),
        Err(NoMemory) => Ending::Memory,
    }
}
