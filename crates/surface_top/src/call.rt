//! The top call: from words and a source to what is written and a status.

ghost use Rattle.std.specs.Prelude.{◌≡◌, ◌≤◌, ◌⊎◌, true, false, None, Ok, map, length, string_bytes, IfOk, IfErr, IfSome, OnOk};
ghost use Rattle.std.specs.Io.KnownBytes.{IsAtEnd};
ghost use Rattle.surf_outside.specs.Causes.{Rose};
ghost use Rattle.manifest_read.specs.Manifest.{manifest_of, IsValid};
ghost use Rattle.manifest_read.specs.Sound.{IsSound};
ghost use Rattle.circuit_text.specs.Circuits.{circuit_in};
ghost use Rattle.surface_words.specs.declared.commands.Program.TheVariants.{Surface};
ghost use Rattle.surface_words.specs.Reading.{reading, reads, IsInRange};
ghost use Rattle.surface_top.specs.Answer.{answer_within, answer_to, specified_answer, reads_source, inputs_in, by_manifest, by_circuit};
ghost use Rattle.surface_top.specs.Ending.{manifest_answer, circuit_answer, status_of, IsWordsAnswer, IsNoManifest, IsNoCircuit, IsUnread, IsAccepted, IsWithin, Answered, EndsAs};
ghost use Rattle.surface_top.specs.Kept.{run_by, run_read, run_within, run_to, specified_run, Leaves};
ghost use Rattle.surface_top.specs.Reporting.{Told, line_in, wants_report, IsRightReport, Concluded, IsAnsweredCall};
ghost use Rattle.surface_top.specs.Outcome.{own_status, Gains, source_view, sink_view, outside};

use crate::answers::{LayoutKind, check, compile, generate, print, value};
use crate::ending::Ending;
use crate::ensembles::{EnsembleOptions, ensemble_manifest};
use crate::message::message_of;
use crate::netlists::answer_netlist;
use crate::report::put_report;
use crate::run::{RunOptions, run_manifest};
use crate::stress::stress;
use circuit_text::{Circuit, CircuitError, read_circuit};
use crew::Crew;
use manifest_read::{Manifest, ManifestError, read_manifest};
use std::alloc::Global;
use std::thread::Threads;
use surf_kinds::Status;
use surf_outside::{Gate, Sink, SlurpError, Source, put_all, slurp};
use surface_words::{Program, Words};

/// The most bytes that are read: 64 MiB.
const MOST_BYTES: usize = 67_108_864;

/// All bytes of the source, or the ending that stands for a source that isn't read whole.
pub(crate) fn source_text<S: Source>(alloc: Global, source: &mut S) -> Result<Vec<u8>, Ending>
    ensures ok { IfOk result (λ text. IfSome (S.unread source.old) (λ all. text.items ≡ all)) }
    ensures within { IfOk result (λ text. length text.items ≤ 67108864) }
    ensures end { OnOk result (IsAtEnd (S.unread source.new)) }
    ensures unread { IfErr result (λ e. IsUnread e (S.unread source.old)) }
    ensures read { IfErr result (λ e. e ≡ Ending.ReadFault → Rose (S.faults source.old) (S.faults source.new)) }
{
    match slurp(alloc, source, MOST_BYTES) {
        Ok(text) => Ok(text),
        Err(SlurpError::Read) => Err(Ending::ReadFault),
        Err(SlurpError::TooLong) => Err(Ending::TooLong),
        Err(SlurpError::Memory) => Err(Ending::Memory),
    }
}

pub(crate) fn manifest(alloc: Global, text: &[u8]) -> Result<Manifest, Ending>
    requires size { length text.now ≤ 67108864 }
    ensures ok { IfOk result (λ m. manifest_of text.now ≡ Ok m) }
    ensures sound { IfOk result IsSound }
    ensures err { IfErr result (λ e. IsNoManifest e (manifest_of text.now)) }
{
    match read_manifest(alloc, text) {
        Ok(manifest) => Ok(manifest),
        Err(ManifestError::Fault(fault)) => Err(Ending::BadManifest(fault)),
        Err(ManifestError::Memory) => Err(Ending::Memory),
    }
}

fn circuit(alloc: Global, text: &[u8]) -> Result<Circuit, Ending>
    requires size { length text.now ≤ 67108864 }
    ensures ok { IfOk result (λ c. circuit_in text.now ≡ Ok c) }
    ensures err { IfErr result (λ e. IsNoCircuit e (circuit_in text.now)) }
{
    match read_circuit(alloc, text) {
        Ok(circuit) => Ok(circuit),
        Err(CircuitError::Fault(fault)) => Err(Ending::BadCircuit(fault)),
        Err(CircuitError::Memory) => Err(Ending::Memory),
    }
}

/// The word with the inputs; no inputs where there is none.
fn inputs(words: &[String], index: Option<usize>) -> &str
    ensures { result.now ≡ inputs_in index (map string_bytes words.now) }
{
    match index {
        Some(index) => match words.get(index) {
            Some(word) => word.as_str(),
            None => "",
        },
        None => "",
    }
}

/// What is done with a manifest.
#[derive(Clone, Copy)]
pub(crate) enum ManifestJob {
    Check,
    Print,
    Run(RunOptions),
    Ensemble(EnsembleOptions),
}

/// An ensemble with these options.
fn ensemble_job(workers: u64, seeds: u64, first: u64, until: Option<u64>, limit: u64) -> ManifestJob
    ensures { result ≡ ManifestJob.Ensemble (record { workers = workers; seeds = seeds; first = first; until = until; limit = limit }) }
{
    ManifestJob::Ensemble(EnsembleOptions {
        workers,
        seeds,
        first,
        until,
        limit,
    })
}

/// Reads a manifest and writes what the job makes of it. A run leaves its crew in `kept`.
fn answer_manifest<R: Threads + Sync, O: Sink, G: Gate>(
    rt: &R,
    gate: &G,
    alloc: Global,
    text: &[u8],
    job: ManifestJob,
    kept: &mut Option<Crew>,
    out: &mut O,
) -> Ending
    requires size { length text.now ≤ 67108864 }
    requires within { IsWithin job }
    requires none { kept.old ≡ None }
    ensures kept { Leaves result (run_read (run_by job) (manifest_of text.now)) kept.new }
    ensures answered { Answered (by_manifest (manifest_answer job) (manifest_of text.now)) result (O.written out.old) (O.written out.new) (O.faults out.old) (O.faults out.new) }
{
    let manifest = match manifest(alloc, text) {
        Ok(manifest) => manifest,
        Err(ending) => return ending,
    };
    match job {
        ManifestJob::Check => check(alloc, &manifest, out),
        ManifestJob::Print => print(alloc, &manifest, out),
        ManifestJob::Run(options) => {
            run_manifest(rt, gate, alloc, &manifest, options, kept, out)
        }
        ManifestJob::Ensemble(options) => ensemble_manifest(rt, alloc, &manifest, options, out),
    }
}

/// What is done with a circuit.
#[derive(Clone, Copy)]
pub(crate) enum CircuitJob {
    Compile(LayoutKind),
    Value,
}

/// Reads a circuit and writes what the job makes of it, with a bit of the word for each of its inputs.
fn answer_circuit<O: Sink>(
    alloc: Global,
    text: &[u8],
    job: CircuitJob,
    inputs: &str,
    out: &mut O,
) -> Ending
    requires { length text.now ≤ 67108864 }
    ensures { Answered (by_circuit (circuit_answer job inputs.now) (circuit_in text.now)) result (O.written out.old) (O.written out.new) (O.faults out.old) (O.faults out.new) }
{
    let circuit = match circuit(alloc, text) {
        Ok(circuit) => circuit,
        Err(ending) => return ending,
    };
    match job {
        CircuitJob::Compile(layout) => compile(alloc, &circuit, inputs, layout, out),
        CircuitJob::Value => value(alloc, &circuit, inputs, out),
    }
}

/// Does what the words say with the text that was read, and writes what that gives. For a command that reads nothing the
/// text has no effect.
fn answer_text<R: Threads + Sync, O: Sink, G: Gate>(
    rt: &R,
    gate: &G,
    alloc: Global,
    words: &[String],
    command: Words,
    text: &[u8],
    kept: &mut Option<Crew>,
    out: &mut O,
) -> Ending
    requires size { length text.now ≤ 67108864 }
    requires within { IsInRange (length words.now) command }
    requires none { kept.old ≡ None }
    ensures kept { Leaves result (run_within command text.now) kept.new }
    ensures answered { Answered (answer_within command (map string_bytes words.now) text.now) result (O.written out.old) (O.written out.new) (O.faults out.old) (O.faults out.new) }
{
    match command {
        Words::Check => { answer_manifest(rt, gate, alloc, text, ManifestJob::Check, kept, out) },
        Words::Print => { answer_manifest(rt, gate, alloc, text, ManifestJob::Print, kept, out) },
        Words::Run {
            workers,
            seed,
            until,
            samples,
            limit,
            quota,
            slots,
            ..
        }
        | Words::Watch {
            workers,
            seed,
            until,
            samples,
            limit,
            quota,
            slots,
            ..
        } => {
            let options = RunOptions {
                workers,
                quota,
                slots,
                seed,
                until,
                samples,
                limit,
            };
            answer_manifest(rt, gate, alloc, text, ManifestJob::Run(options), kept, out)
        }
        Words::Ensemble {
            workers,
            seeds,
            first,
            until,
            limit,
        } => {
            let job = ensemble_job(workers, seeds, first, until, limit);
            answer_manifest(rt, gate, alloc, text, job, kept, out)
        }
        Words::Compile { inputs: index } => {
            let job = CircuitJob::Compile(LayoutKind::Closed);
            answer_circuit(alloc, text, job, inputs(words, index), out)
        }
        Words::Compact { inputs: index } => {
            let job = CircuitJob::Compile(LayoutKind::Compact);
            answer_circuit(alloc, text, job, inputs(words, index), out)
        }
        Words::Value { inputs: index } => {
            answer_circuit(alloc, text, CircuitJob::Value, inputs(words, index), out)
        }
        Words::Gen { number } => generate(alloc, number, out),
        Words::Stress { workers, number } => { stress(rt, gate, alloc, workers, number, kept, out) }
        Words::Bench => answer_netlist(alloc, text, out),
    }
}

/// Reads the source to its end and writes the answer.
fn answer_source<R: Threads + Sync, S: Source, O: Sink, G: Gate>(
    rt: &R,
    gate: &G,
    alloc: Global,
    words: &[String],
    command: Words,
    kept: &mut Option<Crew>,
    source: &mut S,
    out: &mut O,
) -> Ending
    requires within { IsInRange (length words.now) command }
    requires reads { reads command ≡ true }
    requires none { kept.old ≡ None }
    ensures ends { EndsAs (answer_to (map string_bytes words.now) command) (λ bytes. Leaves result (run_to command bytes) kept.new) result (S.unread source.old) (O.written out.old) (O.written out.new) }
    ensures accepted { IsAccepted result }
    ensures end { result ≡ Ending.Done → IsAtEnd (S.unread source.new) }
    ensures read { result ≡ Ending.ReadFault → Rose (S.faults source.old) (S.faults source.new) }
    ensures write { result ≡ Ending.WriteFault → Rose (O.faults out.old) (O.faults out.new) }
{
    match source_text(alloc, source) {
        Ok(text) => answer_text(rt, gate, alloc, words, command, &text, kept, out),
        Err(ending) => ending,
    }
}

/// Does all that the words ask for but the message. Wrong words come first, and then nothing is read or written.
fn work<R: Threads + Sync, S: Source, O: Sink, G: Gate>(
    rt: &R,
    gate: &G,
    alloc: Global,
    words: &[String],
    kept: &mut Option<Crew>,
    source: &mut S,
    out: &mut O,
) -> Ending
    requires none { kept.old ≡ None }
    ensures ends { EndsAs (specified_answer Surface (map string_bytes words.now)) (λ bytes. Leaves result (specified_run Surface (map string_bytes words.now) bytes) kept.new) result (S.unread source.old) (O.written out.old) (O.written out.new) }
    ensures words { IsWordsAnswer result (reading Surface (map string_bytes words.now)) }
    ensures untouched { reads_source Surface (map string_bytes words.now) ≡ false → source.new ≡ source.old }
    ensures unwritten { reading Surface (map string_bytes words.now) ≡ None → out.new ≡ out.old }
    ensures end { result ≡ Ending.Done → reads_source Surface (map string_bytes words.now) ≡ true → IsAtEnd (S.unread source.new) }
    ensures read { result ≡ Ending.ReadFault → Rose (S.faults source.old) (S.faults source.new) }
    ensures reads { result ≡ Ending.ReadFault → reads_source Surface (map string_bytes words.now) ≡ true }
    ensures write { result ≡ Ending.WriteFault → Rose (O.faults out.old) (O.faults out.new) }
{
    match Words::read(words, Program::Surface) {
        Ok(command) if command.reads() => {
            answer_source(rt, gate, alloc, words, command, kept, source, out)
        }
        Ok(command) => answer_text(rt, gate, alloc, words, command, &[], kept, out),
        Err(index) => Ending::WrongWord(index as u64),
    }
}

/// Writes a line. A fault of the notes changes no status, so nothing is made of it.
fn put_message<N: Sink>(notes: &mut N, line: &[u8])
    ensures gains { Gains (Rose (N.faults notes.old) (N.faults notes.new)) line.now (N.written notes.old) (N.written notes.new) }
    ensures later { N.faults notes.old ≤ N.faults notes.new }
{
    let _ = put_all(notes, line);
}

/// Writes the message of an ending and gives the status of the call. Where there is no memory for the message no crew is
/// left.
pub(crate) fn conclude<N: Sink>(
    alloc: Global,
    ending: Ending,
    kept: &mut Option<Crew>,
    notes: &mut N,
) -> Status
    ensures { Concluded ending result kept.old kept.new (sink_view (N.written notes.old) (N.faults notes.old)) (sink_view (N.written notes.new) (N.faults notes.new)) }
{
    match message_of(alloc, ending) {
        Ok(line) => {
            put_message(notes, line.as_bytes());
            ending.status()
        }
        Err(_) => {
            *kept = None;
            put_message(notes, b"memory\n");
            Status::Memory
        }
    }
}

/// Whether the words ask for a report.
fn wants_report(words: &[String]) -> bool
    ensures { result ≡ wants_report Surface (map string_bytes words.now) }
{
    matches!(
        Words::read(words, Program::Surface),
        Ok(Words::Run { report: true, .. })
    )
}

/// Writes the report line of the crew that a run has left, where the words ask for it and the call is done. Where that
/// fails no crew is left. Gives how the call ends then.
fn report<N: Sink>(
    alloc: Global,
    words: &[String],
    ending: Ending,
    kept: &mut Option<Crew>,
    notes: &mut N,
) -> Ending
    ensures told { Told (line_in (wants_report Surface (map string_bytes words.now)) kept.old) ending result (sink_view (N.written notes.old) (N.faults notes.old)) (sink_view (N.written notes.new) (N.faults notes.new)) }
    ensures right { ending ≡ Ending.Done → wants_report Surface (map string_bytes words.now) ≡ true → IfSome kept.old IsRightReport }
    ensures same { result ≡ ending → kept.new ≡ kept.old }
    ensures none { (result ≡ ending → ⊥) → kept.new ≡ None }
{
    let Ending::Done = ending else {
        return ending;
    };
    if !wants_report(words) {
        return ending;
    }
    let Some(crew) = kept.as_ref() else {
        return ending;
    };
    match put_report(alloc, crew.report(), notes) {
        Ending::Done => Ending::Done,
        failed => {
            *kept = None;
            failed
        }
    }
}

/// The program `surface`: does what the words say with the text that the source holds, and writes to `out`.
///
/// The commands `check`, `print`, `run` and `ensemble` read a manifest, `compile`, `compact` and `value` read a circuit,
/// `bench` reads a netlist, and `gen` and `stress` read nothing. Where the words are wrong nothing is read. Else the source
/// is read to its end, of at most 67,108,864 bytes, and then the first fault of the text decides; behind it, for `compile`
/// and `compact`, the size of the circuit's layout.
///
/// - `Done`: the whole text of the answer was written to `out`.
/// - `Words`: exactly where the words aren't accepted.
/// - `Faulty`: the text has a fault, or the word with the inputs isn't as long as the circuit has inputs.
/// - `Limit`: the source holds too many bytes, a count of the text is above its limit, the layout of a circuit has too
///   many sites, or the run of `run` or `stress` has more events than its limit; then `run` has written the text of the
///   events up to the limit, and `stress` nothing. `ensemble` says of each run whether it has, and is done.
/// - `ReadFault` and `WriteFault`: the source or `out` had a fault. With `WriteFault` a prefix of the text was written.
/// - `Memory`: want of memory, which may come in place of every other status. A prefix of the text was written.
///
/// With every other status nothing was written to `out`. With every status but `Done` one line is written to `notes`; a
/// fault of `notes` in it may cut it short, and leaves the status as it is.
///
/// What `kept` held before is dropped. With `Done`, `run` and `stress` leave there their crew, which has finished; where the event
/// limit was met, their crew, whose horizon is above the key of the event past the limit. In every other case it is None.
///
/// With `run --report yes` and `Done` one line goes to `notes`, the report of that crew: as many regions as workers, or as
/// rows if there are fewer; the events of the history as committed; at most one round more; and what was fired was
/// committed or cancelled. A fault of `notes` in that line gives `WriteFault`.
///
/// What names the answer, the crew and the report is said of some bytes, which are those of the source where it tells them.
pub fn surface_main<R: Threads + Sync, S: Source, O: Sink, N: Sink, G: Gate>(
    rt: &R,
    alloc: Global,
    words: &[String],
    kept: &mut Option<Crew>,
    source: &mut S,
    out: &mut O,
    notes: &mut N,
    gate: &G,
) -> Status
    ensures answer { IsAnsweredCall Surface (map string_bytes words.now) result kept.new
        (outside (source_view (S.unread source.old) (S.faults source.old)) (sink_view (O.written out.old) (O.faults out.old)) (sink_view (N.written notes.old) (N.faults notes.old)))
        (outside (source_view (S.unread source.new) (S.faults source.new)) (sink_view (O.written out.new) (O.faults out.new)) (sink_view (N.written notes.new) (N.faults notes.new))) }

    ensures words { result ≡ Status.Words → reading Surface (map string_bytes words.now) ≡ None }
    ensures wrong { reading Surface (map string_bytes words.now) ≡ None → (result ≡ Status.Words) ⊎ (result ≡ Status.Memory) }
    ensures unwritten { reading Surface (map string_bytes words.now) ≡ None → out.new ≡ out.old }

    // Wrong words and commands that read nothing leave the source as it was.
    ensures untouched { reads_source Surface (map string_bytes words.now) ≡ false → source.new ≡ source.old }
    ensures end { result ≡ Status.Done → reads_source Surface (map string_bytes words.now) ≡ true → IsAtEnd (S.unread source.new) }
    ensures reads { result ≡ Status.ReadFault → reads_source Surface (map string_bytes words.now) ≡ true }
    ensures read { result ≡ Status.ReadFault → Rose (S.faults source.old) (S.faults source.new) }
    ensures write { result ≡ Status.WriteFault → Rose (O.faults out.old) (O.faults out.new) ⊎ Rose (N.faults notes.old) (N.faults notes.new) }
{
    *kept = None;
    let ending = work(rt, gate, alloc, words, kept, source, out);
    let ending = report(alloc, words, ending, kept, notes);
    conclude(alloc, ending, kept, notes)
}
