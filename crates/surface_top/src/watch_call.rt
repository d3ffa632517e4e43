//! The top call of the program `surface_watch`: from words and a source to what is written and a status.

ghost use Rattle.std.specs.Prelude.{◌≡◌, ◌≢◌, ◌≤◌, ◌⊎◌, ℕ, List, true, false, None, Some, map, length, string_bytes, IfSome, IfOk};
ghost use Rattle.std.specs.Io.KnownBytes.{IsAtEnd};
ghost use Rattle.surf_outside.specs.Causes.{Rose};
ghost use Rattle.surface_words.specs.declared.commands.Program.TheVariants.{Watch};
ghost use Rattle.surface_words.specs.Reading.{reading, IsInRange};
ghost use Rattle.surface_top.specs.Answer.{answer_to, answer_within, reads_source, specified_answer};
ghost use Rattle.surface_top.specs.Ending.{Answered, EndsAs, IsAccepted, IsWordsAnswer};
ghost use Rattle.surface_top.specs.Kept.{Leaves, run_to, run_within, specified_run};
ghost use Rattle.surface_top.specs.Outcome.{source_view, sink_view, outside};
ghost use Rattle.surface_top.specs.Reporting.{Told};
ghost use Rattle.surface_top.specs.Watched.{AreLines, IsWatch, IsWatchedCall, Shows, seats_of, seats_within};

use crate::call::{conclude, manifest, source_text};
use crate::ending::Ending;
use crate::run::RunOptions;
use crate::watch::watch_manifest;
use crew::Crew;
use std::alloc::Global;
use std::sync::Wait;
use std::thread::Threads;
use surf_kinds::Status;
use surf_outside::{Failed, Gate, Sink, Source, put_all};
use surface_words::{Program, Words};
use watch_run::Seats;

/// Reads a manifest and runs it before viewers, as the words of a watch say. A run leaves its crew in `kept` and the
/// viewers' lines in `lines`.
fn watch_text<R: Threads + Wait + Sync, O: Sink + Send, G: Gate>(
    rt: &R,
    gate: &G,
    alloc: Global,
    command: Words,
    text: &[u8],
    kept: &mut Option<Crew>,
    lines: &mut Vec<u8>,
    out: &mut O,
) -> Ending
    requires size { length text.now ≤ 67108864 }
    requires within { (count : ℕ) × IsInRange count command }
    requires watch { IsWatch command }
    requires none { kept.old ≡ None }
    ensures kept { Leaves result (run_within command text.now) kept.new }
    ensures shown { Shows result (seats_within command) (run_within command text.now) lines.new.items }
    ensures answered { (words : List (List ℕ)) → Answered (answer_within command words text.now) result (O.written out.old) (O.written out.new) (O.faults out.old) (O.faults out.new) }
{
    let Words::Watch {
        workers,
        seed,
        until,
        samples,
        limit,
        quota,
        slots,
        viewers,
        frames,
    } = command
    else {
        unreachable!();
    };
    let options = RunOptions {
        workers,
        quota,
        slots,
        seed,
        until,
        samples,
        limit,
    };
    let seats = Seats {
        viewers: viewers as u32,
        frames: frames as u32,
    };
    match manifest(alloc, text) {
        Ok(manifest) => {
            watch_manifest(rt, gate, alloc, &manifest, options, seats, kept, lines, out)
        }
        Err(ending) => ending,
    }
}

/// Reads the source to its end and runs what it holds before viewers.
fn watch_source<R: Threads + Wait + Sync, S: Source, O: Sink + Send, G: Gate>(
    rt: &R,
    gate: &G,
    alloc: Global,
    command: Words,
    kept: &mut Option<Crew>,
    lines: &mut Vec<u8>,
    source: &mut S,
    out: &mut O,
) -> Ending
    requires within { (count : ℕ) × IsInRange count command }
    requires watch { IsWatch command }
    requires none { kept.old ≡ None }
    ensures ends { (words : List (List ℕ)) → EndsAs (answer_to words command) (λ bytes. Leaves result (run_to command bytes) kept.new × Shows result (seats_within command) (run_to command bytes) lines.new.items) result (S.unread source.old) (O.written out.old) (O.written out.new) }
    ensures accepted { IsAccepted result }
    ensures end { result ≡ Ending.Done → IsAtEnd (S.unread source.new) }
    ensures read { result ≡ Ending.ReadFault → Rose (S.faults source.old) (S.faults source.new) }
    ensures write { result ≡ Ending.WriteFault → Rose (O.faults out.old) (O.faults out.new) }
{
    match source_text(alloc, source) {
        Ok(text) => watch_text(rt, gate, alloc, command, &text, kept, lines, out),
        Err(ending) => ending,
    }
}

/// Does all that the words ask for but the viewers' lines, which it puts aside, and the message.
fn watch<R: Threads + Wait + Sync, S: Source, O: Sink + Send, G: Gate>(
    rt: &R,
    gate: &G,
    alloc: Global,
    words: &[String],
    kept: &mut Option<Crew>,
    lines: &mut Vec<u8>,
    source: &mut S,
    out: &mut O,
) -> Ending
    requires none { kept.old ≡ None }
    ensures ends { EndsAs (specified_answer Watch (map string_bytes words.now)) (λ bytes. Leaves result (specified_run Watch (map string_bytes words.now) bytes) kept.new × Shows result (seats_of (map string_bytes words.now)) (specified_run Watch (map string_bytes words.now) bytes) lines.new.items) result (S.unread source.old) (O.written out.old) (O.written out.new) }
    ensures some { (bytes : List ℕ) → (some : List ℕ) × AreLines (seats_of (map string_bytes words.now)) (specified_run Watch (map string_bytes words.now) bytes) some }
    ensures words { IsWordsAnswer result (reading Watch (map string_bytes words.now)) }
    ensures untouched { reads_source Watch (map string_bytes words.now) ≡ false → source.new ≡ source.old }
    ensures unwritten { reading Watch (map string_bytes words.now) ≡ None → out.new ≡ out.old }
    ensures end { result ≡ Ending.Done → reads_source Watch (map string_bytes words.now) ≡ true → IsAtEnd (S.unread source.new) }
    ensures read { result ≡ Ending.ReadFault → Rose (S.faults source.old) (S.faults source.new) }
    ensures reads { result ≡ Ending.ReadFault → reads_source Watch (map string_bytes words.now) ≡ true }
    ensures write { result ≡ Ending.WriteFault → Rose (O.faults out.old) (O.faults out.new) }
{
    match Words::read(words, Program::Watch) {
        Ok(command) => watch_source(rt, gate, alloc, command, kept, lines, source, out),
        Err(index) => Ending::WrongWord(index as u64),
    }
}

/// Writes the viewers' lines, where the call is done. Where that fails no crew is left. Gives how the call ends then.
fn put_views<N: Sink>(
    ending: Ending,
    lines: &[u8],
    kept: &mut Option<Crew>,
    notes: &mut N,
) -> Ending
    ensures told { Told lines.now ending result (sink_view (N.written notes.old) (N.faults notes.old)) (sink_view (N.written notes.new) (N.faults notes.new)) }
    ensures same { result ≡ ending → kept.new ≡ kept.old }
    ensures none { (result ≡ ending → ⊥) → kept.new ≡ None }
{
    let Ending::Done = ending else {
        return ending;
    };
    if lines.is_empty() {
        return ending;
    }
    match put_all(notes, lines) {
        Ok(()) => Ending::Done,
        Err(Failed) => {
            *kept = None;
            Ending::WriteFault
        }
    }
}

/// The program `surface_watch`: runs the manifest that the source holds as the words say, before viewers, and writes its
/// run text to `out` and what the viewers saw to `notes`.
///
/// The one command is `watch`. Its text, its statuses and the crew that it leaves are those of `run` of
/// [`crate::surface_main`]. With `Done` a line for each sample of each viewer goes to `notes` behind the text: how many
/// events of the run had been published then, the tick of the last, and the counts of the surface after them. The viewers
/// come in order and so do the samples of each; within one viewer the number of events never falls, and on its last line
/// it is that of all events. A fault of `notes` in these lines gives `WriteFault`. With every other status none of them is
/// promised.
///
/// The call may wait, for the viewers that are reading when a round's counts are published; what is said here holds if it
/// returns. Nothing is said of when a viewer samples.
pub fn watch_main<R: Threads + Wait + Sync, S: Source, O: Sink + Send, N: Sink, G: Gate>(
    rt: &R,
    alloc: Global,
    words: &[String],
    kept: &mut Option<Crew>,
    source: &mut S,
    out: &mut O,
    notes: &mut N,
    gate: &G,
) -> Status
    ensures answer { IsWatchedCall (map string_bytes words.now) result kept.new
        (outside (source_view (S.unread source.old) (S.faults source.old)) (sink_view (O.written out.old) (O.faults out.old)) (sink_view (N.written notes.old) (N.faults notes.old)))
        (outside (source_view (S.unread source.new) (S.faults source.new)) (sink_view (O.written out.new) (O.faults out.new)) (sink_view (N.written notes.new) (N.faults notes.new))) }

    ensures words { result ≡ Status.Words → reading Watch (map string_bytes words.now) ≡ None }
    ensures wrong { reading Watch (map string_bytes words.now) ≡ None → (result ≡ Status.Words) ⊎ (result ≡ Status.Memory) }
    ensures unwritten { reading Watch (map string_bytes words.now) ≡ None → out.new ≡ out.old }

    // Wrong words leave the source as it was.
    ensures untouched { reads_source Watch (map string_bytes words.now) ≡ false → source.new ≡ source.old }
    ensures end { result ≡ Status.Done → reads_source Watch (map string_bytes words.now) ≡ true → IsAtEnd (S.unread source.new) }
    ensures reads { result ≡ Status.ReadFault → reads_source Watch (map string_bytes words.now) ≡ true }
    ensures read { result ≡ Status.ReadFault → Rose (S.faults source.old) (S.faults source.new) }
    ensures write { result ≡ Status.WriteFault → Rose (O.faults out.old) (O.faults out.new) ⊎ Rose (N.faults notes.old) (N.faults notes.new) }
{
    *kept = None;
    let mut lines = Vec::new(alloc);
    let ending = watch(rt, gate, alloc, words, kept, &mut lines, source, out);
    let ending = put_views(ending, &lines, kept, notes);
    conclude(alloc, ending, kept, notes)
}
