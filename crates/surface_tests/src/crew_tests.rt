//! Runs by several workers, their reports, and when their events are written.

ghost use Rattle.std.specs.Prelude.{Some};

use crate::calls::{OPEN, call, count, expect, status_of, written};
use crate::rows::{RENEWAL, RENEWAL_RUN};
use std::alloc::Global;
use std::process::Abort;
use std::sync::atomic::{AtomicU64, Ordering};
use std::test::Fail;
use std::thread::Threads;
use surf_kinds::Status;
use surf_outside::{Failed, Gate, MemSink, MemSource, Sink};
use surf_text::{read_u64, word_list};

/// How many lines of events stand in a text.
fn event_lines(text: &[u8]) -> u64 {
    count(text, b"event ")
}

/// Sees that these words all write the same on a text, and gives that.
fn same<R: Threads + Sync + Abort>(
    rt: &R,
    alloc: Global,
    text: &str,
    lines: &[&str],
) -> Result<String, Fail> {
    let mut first = None;
    for line in lines {
        let text = written(rt, alloc, *line, text)?;
        match &first {
            None => first = Some(text),
            Some(first) => expect(rt, text.as_str() == first.as_str(), *line),
        }
    }
    Ok(first.ok_or("no words")?)
}

#[test]
fn workers_have_no_effect_on_what_is_written(rt: HostRuntime) -> Result<(), Fail> {
    let alloc = rt.alloc();
    let manifest = same(&rt, alloc, "", &["gen", "gen --number 0"])?;
    let head =
        "rng_seed = 0\nmax_duration = 20\nlattice = square\nwrap = true\n!START_TRANSITION_RULES\n(1) A + O -> O + A\n(1) B + O -> O + B\n(1/2) A + B -> C + C\n(1/4) C -> A\n!END_TRANSITION_RULES\n!START_INIT_STATE\nA O B O C A O B\nC A O B O C A O\n";
    expect(&rt, manifest.starts_with(head), "gen");
    let lines = [
        "run",
        "run --workers 2",
        "run --workers 3",
        "run --workers 8",
        "run --workers 64 --quota 1 --slots 1",
    ];
    let run = same(&rt, alloc, manifest.as_str(), &lines)?;
    expect(&rt, event_lines(run.as_bytes()) > 0, "run");
    same(
        &rt,
        alloc,
        manifest.as_str(),
        &["ensemble", "ensemble --workers 3"],
    )?;
    let lines = [
        "stress --number 8",
        "stress --number 8",
        "stress --number 8 --workers 3",
    ];
    let text = same(&rt, alloc, "", &lines)?;
    expect(&rt, text.starts_with("stress 8 events "), "stress");
    let lines = ["stress --number 7", "stress --number 7"];
    let text = same(&rt, alloc, "", &lines)?;
    expect(&rt, text.starts_with("stress 7 events "), "stress");
    Ok(())
}

/// What a report says.
#[derive(Clone, Copy)]
struct Report {
    regions: u64,
    rounds: u64,
    fired: u64,
    committed: u64,
    cancelled: u64,
}

/// The number behind a word, where it is the next two words.
fn number(words: &[&str], at: usize, name: &str) -> Result<u64, Fail> {
    let word = words.get(at).copied().unwrap_or("");
    let digits = words.get(at.saturating_add(1)).copied().unwrap_or("");
    if word != name {
        return Err("another word".into());
    }
    Ok(read_u64(digits.as_bytes()).ok_or("no number")?)
}

/// What a report line says.
fn report_of(alloc: Global, notes: &[u8]) -> Result<Report, Fail> {
    let text = String::from_utf8(notes.to_vec(alloc)?)?;
    let words = word_list(alloc, text.trim_end())?;
    let words = words.as_slice();
    Ok(Report {
        regions: number(words, 1, "regions")?,
        rounds: number(words, 3, "rounds")?,
        fired: number(words, 5, "fired")?,
        committed: number(words, 7, "committed")?,
        cancelled: number(words, 9, "cancelled")?,
    })
}

/// Whether a report is one of a run with so many events.
fn is_right(report: Report, events: u64) -> bool {
    let fired = report.committed.saturating_add(report.cancelled);
    let most = report.committed.saturating_add(1);
    report.committed == events && report.fired == fired && report.rounds <= most
}

#[test]
fn a_report_says_what_the_regions_did(rt: HostRuntime) -> Result<(), Fail> {
    let alloc = rt.alloc();
    let manifest = written(&rt, alloc, "gen --number 0", "")?;
    for (line, regions) in [
        ("run --report yes", 1),
        ("run --workers 4 --report yes", 4),
        ("run --workers 64 --quota 1 --slots 1 --report yes", 8),
    ] {
        let ran = call(&rt, alloc, line, manifest.as_bytes(), OPEN)?;
        let report = report_of(alloc, ran.notes.bytes())?;
        let events = event_lines(ran.out.bytes());
        expect(&rt, ran.status == Status::Done, line);
        expect(&rt, report.regions == regions, line);
        expect(&rt, is_right(report, events), line);
        expect(&rt, regions > 1 || report.cancelled == 0, line);
    }
    let silent = call(&rt, alloc, "run --report no", manifest.as_bytes(), OPEN)?;
    expect(&rt, silent.notes.bytes().is_empty(), "no report");
    Ok(())
}

/// A sink that counts the lines of events that it holds, for all to see.
#[derive(Drop)]
struct LineSink<'a> {
    sink: MemSink,
    lines: &'a AtomicU64,
}

impl<'a> Sink for LineSink<'a> {
    ghost written = { λ s. Some s.sink.written };

    ghost faults = { λ s. s.sink.faults };

    fn write(&mut self, bytes: &[u8]) -> Result<usize, Failed> {
        let written = self.sink.write(bytes);
        self.lines
            .store(event_lines(self.sink.bytes()), Ordering::SeqCst);
        written
    }
}

/// A gate that sees, as a turn begins, whether two lines for each round before it were written.
#[derive(Drop)]
struct LineGate<'a> {
    lines: &'a AtomicU64,
    turns: AtomicU64,
    others: AtomicU64,
}

impl<'a> Gate for LineGate<'a> {
    fn enter(&self, _region: u32, round: u64) {
        self.turns.fetch_add(1, Ordering::SeqCst);
        if self.lines.load(Ordering::SeqCst) != round.wrapping_mul(2) {
            self.others.fetch_add(1, Ordering::SeqCst);
        }
    }

    fn leave(&self, _region: u32, _round: u64) {}
}

#[test]
fn a_round_is_written_before_the_next_begins(rt: HostRuntime) -> Result<(), Fail> {
    let alloc = rt.alloc();
    let lines = AtomicU64::new(0);
    let gate = LineGate {
        lines: &lines,
        turns: AtomicU64::new(0),
        others: AtomicU64::new(0),
    };
    let mut source = MemSource::new(alloc, RENEWAL.as_bytes(), 65_536, &[])?;
    let mut out = LineSink {
        sink: MemSink::new(alloc, 1000, 1000, &[])?,
        lines: &lines,
    };
    let mut notes = MemSink::new(alloc, 100, 100, &[])?;
    let line = "run --workers 2 --quota 1";
    let status = status_of(&rt, alloc, line, &mut source, &mut out, &mut notes, &gate)?;
    expect(&rt, status == Status::Done, line);
    expect(&rt, out.sink.bytes() == RENEWAL_RUN.as_bytes(), line);
    // Four rounds of two regions.
    expect(&rt, gate.turns.load(Ordering::SeqCst) == 8, "turns");
    expect(&rt, gate.others.load(Ordering::SeqCst) == 0, "lines");
    Ok(())
}
