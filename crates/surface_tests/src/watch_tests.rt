//! Watches over memory, and what the lines of their viewers say.

use crate::calls::{Answered, OPEN, Outside, compare, expect, words_of};
use crate::fault_tests::every_call_fails;
use crate::rows::{CATALYST, CATALYST_RUN};
use std::alloc::Global;
use std::process::Abort;
use std::sync::Wait;
use std::sync::atomic::{AtomicU64, Ordering};
use std::test::Fail;
use std::thread::Threads;
use surf_kinds::{NoMemory, Status};
use surf_outside::{Gate, MemSink, MemSource, OpenGate};
use surf_text::{Cursor, read_u64, word_list};
use surface_top::watch_main;

const IDLE: &str = "max_duration = 10\n!START_INIT_STATE\nA\n!END_INIT_STATE\n";

const IDLE_RUN: &[u8] = b"surface 10000000 0\nA\ncounts A:1\nend 10000000 0\n";

const IDLE_LINES: &[u8] =
    b"viewer 0 sample 0 events 0 tick 0 A:1\nviewer 0 sample 1 events 0 tick 0 A:1\nviewer 0 sample 2 events 0 tick 0 A:1\nviewer 0 sample 3 events 0 tick 0 A:1\nviewer 0 sample 4 events 0 tick 0 A:1\nviewer 0 sample 5 events 0 tick 0 A:1\nviewer 0 sample 6 events 0 tick 0 A:1\nviewer 0 sample 7 events 0 tick 0 A:1\nviewer 0 sample 8 events 0 tick 0 A:1\nviewer 0 sample 9 events 0 tick 0 A:1\n";

/// 10,000 events: 40 sites that flip in each of 250 ticks.
const FLIPS: &str =
    "max_duration = 0.00025\n!START_TRANSITION_RULES\n(1000000000) A -> B\n(1000000000) B -> A\n!END_TRANSITION_RULES\n!START_INIT_STATE\nA A A A A A A A\nA A A A A A A A\nA A A A A A A A\nA A A A A A A A\nA A A A A A A A\n!END_INIT_STATE\n";

/// What a watch has left.
#[derive(Drop)]
struct Watched {
    answered: Answered,
    has_crew: bool,
}

/// Watches a run of a text.
fn watch<R: Threads + Wait + Sync, G: Gate>(
    rt: &R,
    gate: &G,
    alloc: Global,
    line: &str,
    text: &str,
    outside: Outside,
) -> Result<Watched, NoMemory> {
    let words = words_of(alloc, line)?;
    let words = words.as_slice();
    let writes = outside.writes.max(1);
    let reads = outside.reads.max(1);
    let mut source = MemSource::new(alloc, text.as_bytes(), reads, &[outside.source])?;
    let mut out = MemSink::new(alloc, 1_000_000, writes, &[outside.out])?;
    let mut notes = MemSink::new(alloc, 2_000_000, writes, &[outside.notes])?;
    let mut kept = None;
    let status = watch_main(
        rt,
        alloc,
        words,
        &mut kept,
        &mut source,
        &mut out,
        &mut notes,
        gate,
    );
    Ok(Watched {
        answered: Answered { status, out, notes },
        has_crew: kept.is_some(),
    })
}

#[test]
fn where_nothing_happens_all_samples_are_the_first_surface(rt: HostRuntime) -> Result<(), Fail> {
    let seen = watch(&rt, &OpenGate, rt.alloc(), "watch", IDLE, OPEN)?;
    compare(
        &rt,
        "watch",
        &seen.answered,
        Status::Done,
        IDLE_RUN,
        IDLE_LINES,
    );
    expect(&rt, seen.has_crew, "crew");
    Ok(())
}

/// Which of the three states of the catalyst's run a line shows, from 0; 3 for none of them.
fn state_of(line: &[u8], head: &str) -> usize {
    let states = [
        "events 0 tick 0 A:1 B:2 C:0",
        "events 1 tick 1 A:1 B:1 C:1",
        "events 2 tick 2 A:1 B:0 C:2",
    ];
    let Some(rest) = line.strip_prefix(head.as_bytes()) else {
        return 3;
    };
    for (number, state) in states.iter().enumerate() {
        if rest == state.as_bytes() {
            return number;
        }
    }
    3
}

/// Whether these are the lines of two viewers with three samples each: states of the run, of which none comes before the
/// one above it, and the last is that after both events.
fn are_two_viewers(notes: &[u8]) -> bool {
    let heads = [
        "viewer 0 sample 0 ",
        "viewer 0 sample 1 ",
        "viewer 0 sample 2 ",
        "viewer 1 sample 0 ",
        "viewer 1 sample 1 ",
        "viewer 1 sample 2 ",
    ];
    let mut lines = Cursor::new(notes);
    let mut before = 0;
    for (number, head) in heads.iter().enumerate() {
        let Some(line) = lines.next_line() else {
            return false;
        };
        let state = state_of(line.bytes, head);
        let is_first = number == 0 || number == 3;
        let is_last = number == 2 || number == 5;
        if state > 2 || !is_first && state < before || is_last && state != 2 {
            return false;
        }
        before = state;
    }
    lines.next_line().is_none()
}

#[test]
fn viewers_see_states_of_the_run(rt: HostRuntime) -> Result<(), Fail> {
    let run = CATALYST_RUN.as_bytes();
    let line = "watch --viewers 2 --frames 3";
    let seen = watch(&rt, &OpenGate, rt.alloc(), line, CATALYST, OPEN)?;
    let notes = seen.answered.notes.bytes();
    compare(&rt, line, &seen.answered, Status::Done, run, notes);
    expect(&rt, are_two_viewers(notes), "lines");
    let line = "watch --limit 1";
    let past = watch(&rt, &OpenGate, rt.alloc(), line, CATALYST, OPEN)?;
    let run: &[u8] = b"event 1 0 0 east 0 1\nlimit 1\n";
    compare(
        &rt,
        line,
        &past.answered,
        Status::Limit,
        run,
        b"limit events 1\n",
    );
    expect(&rt, past.has_crew, "crew");
    Ok(())
}

#[test]
fn notes_that_fail_end_a_watch(rt: HostRuntime) -> Result<(), Fail> {
    let line: &[u8] = b"viewer 0 sample 0 events 0 tick 0 A:1\n";
    for done in 0..10_usize {
        let words = "watch --frames 1";
        let outside = Outside {
            writes: 4,
            notes: (done as u64).saturating_add(1),
            ..OPEN
        };
        let seen = watch(&rt, &OpenGate, rt.alloc(), words, IDLE, outside)?;
        let gone = line.len().min(done.saturating_mul(4));
        let mut left = line[..gone].to_vec(rt.alloc())?;
        left.extend_from_slice(b"write fault\n")?;
        compare(
            &rt,
            words,
            &seen.answered,
            Status::WriteFault,
            IDLE_RUN,
            left.as_slice(),
        );
        expect(&rt, !seen.has_crew, "crew");
    }
    Ok(())
}

/// Lets each read or each write of a watch fail, and sees that it has a crew where none did. Gives how many there are.
fn every_call_of_a_watch_fails<R: Threads + Wait + Sync + Abort>(
    rt: &R,
    alloc: Global,
    status: Status,
) -> Result<u64, Fail> {
    let line = "watch --frames 1";
    let whole = CATALYST_RUN.as_bytes();
    every_call_fails(rt, line, whole, status, 1, |outside| {
        let seen = watch(rt, &OpenGate, alloc, line, CATALYST, outside)?;
        let is_done = seen.answered.status == Status::Done;
        expect(rt, seen.has_crew == is_done, line);
        Ok(seen.answered)
    })
}

#[test]
fn each_call_of_the_outside_of_a_watch_may_fail(rt: HostRuntime) -> Result<(), Fail> {
    let alloc = rt.alloc();
    let reads = every_call_of_a_watch_fails(&rt, alloc, Status::ReadFault)?;
    expect(&rt, reads == CATALYST.len() as u64 + 1, "reads");
    let writes = every_call_of_a_watch_fails(&rt, alloc, Status::WriteFault)?;
    expect(&rt, writes == 103, "writes");
    Ok(())
}

/// Holds each turn for some time, but those of the first round.
#[derive(Drop)]
struct SlowGate {
    passed: AtomicU64,
}

impl Gate for SlowGate {
    fn enter(&self, _region: u32, round: u64) {
        if round > 0 {
            for _ in 0..2_000 {
                self.passed.fetch_add(1, Ordering::SeqCst);
            }
        }
    }

    fn leave(&self, _region: u32, _round: u64) {}
}

/// Whether a line shows a state after some of the 10,000 events, and not all.
fn shows_some(alloc: Global, line: &[u8]) -> Result<bool, Fail> {
    let text = String::from_utf8(line.to_vec(alloc)?)?;
    let words = word_list(alloc, text.as_str())?;
    if words.len() <= 5 {
        return Ok(false);
    }
    match read_u64(words[5].as_bytes()) {
        Some(events) => Ok(events > 0 && events < 10_000),
        None => Ok(false),
    }
}

/// Whether one of the lines does.
fn some_line_shows_some(alloc: Global, notes: &[u8]) -> Result<bool, Fail> {
    let mut lines = Cursor::new(notes);
    for _ in 0..100_000u32 {
        let Some(line) = lines.next_line() else {
            return Ok(false);
        };
        if shows_some(alloc, line.bytes)? {
            return Ok(true);
        }
    }
    Ok(false)
}

/// Whether one of many watches shows a state while the run goes on. Which states a viewer sees is left open, so this looks
/// until one of them lies between the first and the last. The counts are published after each round, so rounds are short
/// and samples are many.
fn is_seen_meanwhile<R: Threads + Wait + Sync + Abort>(
    rt: &R,
    alloc: Global,
) -> Result<bool, Fail> {
    let gate = SlowGate {
        passed: AtomicU64::new(0),
    };
    for _ in 0..200u32 {
        let line = "watch --viewers 16 --frames 1000 --quota 16 --samples 0";
        let seen = watch(rt, &gate, alloc, line, FLIPS, OPEN)?;
        if seen.answered.status != Status::Done {
            return Ok(false);
        }
        if some_line_shows_some(alloc, seen.answered.notes.bytes())? {
            return Ok(true);
        }
    }
    Ok(false)
}

#[test]
fn a_viewer_sees_a_state_while_the_run_goes_on(rt: HostRuntime) -> Result<(), Fail> {
    expect(
        &rt,
        is_seen_meanwhile(&rt, rt.alloc())?,
        "a state between the first and the last",
    );
    Ok(())
}
