//! How a run by a crew ends: what its rounds hand out is counted, and none of it is written or stays in memory.

ghost use Rattle.std.specs.Prelude.{◌≡◌, ◌≢◌, ◌≤◌, ◌<◌, ◌+◌, ◌^◌, ℕ, length, ◌++◌, IfOk, OnOk, IsErrOf, string_bytes};
ghost use Rattle.lattice.specs.Surface.{after_all};
ghost use Rattle.plan.specs.History.{AreNext};
ghost use Rattle.warp_core.specs.World.{end_key};
ghost use Rattle.crew.specs.Crews.{world_in};
ghost use Rattle.trace_text.specs.Lines.{counts_text};
ghost use Rattle.run_writer.specs.Counting.{GoesOn, EndsAlike, counted_of};
ghost use Rattle.run_writer.specs.Crewed.{IsAlong, IsPastLimit, IsSameCrew, rounds_left};
ghost use Rattle.run_writer.specs.Cuts.{surface_after};
ghost use Rattle.run_writer.specs.RunText.{events_of};
ghost use Rattle.run_writer.specs.Runs.{HasEnded, MayRun};
ghost use Rattle.run_writer.specs.Stops.{EndGains};
ghost use Rattle.run_writer.specs.StressText.{last_time, stress_line, stress_text};
ghost use Rattle.run_writer.specs.Writing.{scene_of};

use crate::buffer::Buffer;
use crate::pages::Stop;
use crate::writer::Task;
use crew::Crew;
use plan::Plan;
use species::Names;
use std::alloc::{AllocError, Global};
use std::thread::Threads;
use surf_kinds::{Event, NoMemory};
use surf_outside::{Failed, Gate, Sink, put_all};
use surface_state::Surface;
use trace_text::write_counts;

/// How a run ended, or how far it has come.
#[derive(Clone, Copy)]
pub(crate) struct RunEnd {
    pub(crate) events: u64,
    /// The tick of the last event; 0 where there was none.
    pub(crate) last: u64,
}

/// The next events of a surface happen on it. Gives the tick of the last of them, or the tick that is handed in where there
/// are none.
fn apply_events(plan: &Plan, surface: &mut Surface, events: &[Event], tick: u64) -> u64
    requires goes_on { GoesOn plan.now surface.old }
    requires next { (until : ℕ) × (until ≤ 10 ^ 15) × AreNext plan.now until surface.old.sites events.now }
    ensures goes_on { GoesOn plan.now surface.new }
    ensures same { surface.new ≡ record surface.old { sites = after_all plan.now.lattice plan.now.rules surface.old.sites events.now } }
    ensures last { result ≡ last_time tick events.now }
{
    let mut last = tick;
    for event in events {
        surface.apply(*event, plan.products(event.channel));
        last = event.time;
    }
    last
}

/// Makes a round. What it hands out is counted and happens on the surface; then it is dropped.
fn count_round<R: Threads + Sync, G: Gate>(
    rt: &R,
    gate: &G,
    task: &Task,
    crew: &mut Crew,
    surface: &mut Surface,
    end: RunEnd,
) -> Result<RunEnd, Stop>
    requires unfinished { crew.old.horizon ≢ end_key (world_in crew.old) }
    requires duration { task.now.span.until ≤ 10 ^ 15 }
    requires goes_on { GoesOn task.now.plan.now surface.old }
    requires along { IsAlong (scene_of task.now) crew.old (counted_of surface.old end) }
    requires within { end.events ≤ task.now.span.limit }
    ensures goes_on { OnOk result (GoesOn task.now.plan.now surface.new) }
    ensures along { IfOk result (λ e. IsAlong (scene_of task.now) crew.new (counted_of surface.new e)) }
    ensures alike { IfOk result (λ e. EndsAlike (scene_of task.now) surface.old.sites end surface.new.sites e) }
    ensures within { IfOk result (λ e. e.events ≤ task.now.span.limit) }
    ensures surface { OnOk result (surface.new ≡ record surface.old { sites = surface.new.sites }) }
    ensures fewer { OnOk result (rounds_left (scene_of task.now) crew.new surface.new.sites < rounds_left (scene_of task.now) crew.old surface.old.sites) }
    ensures many { IsErrOf result Stop.Limit → task.now.span.limit < end.events + length (events_of (scene_of task.now) surface.old.sites) }
    ensures past { IsErrOf result Stop.Limit → IsPastLimit (scene_of task.now) crew.new }
    ensures unwritten { IsErrOf result Stop.Write → ⊥ }
    ensures same { IsSameCrew crew.old crew.new }
{
    let events = match crew.round(rt, gate) {
        Ok(events) => events,
        Err(NoMemory) => return Err(Stop::Memory),
    };
    let handed = events.len() as u64;
    if handed > task.span.limit - end.events {
        return Err(Stop::Limit);
    }
    let last = apply_events(task.plan, surface, events.as_slice(), end.last);
    Ok(RunEnd {
        events: end.events + handed,
        last,
    })
}

/// Makes rounds until the crew is finished.
fn count_rounds<R: Threads + Sync, G: Gate>(
    rt: &R,
    gate: &G,
    task: &Task,
    crew: &mut Crew,
    surface: &mut Surface,
) -> Result<RunEnd, Stop>
    requires duration { task.now.span.until ≤ 10 ^ 15 }
    requires goes_on { GoesOn task.now.plan.now surface.old }
    requires along { IsAlong (scene_of task.now) crew.old (counted_of surface.old (record { events = 0; last = 0 })) }
    ensures end { IfOk result (λ e. e ≡ record { events = length (events_of (scene_of task.now) surface.old.sites); last = last_time 0 (events_of (scene_of task.now) surface.old.sites) }) }
    ensures few { OnOk result (length (events_of (scene_of task.now) surface.old.sites) ≤ task.now.span.limit) }
    ensures surface { OnOk result (surface.new ≡ record surface.old { sites = surface_after (scene_of task.now) surface.old.sites (events_of (scene_of task.now) surface.old.sites) }) }
    ensures many { IsErrOf result Stop.Limit → task.now.span.limit < length (events_of (scene_of task.now) surface.old.sites) }
    ensures unwritten { IsErrOf result Stop.Write → ⊥ }
    ensures finished { OnOk result (crew.new.horizon ≡ end_key (world_in crew.new)) }
    ensures past { IsErrOf result Stop.Limit → IsPastLimit (scene_of task.now) crew.new }
    ensures same { IsSameCrew crew.old crew.new }
{
    let mut end = RunEnd { events: 0, last: 0 };
    while !crew.finished() {
        match count_round(rt, gate, task, crew, surface, end) {
            Ok(later) => end = later,
            Err(stop) => return Err(stop),
        }
    }
    Ok(end)
}

/// The line of a run of the manifest of a number.
fn stress_line(alloc: Global, number: u64, end: RunEnd) -> Result<String, AllocError>
    ensures { IfOk result (λ line. string_bytes line ≡ stress_line number end.events end.last) }
{
    let events = end.events;
    let last = end.last;
    format!(in alloc; "stress {number} events {events} last {last}\n")
}

/// The text of a run that has ended.
fn stress_text(
    alloc: Global,
    number: u64,
    names: &Names,
    surface: &Surface,
    end: RunEnd,
) -> Result<Buffer, NoMemory>
    requires { surface.now.species_count ≡ length names.now }
    ensures { IfOk result (λ text. text.bytes ≡ stress_line number end.events end.last ++ counts_text names.now surface.now.sites) }
{
    let Ok(line) = stress_line(alloc, number, end) else {
        return Err(NoMemory);
    };
    let mut text = Buffer::new(alloc);
    match put_all(&mut text, line.as_bytes()) {
        Ok(()) => {}
        Err(Failed) => return Err(NoMemory),
    }
    match write_counts(&mut text, names, surface) {
        Ok(()) => Ok(text),
        Err(Failed) => Err(NoMemory),
    }
}

/// Runs a crew to its end, and writes what `stress` says of it. Where it has more events than the limit, nothing is written.
pub fn write_stress<R: Threads + Sync, O: Sink, G: Gate>(
    rt: &R,
    gate: &G,
    alloc: Global,
    number: u64,
    task: &Task,
    crew: &mut Crew,
    mut surface: Surface,
    out: &mut O,
) -> Result<(), Stop>
    requires may { MayRun (scene_of task.now) crew.old }
    requires start { crew.old.start ≡ surface }
    ensures ended { HasEnded result (scene_of task.now) crew.old crew.new (O.faults out.old) (O.faults out.new) }
    ensures text { EndGains result (stress_text number (scene_of task.now) crew.old.start.sites) (O.written out.old) (O.written out.new) }
    ensures few { IsErrOf result Stop.Write → length (events_of (scene_of task.now) crew.old.start.sites) ≤ task.now.span.limit }
{
    let end = match count_rounds(rt, gate, task, crew, &mut surface) {
        Ok(end) => end,
        Err(stop) => return Err(stop),
    };
    let text = match stress_text(alloc, number, task.names, &surface, end) {
        Ok(text) => text,
        Err(NoMemory) => return Err(Stop::Memory),
    };
    match put_all(out, text.bytes()) {
        Ok(()) => Ok(()),
        Err(Failed) => Err(Stop::Write),
    }
}
