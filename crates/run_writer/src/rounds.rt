//! A run by a crew: what its rounds hand out is written as they end, and an observer is told of it.

ghost use Rattle.std.specs.Prelude.{◌≡◌, ◌≢◌, ◌<◌, ◌≤◌, ◌+◌, ◌-◌, ◌^◌, ◌++◌, List, [], length, OnOk, IsErrOf};
ghost use Rattle.surf_kinds.specs.declared.event.Event.{Event as TheEvent};
ghost use Rattle.surf_kinds.specs.declared.site.SiteState.{SiteState as TheSite};
ghost use Rattle.lattice.specs.Surface.{after_all};
ghost use Rattle.plan.specs.History.{AreNext};
ghost use Rattle.warp_core.specs.World.{end_key};
ghost use Rattle.crew.specs.Crews.{world_in};
ghost use Rattle.run_writer.specs.Crewed.{IsAlong, IsPastLimit, IsSameCrew, rounds_left, first_in, handed_by};
ghost use Rattle.run_writer.specs.Pages.{page};
ghost use Rattle.run_writer.specs.RunText.{events_of};
ghost use Rattle.run_writer.specs.Runs.{HasRun, MayRun};
ghost use Rattle.run_writer.specs.Writing.{scene_of, reached_of, Begins, IsReady, Advances, Ends};

use crate::pages::Stop;
use crate::writer::{Task, Writer};
use crew::Crew;
use std::alloc::Global;
use std::thread::Threads;
use surf_kinds::{Event, NoMemory};
use surf_outside::{Gate, Sink};
use surface_state::Surface;
use watching::Observer;

/// Writes the next events, and tells the observer of them once all have gone out.
fn write_and_tell<R, O: Sink, W: Observer<R>>(
    rt: &R,
    task: &Task,
    writer: &mut Writer,
    out: &mut O,
    observer: &mut W,
    events: &[Event],
) -> Result<(), Stop>
    requires ready { IsReady (scene_of task.now) writer.old }
    requires next { AreNext task.now.plan.now task.now.span.until writer.old.surface.sites events.now }
    requires limit { task.now.span.limit < 2 ^ 64 - 1 }
    requires seen { (first : List TheSite) × (es : List TheEvent) × W.has_seen observer.old task.now.plan.now first es × AreNext task.now.plan.now task.now.span.until first (es ++ events.now) × (writer.old.events ≡ length es) }
    ensures advances { Advances (scene_of task.now) (reached_of writer.old) (reached_of writer.new) (page (O.written out.old) (O.faults out.old) writer.old.buffer) (page (O.written out.new) (O.faults out.new) writer.new.buffer) result }
    ensures count { OnOk result (writer.new.events ≡ writer.old.events + length events.now) }
    ensures limit { IsErrOf result Stop.Limit → task.now.span.limit < writer.old.events + length events.now }
    ensures sites { OnOk result (writer.new.surface.sites ≡ after_all task.now.plan.now.lattice task.now.plan.now.rules writer.old.surface.sites events.now) }
    ensures ready { OnOk result (IsReady (scene_of task.now) writer.new) }
    ensures sent { OnOk result (writer.new.buffer.bytes ≡ []) }
    ensures seen { OnOk result ((first : List TheSite) (es : List TheEvent) → W.has_seen observer.old task.now.plan.now first es → AreNext task.now.plan.now task.now.span.until first (es ++ events.now) → W.has_seen observer.new task.now.plan.now first (es ++ events.now)) }
    ensures mark { W.mark observer.new ≡ W.mark observer.old }
{
    match writer.write_events(task, out, events) {
        Ok(()) => {}
        Err(stop) => return Err(stop),
    }
    match observer.saw(rt, task.plan, events) {
        Ok(()) => Ok(()),
        Err(NoMemory) => Err(Stop::Memory),
    }
}

/// Makes a round, and writes the events that it hands out. All of them have gone out, and the observer was told of them,
/// before the next round begins.
fn write_round<R: Threads + Sync, O: Sink, G: Gate, W: Observer<R>>(
    rt: &R,
    gate: &G,
    task: &Task,
    crew: &mut Crew,
    writer: &mut Writer,
    out: &mut O,
    observer: &mut W,
) -> Result<(), Stop>
    requires limit { task.now.span.limit < 2 ^ 64 - 1 }
    requires unfinished { crew.old.horizon ≢ end_key (world_in crew.old) }
    requires ready { IsReady (scene_of task.now) writer.old }
    requires along { IsAlong (scene_of task.now) crew.old (reached_of writer.old) }
    requires seen { W.has_seen observer.old task.now.plan.now (first_in crew.old) (handed_by crew.old) }
    ensures advances { Advances (scene_of task.now) (reached_of writer.old) (reached_of writer.new) (page (O.written out.old) (O.faults out.old) writer.old.buffer) (page (O.written out.new) (O.faults out.new) writer.new.buffer) result }
    ensures ready { OnOk result (IsReady (scene_of task.now) writer.new) }
    ensures along { OnOk result (IsAlong (scene_of task.now) crew.new (reached_of writer.new)) }
    ensures sent { OnOk result (writer.new.buffer.bytes ≡ []) }
    ensures fewer { OnOk result (rounds_left (scene_of task.now) crew.new writer.new.surface.sites < rounds_left (scene_of task.now) crew.old writer.old.surface.sites) }
    ensures limited { IsErrOf result Stop.Limit → IsPastLimit (scene_of task.now) crew.new }
    ensures same { IsSameCrew crew.old crew.new }
    ensures seen { OnOk result (W.has_seen observer.new task.now.plan.now (first_in crew.new) (handed_by crew.new)) }
    ensures mark { W.mark observer.new ≡ W.mark observer.old }
{
    let events = match crew.round(rt, gate) {
        Ok(events) => events,
        Err(NoMemory) => return Err(Stop::Memory),
    };
    write_and_tell(rt, task, writer, out, observer, events.as_slice())
}

/// Makes rounds until the crew is finished, and writes what they hand out and the end.
fn make_rounds<R: Threads + Sync, O: Sink, G: Gate, W: Observer<R>>(
    rt: &R,
    gate: &G,
    task: &Task,
    crew: &mut Crew,
    writer: &mut Writer,
    out: &mut O,
    observer: &mut W,
) -> Result<(), Stop>
    requires limit { task.now.span.limit < 2 ^ 64 - 1 }
    requires ready { IsReady (scene_of task.now) writer.old }
    requires along { IsAlong (scene_of task.now) crew.old (reached_of writer.old) }
    requires seen { W.has_seen observer.old task.now.plan.now (first_in crew.old) (handed_by crew.old) }
    ensures ends { Ends (scene_of task.now) (reached_of writer.old) (page (O.written out.old) (O.faults out.old) writer.old.buffer) (page (O.written out.new) (O.faults out.new) writer.new.buffer) result }
    ensures finished { OnOk result (crew.new.horizon ≡ end_key (world_in crew.new)) }
    ensures limited { IsErrOf result Stop.Limit → IsPastLimit (scene_of task.now) crew.new }
    ensures same { IsSameCrew crew.old crew.new }
    ensures seen { OnOk result (W.has_seen observer.new task.now.plan.now (first_in crew.new) (handed_by crew.new)) }
    ensures mark { W.mark observer.new ≡ W.mark observer.old }
{
    while !crew.finished() {
        match write_round(rt, gate, task, crew, writer, out, observer) {
            Ok(()) => {}
            Err(stop) => return Err(stop),
        }
    }
    writer.end(task, out)
}

/// Runs a crew from its first surface on, and writes its run text with a writer that has written nothing of it. All that a
/// round hands out has gone out, and the observer was told of it, before the next round begins. Where the run has more events
/// than the limit, the text ends there; after a fault of the sink, and where memory runs out, a prefix of the text was
/// written.
pub fn write_rounds<R: Threads + Sync, O: Sink, G: Gate, W: Observer<R>>(
    rt: &R,
    gate: &G,
    task: &Task,
    crew: &mut Crew,
    writer: &mut Writer,
    out: &mut O,
    observer: &mut W,
) -> Result<(), Stop>
    requires may { MayRun (scene_of task.now) crew.old }
    requires limit { task.now.span.limit < 2 ^ 64 - 1 }
    requires begins { Begins task.now.span crew.old.start writer.old }
    requires seen { W.has_seen observer.old task.now.plan.now crew.old.start.sites [] }
    ensures run { HasRun result (scene_of task.now) crew.old crew.new (O.written out.old) (O.written out.new) (O.faults out.old) (O.faults out.new) }
    ensures seen { OnOk result (W.has_seen observer.new task.now.plan.now crew.old.start.sites (events_of (scene_of task.now) crew.old.start.sites)) }
    ensures mark { W.mark observer.new ≡ W.mark observer.old }
{
    make_rounds(rt, gate, task, crew, writer, out, observer)
}

/// Runs a crew from its first surface on, and writes its run text with a writer of its own, as [`write_rounds`] does.
pub fn write_run<R: Threads + Sync, O: Sink, G: Gate, W: Observer<R>>(
    rt: &R,
    gate: &G,
    alloc: Global,
    task: &Task,
    crew: &mut Crew,
    surface: Surface,
    out: &mut O,
    observer: &mut W,
) -> Result<(), Stop>
    requires may { MayRun (scene_of task.now) crew.old }
    requires samples { task.now.span.samples ≤ 10000 }
    requires limit { task.now.span.limit < 2 ^ 64 - 1 }
    requires start { crew.old.start ≡ surface }
    requires seen { W.has_seen observer.old task.now.plan.now crew.old.start.sites [] }
    ensures run { HasRun result (scene_of task.now) crew.old crew.new (O.written out.old) (O.written out.new) (O.faults out.old) (O.faults out.new) }
    ensures seen { OnOk result (W.has_seen observer.new task.now.plan.now crew.old.start.sites (events_of (scene_of task.now) crew.old.start.sites)) }
    ensures mark { W.mark observer.new ≡ W.mark observer.old }
{
    let mut writer = Writer::new(alloc, surface, task.span);
    write_rounds(rt, gate, task, crew, &mut writer, out, observer)
}
