//! A run with viewers beside it.

ghost use Rattle.std.specs.Prelude.{◌≡◌, ◌<◌, ◌≤◌, ◌+◌, ◌-◌, ◌^◌, List, [], All, length, vec_len, OnOk, IfOk, IfErr};
ghost use Rattle.surf_kinds.specs.declared.site.SiteState.{SiteState as TheSite};
ghost use Rattle.watching.specs.Published.{HasPublished};
ghost use Rattle.watching.specs.Viewing.{IsAt};
ghost use Rattle.run_writer.specs.RunText.{events_of};
ghost use Rattle.run_writer.specs.Runs.{HasRun, MayRun};
ghost use Rattle.run_writer.specs.Writing.{scene_of, Begins};
ghost use Rattle.watch_run.specs.Seats.{AreLinesOf, AreSeats};

use crew::Crew;
use frames::FrameReader;
use run_writer::{Stop, Task, Writer, write_rounds};
use std::alloc::Global;
use std::sync::Wait;
use std::thread::{Threads, join_mut};
use surf_kinds::NoMemory;
use surf_outside::{Gate, Sink};
use surface_state::Surface;
use viewer::Viewer;
use watching::{Publisher, finish, sample_all, seats, views_of};

/// Where viewers sit, and how long.
#[derive(Clone, Copy)]
pub struct Seats {
    /// How many viewers, from 1 to 16.
    pub viewers: u32,
    /// How many samples each takes, from 1 to 1,000.
    pub frames: u32,
}

/// Makes the rounds of a run, tells the publisher of each, and writes the run text. Beside them each viewer takes so many
/// samples.
fn run_beside<R: Threads + Wait + Sync, O: Sink + Send, G: Gate>(
    rt: &R,
    gate: &G,
    task: &Task,
    publisher: &mut Publisher,
    viewers: &mut Vec<Viewer>,
    before: u32,
    crew: &mut Crew,
    writer: &mut Writer,
    out: &mut O,
) -> Result<(), Stop>
    requires may { MayRun (scene_of task.now) crew.old }
    requires limit { task.now.span.limit < 2 ^ 64 - 1 }
    requires begins { Begins task.now.span crew.old.start writer.old }
    requires published { HasPublished task.now.plan.now crew.old.start.sites [] publisher.old }
    requires viewers { All (IsAt publisher.old.writer.name 0 (before + 1)) viewers.old.items }
    ensures run { HasRun result (scene_of task.now) crew.old crew.new (O.written out.old) (O.written out.new) (O.faults out.old) (O.faults out.new) }
    ensures published { OnOk result (HasPublished task.now.plan.now crew.old.start.sites (events_of (scene_of task.now) crew.old.start.sites) publisher.new) }
    ensures name { publisher.new.writer.name ≡ publisher.old.writer.name }
    ensures number { vec_len viewers.new ≡ vec_len viewers.old }
    ensures sampled { All (IsAt publisher.old.writer.name before 1) viewers.new.items }
{
    let (run, ()) = join_mut(
        rt,
        &mut || -> Result<(), Stop>
            requires may { MayRun (scene_of task.now) crew.now }
            requires limit { task.now.span.limit < 2 ^ 64 - 1 }
            requires begins { Begins task.now.span crew.now.start writer.now }
            requires published { HasPublished task.now.plan.now crew.now.start.sites [] publisher.now }
        { write_rounds(rt, gate, task, crew, writer, out, publisher) },
        &mut || sample_all(viewers, before),
    );
    run
}

/// Lets each viewer learn what was published and take its last sample. Gives the lines of all samples.
fn last_lines(
    alloc: Global,
    task: &Task,
    publisher: &mut Publisher,
    viewers: &mut Vec<Viewer>,
    before: u32,
) -> Result<Vec<u8>, Stop>
    requires viewers { All (IsAt publisher.old.writer.name before 1) viewers.old.items }
    requires kinds { length publisher.old.writer.name.start ≡ length task.now.names.now }
    ensures lines { (sites : List TheSite) → HasPublished task.now.plan.now sites (events_of (scene_of task.now) sites) publisher.old →
        IfOk result (λ lines. AreLinesOf (record { viewers = vec_len viewers.old; frames = before + 1 }) (scene_of task.now) sites lines.items) }
    ensures stop { IfErr result (λ stop. stop ≡ Stop.Memory) }
{
    match finish(publisher, viewers, before) {
        Ok(()) => {}
        Err(NoMemory) => return Err(Stop::Memory),
    }
    match views_of(alloc, task.names, viewers) {
        Ok(lines) => Ok(lines),
        Err(_) => Err(Stop::Memory),
    }
}

/// Runs a crew from its first surface on before viewers that sit in the readers' seats, each for so many samples, and
/// writes its run text. Gives the viewers' lines.
fn show_run<R: Threads + Wait + Sync, O: Sink + Send, G: Gate>(
    rt: &R,
    gate: &G,
    alloc: Global,
    task: &Task,
    publisher: &mut Publisher,
    readers: Vec<FrameReader>,
    frames: u32,
    crew: &mut Crew,
    surface: Surface,
    out: &mut O,
) -> Result<Vec<u8>, Stop>
    requires published { HasPublished task.now.plan.now crew.old.start.sites [] publisher.old }
    requires readers { All (λ r. r.writer ≡ publisher.old.writer.name) readers.items }
    requires kinds { length publisher.old.writer.name.start ≡ surface.species_count }
    requires frames { 1 ≤ frames }
    requires may { MayRun (scene_of task.now) crew.old }
    requires samples { task.now.span.samples ≤ 10000 }
    requires limit { task.now.span.limit < 2 ^ 64 - 1 }
    requires start { crew.old.start ≡ surface }
    ensures run { HasRun result (scene_of task.now) crew.old crew.new (O.written out.old) (O.written out.new) (O.faults out.old) (O.faults out.new) }
    ensures lines { IfOk result (λ lines. AreLinesOf (record { viewers = vec_len readers; frames = frames }) (scene_of task.now) crew.old.start.sites lines.items) }
{
    let kinds = surface.species_count();
    let mut viewers = match seats(alloc, publisher, readers, frames, kinds) {
        Ok(viewers) => viewers,
        Err(NoMemory) => return Err(Stop::Memory),
    };
    let before = frames - 1;
    let mut writer = Writer::new(alloc, surface, task.span);
    match run_beside(
        rt,
        gate,
        task,
        publisher,
        &mut viewers,
        before,
        crew,
        &mut writer,
        out,
    ) {
        Ok(()) => last_lines(alloc, task, publisher, &mut viewers, before),
        Err(stop) => Err(stop),
    }
}

/// Runs a crew from its first surface on before viewers, and writes its run text as it is written without them. Gives the
/// viewers' lines. Where the run has more events than the limit, the text ends there; after a fault of the sink, and where
/// memory runs out, a prefix of the text was written. It may wait for the viewers.
pub fn run_watched<R: Threads + Wait + Sync, O: Sink + Send, G: Gate>(
    rt: &R,
    gate: &G,
    alloc: Global,
    task: &Task,
    seats: Seats,
    crew: &mut Crew,
    surface: Surface,
    out: &mut O,
) -> Result<Vec<u8>, Stop>
    requires seats { AreSeats seats }
    requires may { MayRun (scene_of task.now) crew.old }
    requires samples { task.now.span.samples ≤ 10000 }
    requires limit { task.now.span.limit < 2 ^ 64 - 1 }
    requires start { crew.old.start ≡ surface }
    ensures run { HasRun result (scene_of task.now) crew.old crew.new (O.written out.old) (O.written out.new) (O.faults out.old) (O.faults out.new) }
    ensures lines { IfOk result (λ lines. AreLinesOf seats (scene_of task.now) crew.old.start.sites lines.items) }
{
    let (mut publisher, readers) = match Publisher::open(rt, alloc, &surface, seats.viewers) {
        Ok(ends) => ends,
        Err(NoMemory) => return Err(Stop::Memory),
    };
    let run = show_run(
        rt,
        gate,
        alloc,
        task,
        &mut publisher,
        readers,
        seats.frames,
        crew,
        surface,
        out,
    );
    publisher.end(rt);
    run
}
