//! What a run writes: events in the order of the history, and the surfaces between them.

ghost use Rattle.std.specs.Prelude.{◌≡◌, ◌+◌, ◌^◌, ◌<◌, ◌≤◌, [], length, Some, None, OnOk, IsErrOf};
ghost use Rattle.lattice.specs.Places.{IsPlace};
ghost use Rattle.lattice.specs.Surface.{after, after_all};
ghost use Rattle.trace_text.specs.Lines.{event_text, surface_text, end_text, limit_text};
ghost use Rattle.run_writer.specs.Pages.{page, Puts, StopsWith};
ghost use Rattle.run_writer.specs.RunText.{shown, ticks_before, ticks_from};
ghost use Rattle.plan.specs.History.{due, AreNext};
ghost use Rattle.run_writer.specs.Writing.{scene_of, reached_of, Begins, IsReady, Advances, Ends};

use crate::buffer::Buffer;
use crate::pages::{Stop, flush, flush_much};
use crate::surfaces::put_lines;
use crate::ticks::Ticks;
use ordered_commit::{EventLimit, Tally};
use plan::Plan;
use species::Names;
use std::alloc::Global;
use surf_kinds::{Event, SpeciesId};
use surf_outside::{Failed, Sink};
use surface_state::Surface;
use trace_text::{write_end, write_event, write_limit, write_surface};

/// The duration in ticks, how many surfaces are shown, and how many events at most.
#[derive(Clone, Copy, Debug, PartialEq, Eq)]
pub struct Span {
    pub until: u64,
    pub samples: u64,
    pub limit: u64,
}

/// What is run and written.
#[derive(Clone, Copy)]
pub struct Task<'a> {
    pub names: &'a Names,
    pub plan: &'a Plan,
    pub span: Span,
}

/// How many bytes the names in a line of a surface may have for the line to be held in memory.
const LONG: usize = 8_388_608;

/// Whether a line of a surface may have more bytes, since some name is long.
fn is_long(names: &Names, surface: &Surface) -> bool {
    let mut longest = 0;
    for id in 0..names.count() {
        longest = names.name(SpeciesId(id as u16)).len().max(longest);
    }
    let most = names.count().max(surface.lattice().cols());
    longest.saturating_mul(most as usize) > LONG
}

/// Writes the text of a run from its events, which are handed to it in the order of the history, in lists of any
/// length. At the end of each list all of it has gone out. It has a surface of its own, on which the events happen again.
#[derive(Drop)]
pub struct Writer {
    surface: Surface,
    tally: Tally,
    /// How many events were written.
    events: u64,
    /// Those at which the surface is still to be shown.
    ticks: Ticks,
    buffer: Buffer,
}

impl Writer {
    /// A writer that has written nothing of the run of this surface.
    pub fn new(alloc: Global, surface: Surface, span: Span) -> Writer
        requires duration { span.until ≤ 10 ^ 15 }
        requires samples { span.samples ≤ 10000 }
        ensures { Begins span surface result }
    {
        Writer {
            surface,
            tally: Tally::new(span.limit),
            events: 0,
            ticks: Ticks::new(span.until, span.samples),
            buffer: Buffer::new(alloc),
        }
    }

    /// Writes the next events of the surface.
    pub(crate) fn write_events<O: Sink>(
        &mut self,
        task: &Task,
        out: &mut O,
        events: &[Event],
    ) -> Result<(), Stop>
        requires ready { IsReady (scene_of task.now) self.old }
        requires next { AreNext task.now.plan.now task.now.span.until self.old.surface.sites events.now }
        ensures advances { Advances (scene_of task.now) (reached_of self.old) (reached_of self.new) (page (O.written out.old) (O.faults out.old) self.old.buffer) (page (O.written out.new) (O.faults out.new) self.new.buffer) result }
        ensures count { OnOk result (self.new.events ≡ self.old.events + length events.now) }
        ensures limit { IsErrOf result Stop.Limit → task.now.span.limit < self.old.events + length events.now }
        ensures sites { OnOk result (self.new.surface.sites ≡ after_all task.now.plan.now.lattice task.now.plan.now.rules self.old.surface.sites events.now) }
        ensures ready { OnOk result (IsReady (scene_of task.now) self.new) }
        ensures sent { OnOk result (self.new.buffer.bytes ≡ []) }
    {
        for event in events {
            match self.write_event(task, out, *event) {
                Ok(()) => {}
                Err(stop) => return Err(stop),
            }
        }
        flush(out, &mut self.buffer)
    }

    /// Writes the end of the run, where the surface has no more events.
    pub(crate) fn end<O: Sink>(&mut self, task: &Task, out: &mut O) -> Result<(), Stop>
        requires ready { IsReady (scene_of task.now) self.old }
        requires last { due task.now.plan.now task.now.span.until self.old.surface.sites ≡ None }
        ensures { Ends (scene_of task.now) (reached_of self.old) (page (O.written out.old) (O.faults out.old) self.old.buffer) (page (O.written out.new) (O.faults out.new) self.new.buffer) result }
    {
        match self.show(task, out, task.span.until + 1) {
            Ok(()) => {}
            Err(stop) => return Err(stop),
        }
        match write_end(&mut self.buffer, task.span.until, self.events) {
            Ok(()) => flush(out, &mut self.buffer),
            Err(Failed) => Err(Stop::Memory),
        }
    }

    /// Writes the next event, and the surfaces before it; or that it is one more than the limit.
    fn write_event<O: Sink>(&mut self, task: &Task, out: &mut O, event: Event) -> Result<(), Stop>
        requires ready { IsReady (scene_of task.now) self.old }
        requires due { due task.now.plan.now task.now.span.until self.old.surface.sites ≡ Some event }
        ensures advances { Advances (scene_of task.now) (reached_of self.old) (reached_of self.new) (page (O.written out.old) (O.faults out.old) self.old.buffer) (page (O.written out.new) (O.faults out.new) self.new.buffer) result }
        ensures count { OnOk result (self.new.events ≡ self.old.events + 1) }
        ensures limit { IsErrOf result Stop.Limit → self.old.events ≡ task.now.span.limit }
        ensures sites { OnOk result (self.new.surface.sites ≡ after task.now.plan.now.lattice task.now.plan.now.rules self.old.surface.sites event) }
        ensures ready { OnOk result (IsReady (scene_of task.now) self.new) }
    {
        match self.show(task, out, event.time) {
            Ok(()) => {}
            Err(stop) => return Err(stop),
        }
        match self.tally.admit() {
            Ok(number) => self.events = number,
            Err(EventLimit { limit }) => return Err(self.stop_at_limit(out, limit)),
        }
        self.surface.apply(event, task.plan.products(event.channel));
        self.put_event(task, out, event)
    }

    /// Writes the surfaces of the sampling ticks before a time.
    fn show<O: Sink>(&mut self, task: &Task, out: &mut O, time: u64) -> Result<(), Stop>
        requires ready { IsReady (scene_of task.now) self.old }
        ensures puts { Puts (page (O.written out.old) (O.faults out.old) self.old.buffer) (page (O.written out.new) (O.faults out.new) self.new.buffer) (shown (scene_of task.now) (reached_of self.old) (ticks_before time self.old.ticks)) result }
        ensures rest { OnOk result (self.new ≡ record self.old { ticks = ticks_from time self.old.ticks; buffer = self.new.buffer }) }
    {
        while let Some(tick) = self.ticks.before(time) {
            match self.put_surface(task, out, tick) {
                Ok(()) => {}
                Err(stop) => return Err(stop),
            }
        }
        Ok(())
    }

    /// Writes the surface as it stands, line by line, or past the buffer where a line may be long.
    fn put_surface<O: Sink>(&mut self, task: &Task, out: &mut O, tick: u64) -> Result<(), Stop>
        requires lattice { self.old.surface.lattice ≡ task.now.plan.now.lattice }
        requires species_count { self.old.surface.species_count ≡ length task.now.names.now }
        ensures puts { Puts (page (O.written out.old) (O.faults out.old) self.old.buffer) (page (O.written out.new) (O.faults out.new) self.new.buffer) (surface_text task.now.names.now task.now.plan.now.lattice self.old.surface.sites tick self.old.events) result }
        ensures rest { self.new ≡ record self.old { buffer = self.new.buffer } }
    {
        if is_long(task.names, &self.surface) {
            return self.send_surface(task, out, tick);
        }
        let lattice = task.plan.lattice();
        put_lines(
            out,
            &mut self.buffer,
            task.names,
            lattice,
            &self.surface,
            tick,
            self.events,
        )
    }

    /// Sends what waits and then the surface as it stands, name by name, so that no line of it is held in memory.
    fn send_surface<O: Sink>(&mut self, task: &Task, out: &mut O, tick: u64) -> Result<(), Stop>
        requires lattice { self.old.surface.lattice ≡ task.now.plan.now.lattice }
        requires species_count { self.old.surface.species_count ≡ length task.now.names.now }
        ensures puts { Puts (page (O.written out.old) (O.faults out.old) self.old.buffer) (page (O.written out.new) (O.faults out.new) self.new.buffer) (surface_text task.now.names.now task.now.plan.now.lattice self.old.surface.sites tick self.old.events) result }
        ensures rest { self.new ≡ record self.old { buffer = self.new.buffer } }
    {
        match flush(out, &mut self.buffer) {
            Ok(()) => {}
            Err(stop) => return Err(stop),
        }
        let lattice = task.plan.lattice();
        match write_surface(out, task.names, lattice, &self.surface, tick, self.events) {
            Ok(()) => Ok(()),
            Err(Failed) => Err(Stop::Write),
        }
    }

    /// Writes the line of an event.
    fn put_event<O: Sink>(&mut self, task: &Task, out: &mut O, event: Event) -> Result<(), Stop>
        requires { IsPlace task.now.plan.now.lattice event.place.0 }
        ensures puts { Puts (page (O.written out.old) (O.faults out.old) self.old.buffer) (page (O.written out.new) (O.faults out.new) self.new.buffer) (event_text task.now.plan.now.lattice.cols event) result }
        ensures rest { self.new ≡ record self.old { buffer = self.new.buffer } }
    {
        match write_event(&mut self.buffer, task.plan.lattice(), event) {
            Ok(()) => flush_much(out, &mut self.buffer),
            Err(Failed) => Err(Stop::Memory),
        }
    }

    /// Writes the limit line, and sends all that waits.
    fn stop_at_limit<O: Sink>(&mut self, out: &mut O, limit: u64) -> Stop
        ensures { StopsWith (page (O.written out.old) (O.faults out.old) self.old.buffer) (page (O.written out.new) (O.faults out.new) self.new.buffer) (limit_text limit) result }
    {
        match write_limit(&mut self.buffer, limit) {
            Ok(()) => {}
            Err(Failed) => return Stop::Memory,
        }
        match flush(out, &mut self.buffer) {
            Ok(()) => Stop::Limit,
            Err(stop) => stop,
        }
    }
}
