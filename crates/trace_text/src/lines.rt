//! The lines of a run.

ghost use Rattle.std.specs.Prelude.{◌≡◌, ◌^◌, ◌<◌, ◌≤◌, ◌++◌, ◌∷◌, [], length, OnOk, OnErr};
ghost use Rattle.std.specs.Io.KnownBytes.{Appends};
ghost use Rattle.surf_outside.specs.Causes.{HasCause};
ghost use Rattle.surf_outside.specs.Known.{AppendsPrefix};
ghost use Rattle.surf_kinds.specs.Steps.{site_of_place};
ghost use Rattle.lattice.specs.Places.{IsPlace};
ghost use Rattle.surf_outside.specs.Puts.{Puts};
ghost use Rattle.surface_rows.specs.Rows.{name_of, row_line, rows_text};
ghost use Rattle.trace_text.specs.Lines.{direction as direction_text, event_text, heading_text, cells_of, count_text, counts_text, surface_text, end_text, limit_text};

use crate::line::Line;
use lattice::Lattice;
use species::Names;
use surf_kinds::{Event, SpeciesId, Step, rule_of_channel, way_of_channel};
use surf_outside::{Failed, Sink, put};
use surface_rows::{name_bytes, write_row_of, write_rows};
use surface_state::Surface;

/// The direction of a place from its first site; a number that is no place has none.
#[inline]
fn direction(step: Option<Step>) -> &'static str
    ensures text { result.now ≡ direction_text step }
    ensures short { length result.now ≤ 9 }
{
    match step {
        Some(Step::Alone) => "self",
        Some(Step::East) => "east",
        Some(Step::South) => "south",
        Some(Step::SouthWest) => "southwest",
        None => "",
    }
}

/// The line of an event, on a lattice of so many columns.
fn event_line(cols: u32, event: Event) -> Line
    requires cols { 0 < cols }
    requires site { site_of_place event.place.0 < 2 ^ 32 }
    ensures { result ≡ event_text cols event }
{
    let site = event.place.site() as u32;
    let mut line = Line::new();
    line.text(b"\n");
    line.number(u64::from(way_of_channel(event.channel)));
    line.text(b" ");
    line.number(u64::from(rule_of_channel(event.channel)));
    line.text(b" ");
    line.text(direction(event.place.step()).as_bytes());
    line.text(b" ");
    line.number(u64::from(site % cols));
    line.text(b" ");
    line.number(u64::from(site / cols));
    line.text(b" ");
    line.number(event.time);
    line.text(b"event ");
    line
}

/// Writes the line of an event. After a fault of the sink a prefix of it was written, here and in the other calls.
pub fn write_event<O: Sink>(out: &mut O, lattice: &Lattice, event: Event) -> Result<(), Failed>
    requires { IsPlace lattice.now event.place.0 }
    ensures ok { OnOk result (Appends (O.written out.old) (O.written out.new) (event_text lattice.now.cols event)) }
    ensures err { OnErr result (AppendsPrefix (O.written out.old) (O.written out.new) (event_text lattice.now.cols event)) }
    ensures cause { HasCause (O.faults out.old) (O.faults out.new) result }
{
    let line = event_line(lattice.cols(), event);
    put(out, line.bytes())
}

/// Writes the first line of a surface.
pub fn write_heading<O: Sink>(out: &mut O, tick: u64, events: u64) -> Result<(), Failed>
    ensures { Puts (O.written out.old) (O.written out.new) (O.faults out.old) (O.faults out.new) (heading_text tick events) result }
{
    let line = Line::pair(b"surface ", tick, events);
    put(out, line.bytes())
}

/// Writes the name of a species, with a space before it.
fn write_name<O: Sink>(out: &mut O, names: &Names, species: SpeciesId) -> Result<(), Failed>
    requires { species.0 < length names.now }
    ensures { Puts (O.written out.old) (O.written out.new) (O.faults out.old) (O.faults out.new) (32 ∷ name_of names.now species) result }
{
    put(out, b" ")?;
    put(out, name_bytes(names, species))
}

/// Writes a species with its count.
fn write_count<O: Sink>(
    out: &mut O,
    names: &Names,
    surface: &Surface,
    species: SpeciesId,
) -> Result<(), Failed>
    requires species_count { surface.now.species_count ≡ length names.now }
    requires species { species.0 < length names.now }
    ensures { Puts (O.written out.old) (O.written out.new) (O.faults out.old) (O.faults out.new) (count_text names.now surface.now.sites species.0) result }
{
    write_name(out, names, species)?;
    let mut line = Line::new();
    line.number(u64::from(surface.count(species)));
    line.text(b":");
    put(out, line.bytes())
}

/// Writes the last line of a surface: how many sites each species has. Each name goes out by a call of its own.
pub fn write_counts<O: Sink>(out: &mut O, names: &Names, surface: &Surface) -> Result<(), Failed>
    requires { surface.now.species_count ≡ length names.now }
    ensures { Puts (O.written out.old) (O.written out.new) (O.faults out.old) (O.faults out.new) (counts_text names.now surface.now.sites) result }
{
    put(out, b"counts")?;
    for species in 0..surface.species_count() {
        write_count(out, names, surface, SpeciesId(species as u16))?;
    }
    put(out, b"\n")
}

/// Writes the line of a row of a surface. Each name goes out by a call of its own.
pub fn write_surface_row<O: Sink>(
    out: &mut O,
    names: &Names,
    lattice: &Lattice,
    surface: &Surface,
    row: u32,
) -> Result<(), Failed>
    requires lattice { surface.now.lattice ≡ lattice.now }
    requires species_count { surface.now.species_count ≡ length names.now }
    requires row { row < lattice.now.rows }
    ensures { Puts (O.written out.old) (O.written out.new) (O.faults out.old) (O.faults out.new) (row_line names.now lattice.now.cols (cells_of surface.now.sites) row ++ 10 ∷ []) result }
{
    write_row_of(out, names, lattice.cols(), surface.cells(), row)
}

/// Writes the rows of a surface.
fn write_surface_rows<O: Sink>(
    out: &mut O,
    names: &Names,
    lattice: &Lattice,
    surface: &Surface,
) -> Result<(), Failed>
    requires lattice { surface.now.lattice ≡ lattice.now }
    requires species_count { surface.now.species_count ≡ length names.now }
    ensures { Puts (O.written out.old) (O.written out.new) (O.faults out.old) (O.faults out.new) (rows_text names.now lattice.now.rows lattice.now.cols (cells_of surface.now.sites)) result }
{
    write_rows(out, names, lattice.rows(), lattice.cols(), surface.cells())
}

/// Writes a surface: its tick with the number of events so far, its rows, and how many sites each species has. Each
/// name goes out by a call of its own, so this takes no memory, however large the surface.
pub fn write_surface<O: Sink>(
    out: &mut O,
    names: &Names,
    lattice: &Lattice,
    surface: &Surface,
    tick: u64,
    events: u64,
) -> Result<(), Failed>
    requires lattice { surface.now.lattice ≡ lattice.now }
    requires species_count { surface.now.species_count ≡ length names.now }
    ensures ok { OnOk result (Appends (O.written out.old) (O.written out.new) (surface_text names.now lattice.now surface.now.sites tick events)) }
    ensures err { OnErr result (AppendsPrefix (O.written out.old) (O.written out.new) (surface_text names.now lattice.now surface.now.sites tick events)) }
    ensures cause { HasCause (O.faults out.old) (O.faults out.new) result }
{
    write_heading(out, tick, events)?;
    write_surface_rows(out, names, lattice, surface)?;
    write_counts(out, names, surface)
}

/// Writes the last line of a run: its duration in ticks, and the number of its events.
pub fn write_end<O: Sink>(out: &mut O, until: u64, events: u64) -> Result<(), Failed>
    ensures ok { OnOk result (Appends (O.written out.old) (O.written out.new) (end_text until events)) }
    ensures err { OnErr result (AppendsPrefix (O.written out.old) (O.written out.new) (end_text until events)) }
    ensures cause { HasCause (O.faults out.old) (O.faults out.new) result }
{
    let line = Line::pair(b"end ", until, events);
    put(out, line.bytes())
}

/// Writes the last line of a run that has more events than the limit.
pub fn write_limit<O: Sink>(out: &mut O, limit: u64) -> Result<(), Failed>
    ensures ok { OnOk result (Appends (O.written out.old) (O.written out.new) (limit_text limit)) }
    ensures err { OnErr result (AppendsPrefix (O.written out.old) (O.written out.new) (limit_text limit)) }
    ensures cause { HasCause (O.faults out.old) (O.faults out.new) result }
{
    let mut line = Line::new();
    line.text(b"\n");
    line.number(limit);
    line.text(b"limit ");
    put(out, line.bytes())
}
