//! The text of a surface, which goes out in pieces of many lines.

ghost use Rattle.std.specs.Prelude.{◌≡◌, ◌<◌, ◌++◌, ◌∷◌, [], length};
ghost use Rattle.surface_rows.specs.Rows.{row_line, rows_text};
ghost use Rattle.trace_text.specs.Lines.{heading_text, cells_of, counts_text, surface_text};
ghost use Rattle.run_writer.specs.Pages.{page, Puts};

use crate::buffer::Buffer;
use crate::pages::{Stop, flush_much};
use lattice::Lattice;
use species::Names;
use surf_outside::{Failed, Sink};
use surface_state::Surface;
use trace_text::{write_counts, write_heading, write_surface_row};

/// Writes the first line of a surface.
fn put_heading<O: Sink>(
    out: &mut O,
    buffer: &mut Buffer,
    tick: u64,
    events: u64,
) -> Result<(), Stop>
    ensures { Puts (page (O.written out.old) (O.faults out.old) buffer.old) (page (O.written out.new) (O.faults out.new) buffer.new) (heading_text tick events) result }
{
    match write_heading(buffer, tick, events) {
        Ok(()) => flush_much(out, buffer),
        Err(Failed) => Err(Stop::Memory),
    }
}

/// Writes the line of a row.
fn put_row<O: Sink>(
    out: &mut O,
    buffer: &mut Buffer,
    names: &Names,
    lattice: &Lattice,
    surface: &Surface,
    row: u32,
) -> Result<(), Stop>
    requires lattice { surface.now.lattice ≡ lattice.now }
    requires species_count { surface.now.species_count ≡ length names.now }
    requires row { row < lattice.now.rows }
    ensures { Puts (page (O.written out.old) (O.faults out.old) buffer.old) (page (O.written out.new) (O.faults out.new) buffer.new) (row_line names.now lattice.now.cols (cells_of surface.now.sites) row ++ 10 ∷ []) result }
{
    match write_surface_row(buffer, names, lattice, surface, row) {
        Ok(()) => flush_much(out, buffer),
        Err(Failed) => Err(Stop::Memory),
    }
}

/// Writes the lines of all rows.
fn put_rows<O: Sink>(
    out: &mut O,
    buffer: &mut Buffer,
    names: &Names,
    lattice: &Lattice,
    surface: &Surface,
) -> Result<(), Stop>
    requires lattice { surface.now.lattice ≡ lattice.now }
    requires species_count { surface.now.species_count ≡ length names.now }
    ensures { Puts (page (O.written out.old) (O.faults out.old) buffer.old) (page (O.written out.new) (O.faults out.new) buffer.new) (rows_text names.now lattice.now.rows lattice.now.cols (cells_of surface.now.sites)) result }
{
    for row in 0..lattice.rows() {
        match put_row(out, buffer, names, lattice, surface, row) {
            Ok(()) => {}
            Err(stop) => return Err(stop),
        }
    }
    Ok(())
}

/// Writes the line of the counts.
fn put_counts<O: Sink>(
    out: &mut O,
    buffer: &mut Buffer,
    names: &Names,
    surface: &Surface,
) -> Result<(), Stop>
    requires { surface.now.species_count ≡ length names.now }
    ensures { Puts (page (O.written out.old) (O.faults out.old) buffer.old) (page (O.written out.new) (O.faults out.new) buffer.new) (counts_text names.now surface.now.sites) result }
{
    match write_counts(buffer, names, surface) {
        Ok(()) => flush_much(out, buffer),
        Err(Failed) => Err(Stop::Memory),
    }
}

/// Writes a surface. No more than a line of it is held, and what had not gone out before.
pub(crate) fn put_lines<O: Sink>(
    out: &mut O,
    buffer: &mut Buffer,
    names: &Names,
    lattice: &Lattice,
    surface: &Surface,
    tick: u64,
    events: u64,
) -> Result<(), Stop>
    requires lattice { surface.now.lattice ≡ lattice.now }
    requires species_count { surface.now.species_count ≡ length names.now }
    ensures { Puts (page (O.written out.old) (O.faults out.old) buffer.old) (page (O.written out.new) (O.faults out.new) buffer.new) (surface_text names.now lattice.now surface.now.sites tick events) result }
{
    match put_heading(out, buffer, tick, events) {
        Ok(()) => {}
        Err(stop) => return Err(stop),
    }
    match put_rows(out, buffer, names, lattice, surface) {
        Ok(()) => {}
        Err(stop) => return Err(stop),
    }
    put_counts(out, buffer, names, surface)
}
