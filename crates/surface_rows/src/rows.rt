//! Rows of names.

ghost use Rattle.std.specs.Prelude.{◌≡◌, ◌+◌, ◌*◌, ◌^◌, ◌<◌, ◌≤◌, ◌++◌, ◌∷◌, [], length, map, All, OnOk, OnErr};
ghost use Rattle.std.specs.Io.KnownBytes.{Appends};
ghost use Rattle.surf_outside.specs.Causes.{HasCause};
ghost use Rattle.surf_outside.specs.Known.{AppendsPrefix};
ghost use Rattle.surf_outside.specs.Puts.{Puts};
ghost use Rattle.surface_rows.specs.Rows.{name_of, row_line, spaced, rows_text};

use species::Names;
use surf_kinds::SpeciesId;
use surf_outside::{Failed, Sink, put};

/// The bytes of a name.
pub fn name_bytes(names: &Names, id: SpeciesId) -> &[u8]
    requires { id.0 < length names.now }
    ensures { result.now ≡ name_of names.now id }
{
    names.name(id).as_bytes()
}

/// Writes a space and a name.
fn write_next<O: Sink>(out: &mut O, name: &[u8]) -> Result<(), Failed>
    ensures { Puts (O.written out.old) (O.written out.new) (O.faults out.old) (O.faults out.new) (32 ∷ name.now) result }
{
    put(out, b" ")?;
    put(out, name)
}

/// Writes names with one space between.
fn write_names<O: Sink>(out: &mut O, names: &Names, ids: &[SpeciesId]) -> Result<(), Failed>
    requires { All (λ s. s.0 < length names.now) ids.now }
    ensures { Puts (O.written out.old) (O.written out.new) (O.faults out.old) (O.faults out.new) (spaced (map (name_of names.now) ids.now)) result }
{
    let Some((first, others)) = ids.split_first() else {
        return Ok(());
    };
    put(out, name_bytes(names, *first))?;
    for id in others {
        write_next(out, name_bytes(names, *id))?;
    }
    Ok(())
}

/// Writes the line of a row.
fn write_row<O: Sink>(out: &mut O, names: &Names, row: &[SpeciesId]) -> Result<(), Failed>
    requires { All (λ s. s.0 < length names.now) row.now }
    ensures { Puts (O.written out.old) (O.written out.new) (O.faults out.old) (O.faults out.new) (spaced (map (name_of names.now) row.now) ++ 10 ∷ []) result }
{
    write_names(out, names, row)?;
    put(out, b"\n")
}

/// Writes the line of one row of a surface; `cells` has the species of each site, row by row. After a fault of the
/// sink a prefix of the line was written.
pub fn write_row_of<O: Sink>(
    out: &mut O,
    names: &Names,
    cols: u32,
    cells: &[SpeciesId],
    row: u32,
) -> Result<(), Failed>
    requires within { row * cols + cols ≤ length cells.now }
    requires few { length cells.now ≤ 2 ^ 20 }
    requires known { All (λ s. s.0 < length names.now) cells.now }
    ensures { Puts (O.written out.old) (O.written out.new) (O.faults out.old) (O.faults out.new) (row_line names.now cols cells.now row ++ 10 ∷ []) result }
{
    let cols = cols as usize;
    let from = row as usize * cols;
    write_row(out, names, &cells[from..from + cols])
}

/// Writes the rows of a surface, each as a line of names with one space between. `cells` has the species of each
/// site, row by row. After a fault of the sink a prefix of the text was written.
pub fn write_rows<O: Sink>(
    out: &mut O,
    names: &Names,
    rows: u32,
    cols: u32,
    cells: &[SpeciesId],
) -> Result<(), Failed>
    requires sites { length cells.now ≡ rows * cols }
    requires few { length cells.now ≤ 2 ^ 20 }
    requires known { All (λ s. s.0 < length names.now) cells.now }
    ensures ok { OnOk result (Appends (O.written out.old) (O.written out.new) (rows_text names.now rows cols cells.now)) }
    ensures err { OnErr result (AppendsPrefix (O.written out.old) (O.written out.new) (rows_text names.now rows cols cells.now)) }
    ensures cause { HasCause (O.faults out.old) (O.faults out.new) result }
{
    for row in 0..rows {
        write_row_of(out, names, cols, cells, row)?;
    }
    Ok(())
}
