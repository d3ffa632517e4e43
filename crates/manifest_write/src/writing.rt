//! The canonical text of a manifest.

ghost use Rattle.std.specs.Prelude.{◌≡◌, ◌<◌, ◌++◌, ◌∷◌, [], All, length, map, codes, OnOk, OnErr};
ghost use Rattle.std.specs.Io.KnownBytes.{Appends};
ghost use Rattle.surf_outside.specs.Causes.{HasCause};
ghost use Rattle.surf_outside.specs.Known.{AppendsPrefix};
ghost use Rattle.surf_outside.specs.Puts.{Puts};
ghost use Rattle.surface_rows.specs.Rows.{row_lines, rows_text, lines_text, name_of};
ghost use Rattle.manifest_read.specs.Manifest.{IsValid};
ghost use Rattle.manifest_read.specs.Sound.{IsKnownRule, IsSound};
ghost use Rattle.manifest_write.specs.Canon.{canonical_text, colour_lines, read_setting_lines, rule_line, setting_line};
ghost use Rattle.manifest_read.specs.Settings.{bool_text, kind_text};

use crate::pieces::{put_duration, put_pieces, put_rate};
use manifest_read::{LineList, Manifest, Setting, Text, bool_name, kind_name};
use species::Names;
use surf_kinds::Rule;
use surf_outside::{Failed, Sink, put};
use surf_text::Digits;
use surface_rows::{name_bytes, write_rows};

/// Writes the settings that the simulation reads.
fn write_read_settings<O: Sink>(out: &mut O, m: &Manifest) -> Result<(), Failed>
    ensures { Puts (O.written out.old) (O.written out.new) (O.faults out.old) (O.faults out.new) (lines_text (read_setting_lines m.now)) result }
{
    let seed = Digits::of(m.seed);
    let kind = kind_name(m.lattice.kind()).as_bytes();
    let wrap = bool_name(m.lattice.wrap()).as_bytes();
    put_pieces(out, &[b"rng_seed = ", seed.bytes(), b"\nmax_duration = "])?;
    put_duration(out, m.until)?;
    put_pieces(out, &[b"\nlattice = ", kind, b"\nwrap = ", wrap, b"\n"])
}

/// Writes another setting. Nothing stands behind the `=` of an empty value.
fn write_setting<O: Sink>(out: &mut O, setting: &Setting) -> Result<(), Failed>
    ensures { Puts (O.written out.old) (O.written out.new) (O.faults out.old) (O.faults out.new) (setting_line setting.now ++ 10 ∷ []) result }
{
    let name = setting.name.as_str().as_bytes();
    let value = setting.value.as_str().as_bytes();
    if value.is_empty() {
        return put_pieces(out, &[name, b" =\n"]);
    }
    put_pieces(out, &[name, b" = ", value, b"\n"])
}

/// Writes the other settings.
fn write_settings<O: Sink>(out: &mut O, settings: &[Setting]) -> Result<(), Failed>
    ensures { Puts (O.written out.old) (O.written out.new) (O.faults out.old) (O.faults out.new) (lines_text (map setting_line settings.now)) result }
{
    for setting in settings {
        write_setting(out, setting)?;
    }
    Ok(())
}

/// Writes a rule.
fn write_rule<O: Sink>(out: &mut O, names: &Names, rule: &Rule) -> Result<(), Failed>
    requires { IsKnownRule (length names.now) rule.now }
    ensures { Puts (O.written out.old) (O.written out.new) (O.faults out.old) (O.faults out.new) (rule_line names.now rule.now ++ 10 ∷ []) result }
{
    match *rule {
        Rule::One { rate, a, c } => {
            let a = name_bytes(names, a);
            let c = name_bytes(names, c);
            put_rate(out, rate)?;
            put_pieces(out, &[a, b" -> ", c, b"\n"])
        }
        Rule::Two { rate, a, b, c, d } => {
            let a = name_bytes(names, a);
            let b = name_bytes(names, b);
            let c = name_bytes(names, c);
            let d = name_bytes(names, d);
            put_rate(out, rate)?;
            put_pieces(out, &[a, b" + ", b, b" -> ", c, b" + ", d, b"\n"])
        }
    }
}

/// Writes the section of the rules.
fn write_rules<O: Sink>(out: &mut O, names: &Names, rules: &[Rule]) -> Result<(), Failed>
    requires { All (IsKnownRule (length names.now)) rules.now }
    ensures { Puts (O.written out.old) (O.written out.new) (O.faults out.old) (O.faults out.new) (lines_text (codes "!START_TRANSITION_RULES" ∷ map (rule_line names.now) rules.now ++ codes "!END_TRANSITION_RULES" ∷ [])) result }
{
    put(out, b"!START_TRANSITION_RULES\n")?;
    for rule in rules {
        write_rule(out, names, rule)?;
    }
    put(out, b"!END_TRANSITION_RULES\n")
}

/// Writes the rows of the surface.
fn put_rows<O: Sink>(out: &mut O, m: &Manifest) -> Result<(), Failed>
    requires { IsSound m.now }
    ensures { Puts (O.written out.old) (O.written out.new) (O.faults out.old) (O.faults out.new) (rows_text m.now.names m.now.lattice.rows m.now.lattice.cols m.now.cells) result }
{
    let rows = m.lattice.rows();
    let cols = m.lattice.cols();
    write_rows(out, &m.names, rows, cols, m.cells.as_slice())
}

/// Writes the section of the surface.
fn write_surface<O: Sink>(out: &mut O, m: &Manifest) -> Result<(), Failed>
    requires { IsSound m.now }
    ensures { Puts (O.written out.old) (O.written out.new) (O.faults out.old) (O.faults out.new) (lines_text (codes "!START_INIT_STATE" ∷ row_lines m.now.names m.now.lattice.rows m.now.lattice.cols m.now.cells ++ codes "!END_INIT_STATE" ∷ [])) result }
{
    put(out, b"!START_INIT_STATE\n")?;
    put_rows(out, m)?;
    put(out, b"!END_INIT_STATE\n")
}

/// Writes lines.
fn write_lines<O: Sink>(out: &mut O, lines: &[Text]) -> Result<(), Failed>
    ensures { Puts (O.written out.old) (O.written out.new) (O.faults out.old) (O.faults out.new) (lines_text lines.now) result }
{
    for line in lines {
        put_pieces(out, &[line.as_str().as_bytes(), b"\n"])?;
    }
    Ok(())
}

/// Writes the section of the colours, where it was there.
fn write_colours<O: Sink>(out: &mut O, colours: &Option<LineList>) -> Result<(), Failed>
    ensures { Puts (O.written out.old) (O.written out.new) (O.faults out.old) (O.faults out.new) (lines_text (colour_lines colours.now)) result }
{
    let Some(lines) = colours else {
        return Ok(());
    };
    put(out, b"!START_COLORMAP\n")?;
    write_lines(out, lines.as_slice())?;
    put(out, b"!END_COLORMAP\n")
}

/// Writes the canonical lines.
fn write_canon<O: Sink>(m: &Manifest, out: &mut O) -> Result<(), Failed>
    requires { IsSound m.now }
    ensures { Puts (O.written out.old) (O.written out.new) (O.faults out.old) (O.faults out.new) (canonical_text m.now) result }
{
    write_read_settings(out, m)?;
    write_settings(out, m.others.as_slice())?;
    write_rules(out, &m.names, m.rules.as_slice())?;
    write_surface(out, m)?;
    write_colours(out, &m.colours)
}

/// Writes the canonical text of a manifest that some text has. After a fault of the sink a prefix of it was written.
/// Takes no memory.
pub fn write_manifest<O: Sink>(m: &Manifest, out: &mut O) -> Result<(), Failed>
    requires valid { IsValid m.now }
    ensures ok { OnOk result (Appends (O.written out.old) (O.written out.new) (canonical_text m.now)) }
    ensures err { OnErr result (AppendsPrefix (O.written out.old) (O.written out.new) (canonical_text m.now)) }
    ensures cause { HasCause (O.faults out.old) (O.faults out.new) result }
{
    write_canon(m, out)
}
