//! The text of an ensemble.

ghost use Rattle.std.specs.Prelude.{◌≡◌, ◌^◌, ◌<◌, ◌≤◌, ◌++◌, All, length, map, sum, decimal, OnOk, OnErr};
ghost use Rattle.std.specs.List.{flat_map};
ghost use Rattle.std.specs.Io.KnownBytes.{Appends};
ghost use Rattle.surf_outside.specs.Causes.{HasCause};
ghost use Rattle.surf_outside.specs.Known.{AppendsPrefix};
ghost use Rattle.surf_outside.specs.Puts.{Puts};
ghost use Rattle.ensemble.specs.Outcomes.{IsWithin};
ghost use Rattle.surf_outside.specs.Parts.{parts};
ghost use Rattle.ensemble.specs.Texts.{count_in as count_of, count_text, end_text, outcome_text, total_text, species_text, totals_text, ensemble_text};
ghost use Rattle.ensemble.specs.Wording.{three};

use crate::outcome::Outcome;
use crate::spread::{count_in, ended_count, event_sum, spread_of};
use species::Names;
use surf_kinds::SpeciesId;
use surf_outside::{Failed, Sink, put};
use surf_text::Digits;
use surface_rows::name_bytes;

/// Writes a word and a number.
fn put_number<O: Sink>(out: &mut O, word: &[u8], number: u64) -> Result<(), Failed>
    ensures { Puts (O.written out.old) (O.written out.new) (O.faults out.old) (O.faults out.new) (word.now ++ decimal number) result }
{
    put(out, word)?;
    put(out, Digits::of(number).bytes())
}

/// Writes three words, each with a number.
fn put_three<O: Sink>(
    out: &mut O,
    first: (&[u8], u64),
    second: (&[u8], u64),
    third: (&[u8], u64),
) -> Result<(), Failed>
    ensures { Puts (O.written out.old) (O.written out.new) (O.faults out.old) (O.faults out.new) (three first.entry.0.now first.entry.1 second.entry.0.now second.entry.1 third.entry.0.now third.entry.1) result }
{
    put_number(out, first.0, first.1)?;
    put_number(out, second.0, second.1)?;
    put_number(out, third.0, third.1)
}

/// Writes a species with its count, and a space before it.
fn write_count<O: Sink>(
    out: &mut O,
    names: &Names,
    outcome: &Outcome,
    species: SpeciesId,
) -> Result<(), Failed>
    requires { species.0 < length names.now }
    ensures { Puts (O.written out.old) (O.written out.new) (O.faults out.old) (O.faults out.new) (count_text names.now outcome.now species.0) result }
{
    put(out, b" ")?;
    put(out, name_bytes(names, species))?;
    put_number(out, b":", count_in(outcome, species))
}

/// Writes the counts of an outcome.
fn write_counts<O: Sink>(out: &mut O, names: &Names, outcome: &Outcome) -> Result<(), Failed>
    ensures { Puts (O.written out.old) (O.written out.new) (O.faults out.old) (O.faults out.new) (parts (count_text names.now outcome.now) (length names.now)) result }
{
    for species in 0..names.count() {
        write_count(out, names, outcome, SpeciesId(species as u16))?;
    }
    Ok(())
}

/// The end of the line of an outcome.
fn line_end(ended: bool) -> &'static [u8]
    ensures { result.now ≡ end_text ended }
{
    if ended { b"\n" } else { b" limit\n" }
}

/// Writes the line of an outcome. After a fault of the sink a prefix of it was written, here and in the other calls. They
/// take no memory.
pub fn write_outcome<O: Sink>(out: &mut O, names: &Names, outcome: &Outcome) -> Result<(), Failed>
    ensures { Puts (O.written out.old) (O.written out.new) (O.faults out.old) (O.faults out.new) (outcome_text names.now outcome.now) result }
{
    put_three(
        out,
        (b"seed ", outcome.seed),
        (b" events ", outcome.events),
        (b" last ", outcome.last),
    )?;
    write_counts(out, names, outcome)?;
    put(out, line_end(outcome.ended))
}

/// Writes the line of all outcomes together.
fn write_total<O: Sink>(out: &mut O, outcomes: &[Outcome]) -> Result<(), Failed>
    requires { sum (map (λ o. o.events) outcomes.now) < 2 ^ 64 }
    ensures { Puts (O.written out.old) (O.written out.new) (O.faults out.old) (O.faults out.new) (total_text outcomes.now) result }
{
    put_three(
        out,
        (b"total seeds ", outcomes.len() as u64),
        (b" ended ", ended_count(outcomes) as u64),
        (b" events ", event_sum(outcomes)),
    )?;
    put(out, b"\n")
}

/// Writes the line of a species.
fn write_species<O: Sink>(
    out: &mut O,
    names: &Names,
    outcomes: &[Outcome],
    species: SpeciesId,
) -> Result<(), Failed>
    requires species { species.0 < length names.now }
    requires few { length outcomes.now ≤ 1000 }
    requires small { All (λ o. count_of species.0 o ≤ 1048576) outcomes.now }
    ensures { Puts (O.written out.old) (O.written out.new) (O.faults out.old) (O.faults out.new) (species_text names.now outcomes.now species.0) result }
{
    let spread = spread_of(outcomes, species);
    put(out, name_bytes(names, species))?;
    put_three(
        out,
        (b" least ", spread.least),
        (b" greatest ", spread.greatest),
        (b" sum ", spread.sum),
    )?;
    put(out, b"\n")
}

/// Writes the line of all outcomes together, and that of each species.
pub fn write_totals<O: Sink>(out: &mut O, names: &Names, outcomes: &[Outcome]) -> Result<(), Failed>
    requires few { length outcomes.now ≤ 1000 }
    requires within { All (IsWithin (length names.now)) outcomes.now }
    ensures { Puts (O.written out.old) (O.written out.new) (O.faults out.old) (O.faults out.new) (totals_text names.now outcomes.now) result }
{
    write_total(out, outcomes)?;
    for species in 0..names.count() {
        write_species(out, names, outcomes, SpeciesId(species as u16))?;
    }
    Ok(())
}

/// Writes the line of each outcome.
fn write_outcomes<O: Sink>(out: &mut O, names: &Names, outcomes: &[Outcome]) -> Result<(), Failed>
    ensures { Puts (O.written out.old) (O.written out.new) (O.faults out.old) (O.faults out.new) (flat_map (outcome_text names.now) outcomes.now) result }
{
    for outcome in outcomes {
        write_outcome(out, names, outcome)?;
    }
    Ok(())
}

/// Writes the text of an ensemble: the line of each outcome, that of all together, and that of each species.
pub fn write_ensemble<O: Sink>(
    out: &mut O,
    names: &Names,
    outcomes: &[Outcome],
) -> Result<(), Failed>
    requires few { length outcomes.now ≤ 1000 }
    requires within { All (IsWithin (length names.now)) outcomes.now }
    ensures ok { OnOk result (Appends (O.written out.old) (O.written out.new) (ensemble_text names.now outcomes.now)) }
    ensures err { OnErr result (AppendsPrefix (O.written out.old) (O.written out.new) (ensemble_text names.now outcomes.now)) }
    ensures cause { HasCause (O.faults out.old) (O.faults out.new) result }
{
    write_outcomes(out, names, outcomes)?;
    write_totals(out, names, outcomes)
}
