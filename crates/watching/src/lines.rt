//! The lines of viewers.

ghost use Rattle.std.specs.Prelude.{◌≡◌, ◌<◌, ◌++◌, ◌∷◌, [], All, length, map, decimal, string_bytes, IfOk, OnOk};
ghost use Rattle.surf_outside.specs.Parts.{parts};
ghost use Rattle.watching.specs.Lines.{count_text, head_text, sample_line, samples_text, views_text};

use frames::Sample;
use species::Names;
use std::alloc::{AllocError, Global};
use surf_kinds::SpeciesId;
use viewer::Viewer;

/// The front of a line: which sample of which viewer, how many events, and the tick of the last.
fn head(alloc: Global, viewer: u64, number: u64, sample: &Sample) -> Result<String, AllocError>
    ensures { IfOk result (λ line. string_bytes line ≡ head_text viewer number sample.now) }
{
    let events = sample.events;
    let tick = sample.time;
    format!(in alloc; "viewer {viewer} sample {number} events {events} tick {tick}")
}

/// A name with a count.
fn count_part(alloc: Global, name: &str, count: u64) -> Result<String, AllocError>
    ensures { IfOk result (λ part. string_bytes part ≡ 32 ∷ name.now ++ 58 ∷ decimal count) }
{
    format!(in alloc; " {name}:{count}")
}

/// Puts a species and its count.
fn put_count(
    alloc: Global,
    text: &mut Vec<u8>,
    names: &Names,
    counts: &[u64],
    species: u32,
) -> Result<(), AllocError>
    requires species { species < length names.now }
    requires counts { length counts.now ≡ length names.now }
    ensures { OnOk result (text.new.items ≡ text.old.items ++ count_text names.now counts.now species) }
{
    prove!(names.count() <= 4096);
    let part = count_part(
        alloc,
        names.name(SpeciesId(species as u16)),
        counts[species as usize],
    )?;
    text.extend_from_slice(part.as_bytes())
}

/// Puts all species with their counts.
fn put_counts(
    alloc: Global,
    text: &mut Vec<u8>,
    names: &Names,
    counts: &[u64],
) -> Result<(), AllocError>
    requires counts { length counts.now ≡ length names.now }
    ensures { OnOk result (text.new.items ≡ text.old.items ++ parts (count_text names.now counts.now) (length names.now)) }
{
    for species in 0..names.count() {
        put_count(alloc, text, names, counts, species)?;
    }
    Ok(())
}

/// Puts the line of a sample.
fn put_sample(
    alloc: Global,
    text: &mut Vec<u8>,
    names: &Names,
    viewer: u64,
    number: u64,
    sample: &Sample,
) -> Result<(), AllocError>
    requires counts { length sample.now.counts ≡ length names.now }
    ensures { OnOk result (text.new.items ≡ text.old.items ++ sample_line names.now viewer number sample.now) }
{
    let head = head(alloc, viewer, number, sample)?;
    text.extend_from_slice(head.as_bytes())?;
    put_counts(alloc, text, names, sample.counts.as_slice())?;
    text.extend_from_slice(b"\n")
}

/// Puts the lines of a viewer's samples.
fn put_samples(
    alloc: Global,
    text: &mut Vec<u8>,
    names: &Names,
    viewer: u64,
    samples: &[Sample],
) -> Result<(), AllocError>
    requires counts { All (λ s. length s.counts ≡ length names.now) samples.now }
    ensures { OnOk result (text.new.items ≡ text.old.items ++ samples_text names.now viewer samples.now) }
{
    for i in 0..samples.len() {
        put_sample(alloc, text, names, viewer, i as u64, &samples[i])?;
    }
    Ok(())
}

/// The lines of the samples of all viewers, in their order.
pub fn views_of(alloc: Global, names: &Names, viewers: &[Viewer]) -> Result<Vec<u8>, AllocError>
    requires counts { All (λ v. All (λ s. length s.counts ≡ length names.now) v.samples) viewers.now }
    ensures { IfOk result (λ text. text.items ≡ views_text names.now (map (λ v. v.samples) viewers.now)) }
{
    let mut text = Vec::new(alloc);
    for i in 0..viewers.len() {
        put_samples(alloc, &mut text, names, i as u64, viewers[i].samples())?;
    }
    Ok(text)
}
