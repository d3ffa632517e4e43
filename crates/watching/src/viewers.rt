//! The viewers of a run, and their samples.

ghost use Rattle.std.specs.Prelude.{◌≡◌, ℕ, ◌<◌, ◌≤◌, ◌+◌, length, vec_len, All, IfOk, OnOk, slice_index_or};
ghost use Rattle.viewer.specs.declared.viewer.Viewer.{Viewer as TheViewer};
ghost use Rattle.watching.specs.Viewing.{HasSampled, IsAt, IsDone};

use crate::publisher::Publisher;
use frames::{FrameReader, FrameWriter};
use std::alloc::Global;
use surf_kinds::NoMemory;
use viewer::Viewer;

/// A viewer for each reader, with room for so many samples. `kinds` is the number of species.
pub fn seats(
    alloc: Global,
    publisher: &Publisher,
    readers: Vec<FrameReader>,
    samples: u32,
    kinds: u32,
) -> Result<Vec<Viewer>, NoMemory>
    requires kinds { length publisher.now.writer.name.start ≡ kinds }
    requires readers { All (λ r. r.writer ≡ publisher.now.writer.name) readers.items }
    ensures number { IfOk result (λ vs. vec_len vs ≡ vec_len readers) }
    ensures seats { IfOk result (λ vs. All (IsAt publisher.now.writer.name 0 samples) vs.items) }
{
    let _ = publisher;
    let mut viewers = Vec::new(alloc);
    for reader in readers {
        viewers.push(Viewer::new(alloc, reader, samples, kinds)?)?;
    }
    Ok(viewers)
}

/// Each viewer takes so many samples, one after the other. It waits for nobody.
pub fn sample_all(viewers: &mut Vec<Viewer>, rounds: u32)
    requires { All (λ v. rounds ≤ v.room) viewers.old.items }
    ensures number { vec_len viewers.new ≡ vec_len viewers.old }
    ensures taken { (k : ℕ) (d : TheViewer) → k < length viewers.old.items → HasSampled rounds (slice_index_or viewers.old.items k d) (slice_index_or viewers.new.items k d) }
{
    for _ in 0..rounds {
        sample_each(viewers);
    }
}

/// Each viewer takes a sample.
fn sample_each(viewers: &mut Vec<Viewer>)
    requires { All (λ v. 0 < v.room) viewers.old.items }
    ensures number { vec_len viewers.new ≡ vec_len viewers.old }
    ensures taken { (k : ℕ) (d : TheViewer) → k < length viewers.old.items → HasSampled 1 (slice_index_or viewers.old.items k d) (slice_index_or viewers.new.items k d) }
{
    for i in 0..viewers.len() {
        viewers[i].sample();
    }
}

/// Each viewer learns what was published, takes its last sample, and learns again.
pub fn finish(
    publisher: &mut Publisher,
    viewers: &mut Vec<Viewer>,
    before: u32,
) -> Result<(), NoMemory>
    requires { All (IsAt publisher.old.writer.name before 1) viewers.old.items }
    ensures same { publisher.new ≡ publisher.old }
    ensures number { vec_len viewers.new ≡ vec_len viewers.old }
    ensures done { OnOk result (All (IsDone publisher.old.writer.name.start publisher.old.writer.published (before + 1)) viewers.new.items) }
{
    finish_all(&mut publisher.writer, viewers, before)
}

fn finish_all(
    writer: &mut FrameWriter,
    viewers: &mut Vec<Viewer>,
    before: u32,
) -> Result<(), NoMemory>
    requires { All (IsAt writer.old.name before 1) viewers.old.items }
    ensures same { writer.new ≡ writer.old }
    ensures number { vec_len viewers.new ≡ vec_len viewers.old }
    ensures done { OnOk result (All (IsDone writer.old.name.start writer.old.published (before + 1)) viewers.new.items) }
{
    for i in 0..viewers.len() {
        finish_one(writer, &mut viewers[i], before)?;
    }
    Ok(())
}

fn finish_one(writer: &mut FrameWriter, viewer: &mut Viewer, before: u32) -> Result<(), NoMemory>
    requires { IsAt writer.old.name before 1 viewer.old }
    ensures same { writer.new ≡ writer.old }
    ensures done { OnOk result (IsDone writer.old.name.start writer.old.published (before + 1) viewer.new) }
{
    viewer.learn(writer.tell()?);
    viewer.sample();
    viewer.learn(writer.tell()?);
    Ok(())
}
