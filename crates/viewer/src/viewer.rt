//! A viewer and its samples.

ghost use Rattle.std.specs.Prelude.{◌≡◌, ◌<◌, ◌+◌, ◌-◌, ◌++◌, ◌∷◌, [], map, length, vec_len, All, IfOk};
ghost use mathlib.Core.List.{IsPrefix};
ghost use Rattle.frames.specs.States.{after};
ghost use Rattle.frames.specs.Ends.{IsToldBy};
ghost use Rattle.viewer.specs.Samples.{IsStateOf, Rise, clipped};

use frames::{FrameReader, Sample, Told};
use std::alloc::Global;
use std::marker::Model;
use surf_kinds::{Counts, NoMemory};

/// A reader of frames with the samples that it took.
#[derive(Drop)]
pub struct Viewer {
    reader: FrameReader,
    // Places for all samples, of which the first have them.
    places: Vec<Sample>,
    taken: usize,
}

impl Model for Viewer {
    ghost use Rattle.std.specs.Prelude.{◌-◌, take, length};
    ghost use Rattle.viewer.specs.Samples.{ViewerView, IsViewer};

    ghost Value = { ViewerView };

    ghost view = { λ v. record { writer = v.reader.writer; longest = v.reader.longest; samples = take v.taken v.places.items; room = length v.places.items - v.taken } };

    ghost invariant = { λ v. IsViewer v.reader.writer.start v.reader.longest v.places.items v.taken };
}

/// A sample with so many counts, all 0.
fn blank(alloc: Global, kinds: u32) -> Result<Sample, NoMemory>
    ensures { IfOk result (λ sample. length sample.counts ≡ kinds) }
{
    let mut counts = Counts::new(alloc);
    for _ in 0..kinds {
        counts.push(0)?;
    }
    Ok(Sample {
        events: 0,
        time: 0,
        counts,
    })
}

fn clip(sample: &mut Sample, told: &Sample)
    requires { length sample.old.counts ≡ length told.now.counts }
    ensures { sample.new ≡ clipped told.now sample.old }
{
    if told.events < sample.events {
        sample.overwrite(told);
    }
}

/// Puts what was told in place of each sample that has more events.
fn clip_all(samples: &mut Vec<Sample>, told: &Sample)
    requires { All (λ s. length s.counts ≡ length told.now.counts) samples.old.items }
    ensures { samples.new.items ≡ map (clipped told.now) samples.old.items }
{
    for i in 0..samples.len() {
        clip(&mut samples[i], told);
    }
}

impl Viewer {
    /// A viewer with room for so many samples. `kinds` is the number of counts of the reader's frames. After an error
    /// the reader is dropped. The other calls take no memory.
    pub fn new(
        alloc: Global,
        reader: FrameReader,
        samples: u32,
        kinds: u32,
    ) -> Result<Viewer, NoMemory>
        requires { length reader.writer.start ≡ kinds }
        ensures { IfOk result (λ v. v ≡ record { writer = reader.writer; longest = reader.longest; samples = []; room = samples }) }
    {
        let mut places = Vec::new(alloc);
        for _ in 0..samples {
            places.push(blank(alloc, kinds)?)?;
        }
        Ok(Viewer {
            reader,
            places,
            taken: 0,
        })
    }

    /// Reads one frame and puts it behind the samples. It has no fewer events than any of them. It waits for nobody.
    pub fn sample(&mut self)
        requires { 0 < self.old.room }
        ensures writer { self.new.writer ≡ self.old.writer }
        ensures room { self.new.room ≡ self.old.room - 1 }
        ensures grows { IsPrefix self.old.longest self.new.longest }
        ensures samples { self.new.samples ≡ self.old.samples ++ after self.new.writer.start self.new.longest ∷ [] }
        ensures rise { Rise 0 self.new.samples }
    {
        self.reader.frame(&mut self.places[self.taken]);
        self.taken += 1;
    }

    /// Puts the state that was told in place of each sample that has more events. So each sample is then the state after
    /// a beginning of the list that was told.
    pub fn learn(&mut self, told: Told)
        requires { IsToldBy self.old.writer told }
        ensures writer { self.new.writer ≡ self.old.writer }
        ensures room { self.new.room ≡ self.old.room }
        ensures saw { IsPrefix self.old.longest self.new.longest }
        ensures told { IsPrefix told.list self.new.longest }
        ensures samples { self.new.samples ≡ map (clipped told.state) self.old.samples }
        ensures states { All (IsStateOf self.new.writer.start told.list) self.new.samples }
        ensures rise { Rise 0 self.new.samples }
    {
        clip_all(&mut self.places, told.sample());
        self.reader.learn(told);
    }

    /// The samples in the order in which they were taken.
    pub fn samples(&self) -> &[Sample]
        ensures samples { result.now ≡ self.now.samples }
        ensures states { All (IsStateOf self.now.writer.start self.now.longest) self.now.samples }
        ensures rise { Rise 0 self.now.samples }
    {
        &self.places[..self.taken]
    }
}
