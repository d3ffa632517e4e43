//! The ends that read, and what they are told.

ghost use Rattle.std.specs.Prelude.{◌≡◌, ◌⊎◌, length};
ghost use mathlib.Core.List.{IsPrefix};
ghost use Rattle.frames.specs.States.{after};
ghost use Rattle.frames.specs.Ends.{IsToldBy};

use crate::change_log::{Prefix, compare};
use crate::pair::Frame;
use crate::places::{Knowledge, Places, Seeing};
use crate::sample::Sample;
use core::mem::replace_with;
use left_right::reader::Reader;
use std::marker::Model;

/// An end that reads what its writer publishes. It waits for nobody and takes no memory.
#[derive(Drop)]
pub struct FrameReader {
    reader: Reader<Frame, Knowledge, Places>,
    // The state after the longest list that it saw or was told of.
    last: Sample,
    seen: Prefix,
}

impl Model for FrameReader {
    ghost use Rattle.frames.specs.Ends.{ReaderView, IsReader};

    ghost Value = { ReaderView };

    ghost view = { λ r. record { writer = record { book = r.seen.book; start = r.reader.place.me.0.client.start }; longest = r.seen.log } };

    ghost invariant = { λ r. IsReader r.reader.place.me.0.client r.last r.seen.log r.seen.book };
}

/// A writer's published list, with the state after it, for a reader to learn.
#[derive(Drop)]
pub struct Told {
    sample: Sample,
    seen: Prefix,
}

impl Model for Told {
    ghost use Rattle.frames.specs.Ends.{ToldView};

    ghost Value = { ToldView };

    ghost view = { λ t. record { book = t.seen.book; list = t.seen.log; state = t.sample } };
}

impl Told {
    pub(crate) fn new(sample: Sample, seen: Prefix) -> Told
        ensures { result ≡ record { book = seen.book; list = seen.log; state = sample } }
    {
        Told { sample, seen }
    }

    /// The state after the list that was told.
    pub fn sample(&self) -> &Sample
        ensures { result.now ≡ self.now.state }
    {
        &self.sample
    }
}

impl FrameReader {
    ghost use Rattle.frames.specs.Places.{known_as};

    /// A reader that has seen a list, with the state after it.
    pub(crate) fn new(
        reader: Reader<Frame, Knowledge, Places>,
        last: Sample,
        seen: Prefix,
    ) -> FrameReader
        requires known { reader.place.me.0.client ≡ known_as reader.place.me.0.client.start seen.book }
        requires last { last ≡ after reader.place.me.0.client.start seen.log }
        ensures { result ≡ record { writer = record { book = seen.book; start = reader.place.me.0.client.start }; longest = seen.log } }
    {
        FrameReader { reader, last, seen }
    }

    /// Looks at what is published. Where the writer is gone it keeps what it had.
    fn looked(self) -> FrameReader
        ensures same { result.writer ≡ self.writer }
        ensures grows { IsPrefix self.longest result.longest }
    {
        let FrameReader {
            reader,
            mut last,
            mut seen,
        } = self;
        match reader.enter_as::<Seeing>() {
            Ok(reading) => {
                let frame = reading.get();
                compare(&seen, &frame.seen);
                if last.events < frame.sample.events {
                    last.overwrite(&frame.sample);
                    seen = frame.seen.again();
                }
                FrameReader {
                    reader: reading.leave(),
                    last,
                    seen,
                }
            }
            Err(reader) => FrameReader { reader, last, seen },
        }
    }

    fn look(&mut self)
        ensures same { self.new.writer ≡ self.old.writer }
        ensures grows { IsPrefix self.old.longest self.new.longest }
    {
        replace_with(self, (), |me, _| (me.looked(), ()))
    }

    /// Overwrites a sample by the state after a list of changes that begins with every list that this reader saw or was
    /// told of. It waits for nobody and takes no memory.
    pub fn frame(&mut self, into: &mut Sample)
        requires { length into.old.counts ≡ length self.old.writer.start }
        ensures writer { self.new.writer ≡ self.old.writer }
        ensures grows { IsPrefix self.old.longest self.new.longest }
        ensures state { into.new ≡ after self.new.writer.start self.new.longest }
        ensures kinds { length into.new.counts ≡ length into.old.counts }
    {
        self.look();
        into.overwrite(&self.last);
    }

    /// From now on each frame comes after a list that begins with the one that was told. Of that list and the longest
    /// that the reader saw, one begins the other, and the reader has the longer one. Takes no memory.
    pub fn learn(&mut self, told: Told)
        requires { IsToldBy self.old.writer told }
        ensures writer { self.new.writer ≡ self.old.writer }
        ensures compared { IsPrefix self.old.longest told.list ⊎ IsPrefix told.list self.old.longest }
        ensures longer { (self.new.longest ≡ self.old.longest) ⊎ (self.new.longest ≡ told.list) }
        ensures saw { IsPrefix self.old.longest self.new.longest }
        ensures told { IsPrefix told.list self.new.longest }
    {
        let Told { sample, seen } = told;
        compare(&self.seen, &seen);
        if self.last.events < sample.events {
            self.last = sample;
            self.seen = seen;
        }
    }
}
