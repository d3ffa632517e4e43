//! The end that publishes.

ghost use Rattle.std.specs.Prelude.{◌≡◌, ◌-◌, ◌<◌, ◌≤◌, ◌^◌, ◌++◌, ◌∷◌, [], length, vec_len, All, IfOk, OnOk, OnErr};
ghost use mathlib.Core.List.{IsPrefix};
ghost use Rattle.frames.specs.States.{after, total, MayFollow};
ghost use Rattle.frames.specs.Ends.{IsToldBy};

use crate::change_log::{ChangeLog, Prefix};
use crate::pair::{Frame, Step};
use crate::places::{Knowledge, Opening, Places, Seeing, Telling};
use crate::reader::{FrameReader, Told};
use crate::sample::{Change, Sample};
use core::mem::replace_with;
use left_right::writer::Writer;
use std::alloc::Global;
use std::marker::Model;
use std::sync::Wait;
use surf_kinds::NoMemory;

/// The one end that adds changes and publishes them. It can't be dropped: [`FrameWriter::end`] uses it up.
pub struct FrameWriter {
    writer: Writer<Frame, Step, Knowledge, Places>,
    log: ChangeLog,
    alloc: Global,
}

impl Model for FrameWriter {
    ghost use Rattle.std.specs.Prelude.{drop};
    ghost use Rattle.frames.specs.States.{after};
    ghost use Rattle.frames.specs.Ends.{WriterView, IsWriter};

    ghost Value = { WriterView };

    ghost view = { λ w. record { name = record { book = w.log.added.book; start = w.writer.desk.place.me.0.client.start }; added = w.log.added.log; published = w.writer.desk.shown.value.seen.log } };

    ghost invariant = { λ w. IsWriter w.writer.desk.place.me.0.client w.writer.desk.shown.value (drop w.writer.behind w.writer.log.items) (record { sample = after w.writer.desk.place.me.0.client.start w.log.added.log; seen = w.log.added }) };
}

/// A writer with no changes, and so many readers of it, by the counts at the start. It waits for nobody, since no
/// reader is at work yet.
pub fn frames<R: Wait>(
    rt: &R,
    alloc: Global,
    start: &[u64],
    viewers: u32,
) -> Result<(FrameWriter, Vec<FrameReader>), NoMemory>
    requires at_least { 1 ≤ viewers }
    requires at_most { viewers ≤ 16 }
    requires start { total start.now < 2 ^ 64 }
    ensures start { IfOk result (λ ends. ends.0.name.start ≡ start.now) }
    ensures empty { IfOk result (λ ends. (ends.0.added ≡ []) × (ends.0.published ≡ [])) }
    ensures number { IfOk result (λ ends. vec_len ends.1 ≡ viewers) }
    ensures readers { IfOk result (λ ends. All (λ r. r ≡ record { writer = ends.0.name; longest = [] }) ends.1.items) }
{
    let mut writer = FrameWriter::open(rt, alloc, start, viewers as usize)?;
    match writer.places(viewers) {
        Ok(readers) => Ok((writer, readers)),
        Err(error) => {
            writer.end(rt);
            Err(error)
        }
    }
}

fn opened(alloc: Global, start: &[u64], seen: Prefix) -> Result<Frame, NoMemory>
    ensures { IfOk result (λ frame. (frame.sample ≡ after start.now []) × (frame.seen ≡ seen)) }
{
    Ok(Frame {
        sample: Sample::opening(alloc, start)?,
        seen,
    })
}

impl FrameWriter {
    /// A writer with room for so many readers. It waits for nobody, since there is no reader yet.
    fn open<R: Wait>(
        rt: &R,
        alloc: Global,
        start: &[u64],
        viewers: usize,
    ) -> Result<FrameWriter, NoMemory>
        requires viewers { (0 < viewers) × (viewers < 2 ^ 32) }
        requires start { total start.now < 2 ^ 64 }
        ensures { IfOk result (λ w. (w.name.start ≡ start.now) × (w.added ≡ []) × (w.published ≡ [])) }
    {
        let log = ChangeLog::new();
        let first = opened(alloc, start, log.added.again())?;
        let second = opened(alloc, start, log.added.again())?;
        let writer = Writer::new(alloc, first, second, viewers)?;
        let (writer, _done) = writer.publish_as::<Opening, R>(rt);
        Ok(FrameWriter { writer, log, alloc })
    }

    /// A reader that has seen what is published.
    fn place(&mut self) -> Result<FrameReader, NoMemory>
        ensures writer { self.new ≡ self.old }
        ensures reader { IfOk result (λ r. r ≡ record { writer = self.old.name; longest = self.old.published }) }
    {
        let shown = self.writer.published();
        let last = shown.sample.copy(self.alloc)?;
        let seen = shown.seen.again();
        let mut reader = self.writer.factory().reader()?;
        reader.learn::<Telling>(self.writer.tell::<Telling>());
        Ok(FrameReader::new(reader, last, seen))
    }

    fn places(&mut self, viewers: u32) -> Result<Vec<FrameReader>, NoMemory>
        ensures writer { self.new ≡ self.old }
        ensures number { IfOk result (λ readers. vec_len readers ≡ viewers) }
        ensures readers { IfOk result (λ readers. All (λ r. r ≡ record { writer = self.old.name; longest = self.old.published }) readers.items) }
    {
        let mut readers = Vec::new(self.alloc);
        for _ in 0..viewers {
            readers.push(self.place()?)?;
        }
        Ok(readers)
    }

    /// Adds a change, which readers don't see yet. Its cost doesn't depend on the numbers of species and sites. After
    /// an error the writer is as it was, and can add that change later.
    pub fn add(&mut self, change: Change) -> Result<(), NoMemory>
        requires room { length self.old.added < 2 ^ 64 - 1 }
        requires follows { MayFollow (after self.old.name.start self.old.added) change }
        ensures ok { OnOk result (self.new ≡ record self.old { added = self.old.added ++ change ∷ [] }) }
        ensures err { OnErr result (self.new ≡ self.old) }
    {
        let Some(seen) = self.log.next(change) else {
            return Err(NoMemory);
        };
        match self.writer.append(Step { change, seen }) {
            Ok(()) => {
                self.log.accept();
                Ok(())
            }
            Err(_step) => Err(NoMemory),
        }
    }

    #[tactic(auto, using(crate::proofs::Prefixes::prefix_same))]
    fn shown<R: Wait>(self, rt: &R) -> FrameWriter
        ensures published { result ≡ record self { published = self.added } }
        ensures grows { IsPrefix self.published self.added }
    {
        let FrameWriter { writer, log, alloc } = self;
        let (writer, _done) = writer.publish_as::<Seeing, R>(rt);
        FrameWriter { writer, log, alloc }
    }

    /// Makes all added changes readable at one step. It waits for readers. Each of the two copies takes each change
    /// once, so it costs at most the changes since the last publish and the one before.
    pub fn publish<R: Wait>(&mut self, rt: &R)
        ensures published { self.new ≡ record self.old { published = self.old.added } }
        ensures grows { IsPrefix self.old.published self.old.added }
    {
        replace_with(self, rt, |me, rt| (me.shown(rt), ()))
    }

    /// The published list, for a reader to learn.
    pub fn tell(&mut self) -> Result<Told, NoMemory>
        ensures writer { self.new ≡ self.old }
        ensures told { IfOk result (λ told. IsToldBy self.old.name told) }
        ensures list { IfOk result (λ told. told.list ≡ self.old.published) }
    {
        let shown = self.writer.published();
        Ok(Told::new(shown.sample.copy(self.alloc)?, shown.seen.again()))
    }

    /// Ends the writer. It waits for readers, and takes no memory.
    pub fn end<R: Wait>(self, rt: &R) {
        let FrameWriter {
            writer,
            log: _log,
            alloc: _,
        } = self;
        drop(writer.take(rt));
    }
}
