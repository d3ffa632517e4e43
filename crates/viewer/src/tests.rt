ghost use Rattle.std.specs.Prelude.{◌≡◌, ◌∷◌, [], None, IfOk, length};
ghost use Rattle.frames.specs.Ends.{IsToldBy};

use super::*;
use frames::{Change, FrameReader, FrameWriter, Sample, Told, frames};
use std::alloc::Global;
use std::sync::Wait;
use std::test::Fail;
use surf_kinds::{NoMemory, SpeciesId};

fn needs_send<T: Send>(value: T) -> T
    ensures { result ≡ value }
{
    value
}

// One site of species 0 becomes one of species 1.
fn change(time: u64) -> Change
    ensures { result ≡ record { time = time; out1 = record { 0 = 0 }; in1 = record { 0 = 1 }; second = None } }
{
    Change {
        time,
        out1: SpeciesId(0),
        in1: SpeciesId(1),
        second: None,
    }
}

// The events, the time and the two counts of a sample.
fn numbers(sample: &Sample) -> (u64, u64, u64, u64) {
    match sample.counts.as_slice() {
        [a, b] => (sample.events, sample.time, *a, *b),
        _ => (0, 0, 0, 0),
    }
}

// Samples before and after each of two publishes, with what was told between them.
fn three_samples<R: Wait>(
    rt: &R,
    alloc: Global,
    writer: &mut FrameWriter,
    reader: FrameReader,
) -> Result<(Viewer, Told), NoMemory>
    requires start { (writer.old.added ≡ []) × (writer.old.name.start ≡ 2 ∷ 0 ∷ []) }
    requires reader { reader.writer ≡ writer.old.name }
    ensures told { IfOk result (λ r. IsToldBy r.0.writer r.1) }
{
    let mut viewer = needs_send(Viewer::new(alloc, reader, 3, 2)?);
    viewer.sample();
    writer.add(change(5))?;
    writer.publish(rt);
    viewer.sample();
    let told = writer.tell()?;
    writer.add(change(8))?;
    writer.publish(rt);
    viewer.sample();
    Ok((viewer, told))
}

#[test]
fn a_viewer_learns_what_was_told(rt: HostRuntime) -> Result<(), Fail> {
    let (mut writer, mut readers) = frames(&rt, rt.alloc(), &[2, 0], 1)?;
    let reader = readers.swap_remove(0);
    let taken = three_samples(&rt, rt.alloc(), &mut writer, reader);
    writer.end(&rt);
    let (mut viewer, told) = taken?;
    assert_eq!(rt; viewer.samples().len(), 3);
    assert_eq!(rt; numbers(&viewer.samples()[0]), (0, 0, 2, 0));
    assert_eq!(rt; numbers(&viewer.samples()[1]), (1, 5, 1, 1));
    assert_eq!(rt; numbers(&viewer.samples()[2]), (2, 8, 0, 2));
    // The list that was told has one change, so the last sample is the state after it.
    viewer.learn(told);
    assert_eq!(rt; viewer.samples().len(), 3);
    assert_eq!(rt; numbers(&viewer.samples()[0]), (0, 0, 2, 0));
    assert_eq!(rt; numbers(&viewer.samples()[2]), (1, 5, 1, 1));
    Ok(())
}
