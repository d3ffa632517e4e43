ghost use Rattle.std.specs.Prelude.{◌≡◌, ◌<◌, ◌+◌, ◌∷◌, [], None, Some, IfOk, length};
ghost use Rattle.frames.specs.States.{after};

use super::*;
use std::alloc::Global;
use std::sync::Wait;
use std::sync::atomic::{AtomicBool, Ordering};
use std::test::Fail;
use std::thread::{Threads, join_mut, yield_now};
use surf_kinds::{Counts, NoMemory, SpeciesId};

const A: SpeciesId = SpeciesId(0);

const B: SpeciesId = SpeciesId(1);

fn needs_send<T: Send>(value: T) -> T
    ensures { result ≡ value }
{
    value
}

// A sample of two counts, with numbers that a frame has to overwrite.
fn blank(alloc: Global) -> Result<Sample, NoMemory>
    ensures { IfOk result (λ s. length s.counts ≡ 2) }
{
    let mut counts = Counts::new(alloc);
    counts.push(9)?;
    counts.push(9)?;
    Ok(Sample {
        events: 9,
        time: 9,
        counts,
    })
}

// The events, the time and the two counts of a sample.
fn numbers(sample: &Sample) -> (u64, u64, u64, u64) {
    match sample.counts.as_slice() {
        [a, b] => (sample.events, sample.time, *a, *b),
        _ => (0, 0, 0, 0),
    }
}

// One site of A becomes a B.
fn there(time: u64) -> Change
    ensures { result ≡ record { time = time; out1 = record { 0 = 0 }; in1 = record { 0 = 1 }; second = None } }
{
    Change {
        time,
        out1: A,
        in1: B,
        second: None,
    }
}

// The frames before and after the reader learns.
fn one_change<R: Wait>(
    rt: &R,
    writer: &mut FrameWriter,
    reader: &mut FrameReader,
    before: &mut Sample,
    after: &mut Sample,
) -> Result<(), NoMemory>
    requires start { (writer.old.added ≡ []) × (writer.old.name.start ≡ 2 ∷ 0 ∷ []) }
    requires reader { reader.old.writer ≡ writer.old.name }
    requires into { (length before.old.counts ≡ 2) × (length after.old.counts ≡ 2) }
{
    writer.add(there(5))?;
    writer.publish(rt);
    reader.frame(before);
    reader.learn(writer.tell()?);
    reader.frame(after);
    Ok(())
}

#[test]
fn a_frame_shows_what_is_published_before_it_is_told(rt: HostRuntime) -> Result<(), Fail> {
    let mut before = blank(rt.alloc())?;
    let mut after = blank(rt.alloc())?;
    let (mut writer, mut readers) = frames(&rt, rt.alloc(), &[2, 0], 1)?;
    let done = one_change(&rt, &mut writer, &mut readers[0], &mut before, &mut after);
    writer.end(&rt);
    done?;
    assert_eq!(rt; numbers(&before), (1, 5, 1, 1));
    assert_eq!(rt; numbers(&after), (1, 5, 1, 1));
    Ok(())
}

// One site of A becomes a B, and beside it a B becomes an A.
fn swapped(time: u64) -> Change
    ensures { result ≡ record { time = time; out1 = record { 0 = 0 }; in1 = record { 0 = 1 }; second = Some (record { 0 = 1 }, record { 0 = 0 }) } }
{
    Change {
        time,
        out1: A,
        in1: B,
        second: Some((B, A)),
    }
}

// The frames before and after two changes are published.
fn two_changes<R: Wait>(
    rt: &R,
    writer: &mut FrameWriter,
    reader: &mut FrameReader,
    before: &mut Sample,
    after: &mut Sample,
) -> Result<(), NoMemory>
    requires start { (writer.old.added ≡ []) × (writer.old.name.start ≡ 2 ∷ 1 ∷ []) }
    requires reader { reader.old.writer ≡ writer.old.name }
    requires into { (length before.old.counts ≡ 2) × (length after.old.counts ≡ 2) }
{
    // Where there was no memory once, the same change can be added later.
    if let Err(NoMemory) = writer.add(swapped(3)) {
        writer.add(swapped(3))?;
    }
    writer.add(there(7))?;
    reader.frame(before);
    writer.publish(rt);
    reader.frame(after);
    Ok(())
}

#[test]
fn a_frame_shows_nothing_that_is_not_published(rt: HostRuntime) -> Result<(), Fail> {
    let mut before = blank(rt.alloc())?;
    let mut after = blank(rt.alloc())?;
    let (mut writer, mut readers) = frames(&rt, rt.alloc(), &[2, 1], 2)?;
    let done = two_changes(&rt, &mut writer, &mut readers[1], &mut before, &mut after);
    let told = needs_send(writer.tell());
    writer.end(&rt);
    done?;
    assert_eq!(rt; numbers(&before), (0, 0, 2, 1));
    assert_eq!(rt; numbers(&after), (2, 7, 1, 2));
    assert_eq!(rt; numbers(told?.sample()), (2, 7, 1, 2));
    Ok(())
}

#[test]
fn a_reader_outlives_its_writer(rt: HostRuntime) -> Result<(), Fail> {
    let mut into = needs_send(blank(rt.alloc())?);
    let (writer, mut readers) = frames(&rt, rt.alloc(), &[2, 1], 1)?;
    needs_send(writer).end(&rt);
    let mut reader = needs_send(readers.swap_remove(0));
    reader.frame(&mut into);
    assert_eq!(rt; numbers(&into), (0, 0, 2, 1));
    Ok(())
}

// Publishes one change, waits until the gate is open, and publishes another.
fn publish_through<R: Wait>(
    rt: &R,
    writer: &mut FrameWriter,
    gate: &AtomicBool,
) -> Result<(), NoMemory>
    requires start { (writer.old.name.start ≡ 2 ∷ 0 ∷ []) × (writer.old.added ≡ []) }
    ensures name { writer.new.name ≡ writer.old.name }
{
    writer.add(there(1))?;
    writer.publish(rt);
    for _ in rt.forever() {
        if gate.load(Ordering::SeqCst) {
            break;
        }
        yield_now();
    }
    writer.add(there(2))?;
    writer.publish(rt);
    Ok(())
}

// Opens the gate where memory runs out, so that nobody waits for ever.
fn publish_both<R: Wait>(
    rt: &R,
    writer: &mut FrameWriter,
    gate: &AtomicBool,
) -> Result<(), NoMemory>
    requires start { (writer.old.name.start ≡ 2 ∷ 0 ∷ []) × (writer.old.added ≡ []) }
    ensures name { writer.new.name ≡ writer.old.name }
{
    let done = publish_through(rt, writer, gate);
    gate.store(true, Ordering::SeqCst);
    done
}

// Reads until it sees a change, and then opens the gate.
fn read_and_open<R: Wait>(
    rt: &R,
    reader: &mut FrameReader,
    into: &mut Sample,
    gate: &AtomicBool,
) -> (u64, u64, u64, u64)
    requires { (length into.old.counts ≡ 2) × (length reader.old.writer.start ≡ 2) }
    ensures reader { reader.new.writer ≡ reader.old.writer }
    ensures into { length into.new.counts ≡ 2 }
{
    for _ in rt.forever() {
        reader.frame(into);
        if into.events > 0 || gate.load(Ordering::SeqCst) {
            break;
        }
        yield_now();
    }
    gate.store(true, Ordering::SeqCst);
    numbers(into)
}

fn meet_at_the_gate<R: Threads + Wait + Sync>(
    rt: &R,
    writer: &mut FrameWriter,
    reader: &mut FrameReader,
    into: &mut Sample,
) -> Result<(u64, u64, u64, u64), NoMemory>
    requires start { (writer.old.name.start ≡ 2 ∷ 0 ∷ []) × (writer.old.added ≡ []) }
    requires reader { reader.old.writer ≡ writer.old.name }
    requires into { length into.old.counts ≡ 2 }
{
    let gate = AtomicBool::new(false);
    let (published, between) = join_mut(
        rt,
        &mut || publish_both(rt, writer, &gate),
        &mut || read_and_open(rt, reader, into, &gate),
    );
    published?;
    reader.learn(writer.tell()?);
    reader.frame(into);
    Ok(between)
}

#[test]
fn a_reader_sees_a_state_between_the_first_and_the_last(rt: HostRuntime) -> Result<(), Fail> {
    let mut into = blank(rt.alloc())?;
    let (mut writer, mut readers) = frames(&rt, rt.alloc(), &[2, 0], 1)?;
    let between = meet_at_the_gate(&rt, &mut writer, &mut readers[0], &mut into);
    writer.end(&rt);
    assert_eq!(rt; between?, (1, 1, 1, 1));
    assert_eq!(rt; numbers(&into), (2, 2, 0, 2));
    Ok(())
}
