//! Calls of the program over memory, and what they leave.

use std::alloc::{AllocError, Global};
use std::process::Abort;
use std::test::Fail;
use std::thread::Threads;
use surf_kinds::{NoMemory, Status};
use surf_outside::{Gate, MemSink, MemSource, OpenGate, Sink, Source};
use surf_text::word_list;
use surface_top::surface_main;

/// The words of a line.
pub(crate) fn words_of(alloc: Global, line: &str) -> Result<Vec<String>, NoMemory> {
    let mut words = Vec::new(alloc);
    for word in word_list(alloc, line)?.as_slice() {
        words.push(String::from_str(alloc, *word)?)?;
    }
    Ok(words)
}

/// Calls the program with the words of a line.
pub(crate) fn status_of<R: Threads + Sync, S: Source, O: Sink, N: Sink, G: Gate>(
    rt: &R,
    alloc: Global,
    line: &str,
    source: &mut S,
    out: &mut O,
    notes: &mut N,
    gate: &G,
) -> Result<Status, NoMemory> {
    let words = words_of(alloc, line)?;
    let mut kept = None;
    let words = words.as_slice();
    Ok(surface_main(rt, alloc, words, &mut kept, source, out, notes, gate))
}

/// How many bytes a call of the outside moves at most, and which call of each object fails (0: none).
#[derive(Clone, Copy)]
pub(crate) struct Outside {
    pub reads: usize,
    pub writes: usize,
    pub source: u64,
    pub out: u64,
    pub notes: u64,
}

/// An outside without faults, which takes any number of bytes at once.
pub(crate) const OPEN: Outside = Outside {
    reads: 65_536,
    writes: 65_536,
    source: 0,
    out: 0,
    notes: 0,
};

/// An outside without faults, which takes a few bytes at once.
pub(crate) const NARROW: Outside = Outside { writes: 7, ..OPEN };

/// What a call has left.
#[derive(Drop)]
pub(crate) struct Answered {
    pub status: Status,
    pub out: MemSink,
    pub notes: MemSink,
}

/// Calls the program with the words of a line on a text.
pub(crate) fn call<R: Threads + Sync>(
    rt: &R,
    alloc: Global,
    line: &str,
    text: &[u8],
    outside: Outside,
) -> Result<Answered, NoMemory> {
    let writes = outside.writes.max(1);
    let mut source = MemSource::new(alloc, text, outside.reads.max(1), &[outside.source])?;
    let mut out = MemSink::new(alloc, 10_000_000, writes, &[outside.out])?;
    let mut notes = MemSink::new(alloc, 1000, writes, &[outside.notes])?;
    let status = status_of(
        rt,
        alloc,
        line,
        &mut source,
        &mut out,
        &mut notes,
        &OpenGate,
    )?;
    Ok(Answered { status, out, notes })
}

/// Sees that something holds. Tests assert by this function, since each assertion of its own has to be proved.
pub(crate) fn expect<R: Abort>(rt: &R, holds: bool, what: &str) {
    assert!(rt; holds, "{what}");
}

/// Sees that a call has this status and has written these texts.
pub(crate) fn compare<R: Abort>(
    rt: &R,
    line: &str,
    got: &Answered,
    status: Status,
    out: &[u8],
    notes: &[u8],
) {
    expect(rt, got.status == status, line);
    expect(rt, got.out.bytes() == out, line);
    expect(rt, got.notes.bytes() == notes, line);
}

/// Calls the program on a text that it refuses: it has this status, writes nothing but this message.
pub(crate) fn refuses<R: Threads + Sync + Abort>(
    rt: &R,
    alloc: Global,
    line: &str,
    text: &[u8],
    status: Status,
    message: &str,
) -> Result<(), Fail> {
    let got = call(rt, alloc, line, text, OPEN)?;
    compare(rt, line, &got, status, b"", message.as_bytes());
    Ok(())
}

/// Calls the program on a text that it accepts, and gives all that it writes.
pub(crate) fn written<R: Threads + Sync + Abort>(
    rt: &R,
    alloc: Global,
    line: &str,
    text: &str,
) -> Result<String, Fail> {
    let got = call(rt, alloc, line, text.as_bytes(), OPEN)?;
    expect(rt, got.status == Status::Done, line);
    Ok(String::from_utf8(got.out.bytes().to_vec(alloc)?)?)
}

/// How often a piece stands in a text.
pub(crate) fn count(text: &[u8], piece: &[u8]) -> u64 {
    let mut count: u64 = 0;
    for at in 0..text.len() {
        if text[at..].starts_with(piece) {
            count = count.saturating_add(1);
        }
    }
    count
}

/// Writes a number between two texts behind a text.
pub(crate) fn push_number(
    alloc: Global,
    text: &mut String,
    before: &str,
    number: u32,
    after: &str,
) -> Result<(), AllocError> {
    text.push_str(format!(in alloc; "{before}{number}{after}")?.as_str())
}
