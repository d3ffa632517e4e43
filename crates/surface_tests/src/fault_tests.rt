//! Faults of the outside at each call, and want of memory at each place.

ghost use Rattle.std.specs.Prelude.{◌≡◌};

use crate::calls::{Answered, NARROW, OPEN, Outside, call, compare, expect, written};
use crate::rows::{ANSWERED, CATALYST, CATALYST_RUN, REFUSED, Row, XOR};
use std::alloc::Global;
use std::process::Abort;
use std::test::Fail;
use std::thread::Threads;
use surf_kinds::{NoMemory, Status};

#[test]
fn a_fault_of_the_notes_is_one_where_the_answer_is_in_them(rt: HostRuntime) -> Result<(), Fail> {
    let alloc = rt.alloc();
    let text = CATALYST.as_bytes();
    for (line, status, notes, out, message) in [
        ("run --seed", Status::Words, 1, "", ""),
        ("run --seed", Status::Words, 2, "", "words 2"),
        ("run", Status::Done, 1, CATALYST_RUN, ""),
        (
            "run --report yes",
            Status::WriteFault,
            1,
            CATALYST_RUN,
            "write fault\n",
        ),
        (
            "run --report yes",
            Status::WriteFault,
            2,
            CATALYST_RUN,
            "report write fault\n",
        ),
    ] {
        let outside = Outside { notes, ..NARROW };
        let got = call(&rt, alloc, line, text, outside)?;
        compare(&rt, line, &got, status, out.as_bytes(), message.as_bytes());
    }
    Ok(())
}

/// An outside that reads a byte and writes so many at once, and whose read or write of a number fails, by the status of such
/// a fault.
fn failing(status: Status, number: u64, writes: usize) -> Outside {
    let outside = Outside {
        reads: 1,
        writes,
        ..OPEN
    };
    match status {
        Status::ReadFault => Outside {
            source: number,
            ..outside
        },
        _ => Outside {
            out: number,
            ..outside
        },
    }
}

/// Lets each read or each write fail in turn, and sees what is left: after a failed read nothing, and after a failed write no
/// more of the answer than the writes before it took. Gives how many reads or writes there are.
pub(crate) fn every_call_fails<R: Abort, F: Fn(Outside) -> Result<Answered, NoMemory>>(
    rt: &R,
    line: &str,
    whole: &[u8],
    status: Status,
    writes: usize,
    answer: F,
) -> Result<u64, Fail>
    requires { (state : F) (outside : _) → F.pre state outside }
{
    for number in 1..10_000 {
        let got = answer(failing(status, number, writes))?;
        let out = got.out.bytes();
        let before = number.saturating_sub(1);
        if got.status == Status::Done {
            expect(rt, out == whole, line);
            return Ok(before);
        }
        let (message, faults, most) = match status {
            Status::ReadFault => ("read fault\n", 0, 0),
            _ => ("write fault\n", 1, before.saturating_mul(writes as u64)),
        };
        compare(rt, line, &got, status, out, message.as_bytes());
        expect(rt, whole.starts_with(out), line);
        expect(rt, out.len() as u64 <= most, line);
        expect(rt, got.out.faults() == faults, line);
    }
    Err("too many calls".into())
}

/// Lets each read or each write of a command fail.
fn every_call_of_a_command_fails<R: Threads + Sync + Abort>(
    rt: &R,
    alloc: Global,
    line: &str,
    text: &str,
    status: Status,
    writes: usize,
) -> Result<u64, Fail> {
    let whole = written(rt, alloc, line, text)?;
    every_call_fails(rt, line, whole.as_bytes(), status, writes, |outside| {
        let got = call(rt, alloc, line, text.as_bytes(), outside)?;
        let is_done = got.status == Status::Done;
        expect(rt, got.notes.bytes().is_empty() == is_done, line);
        Ok(got)
    })
}

#[test]
fn each_call_of_the_outside_may_fail(rt: HostRuntime) -> Result<(), Fail> {
    let alloc = rt.alloc();
    let compile = "compile --inputs 10";
    for (line, text) in [("run", CATALYST), (compile, XOR)] {
        // A byte a call, and the one that finds the end.
        let reads = every_call_of_a_command_fails(
            &rt,
            alloc,
            line,
            text,
            Status::ReadFault,
            65_536,
        )?;
        expect(&rt, reads == text.len() as u64 + 1, line);
    }
    let writes = every_call_of_a_command_fails(&rt, alloc, "run", CATALYST, Status::WriteFault, 1)?;
    expect(&rt, writes == 103, "run");
    let writes = every_call_of_a_command_fails(&rt, alloc, compile, XOR, Status::WriteFault, 16)?;
    expect(&rt, writes > 114, compile);
    Ok(())
}

/// Sees that a call on which memory may run out has given its answer, or stopped with a prefix of its text.
fn ends_with_what_memory_there_is<R: Threads + Sync + Abort>(rt: &R, alloc: Global, row: &Row) {
    let Ok(got) = call(rt, alloc, row.line, row.text.as_bytes(), NARROW) else {
        return;
    };
    let whole = row.out.as_bytes();
    if got.status == Status::Memory {
        let out = got.out.bytes();
        expect(rt, whole.starts_with(out), row.line);
        compare(rt, row.line, &got, Status::Memory, out, b"memory\n");
    } else {
        compare(rt, row.line, &got, row.status, whole, row.notes.as_bytes());
    }
}

// Each row ends in one of these ways, whichever allocation fails: `rt try --test --fail-alloc N` lets the Nth one fail.
#[test]
fn want_of_memory_leaves_a_prefix(rt: HostRuntime) {
    for rows in [ANSWERED.as_slice(), REFUSED.as_slice()] {
        for row in rows {
            ends_with_what_memory_there_is(&rt, rt.alloc(), row);
        }
    }
}
