//! Commands, options and refusals; and texts at the limits.

use crate::calls::{NARROW, OPEN, call, compare, expect, push_number, refuses, written};
use crate::rows::{ANSWERED, CUT_SHORT, REFUSED};
use std::alloc::{AllocError, Global};
use std::test::Fail;
use surf_kinds::Status;

#[test]
fn words_and_texts_have_their_answers(rt: HostRuntime) -> Result<(), Fail> {
    for rows in [ANSWERED.as_slice(), REFUSED.as_slice()] {
        for row in rows {
            let text = row.text.as_bytes();
            let got = call(&rt, rt.alloc(), row.line, text, NARROW)?;
            let (out, notes) = (row.out.as_bytes(), row.notes.as_bytes());
            compare(&rt, row.line, &got, row.status, out, notes);
        }
    }
    for (text, message) in CUT_SHORT {
        let text = text.as_bytes();
        refuses(&rt, rt.alloc(), "check", text, Status::Faulty, message)?;
    }
    Ok(())
}

/// A piece that stands so many times between others.
fn repeated(
    alloc: Global,
    head: &[u8],
    piece: &[u8],
    count: usize,
    tail: &[u8],
) -> Result<Vec<u8>, AllocError> {
    let mut text = head.to_vec(alloc)?;
    for _ in 0..count {
        text.extend_from_slice(piece)?;
    }
    text.extend_from_slice(tail)?;
    Ok(text)
}

/// A piece with each number below a count, between others.
fn numbered(
    alloc: Global,
    head: &str,
    before: &str,
    after: &str,
    count: u32,
    tail: &str,
) -> Result<String, AllocError> {
    let mut text = String::from_str(alloc, head)?;
    for i in 0..count {
        push_number(alloc, &mut text, before, i, after)?;
    }
    text.push_str(tail)?;
    Ok(text)
}

#[test]
fn a_byte_above_64_mib_is_too_long(rt: HostRuntime) -> Result<(), Fail> {
    let alloc = rt.alloc();
    let sharps = vec![in alloc; b'#'; 67_108_865]?;
    let message = "limit bytes 67108864\n";
    refuses(&rt, alloc, "check", &sharps, Status::Limit, message)?;
    let message = "manifest SectionMissing line 2\n";
    refuses(&rt, alloc, "check", &sharps[1..], Status::Faulty, message)
}

#[test]
fn counts_above_their_limits_are_refused(rt: HostRuntime) -> Result<(), Fail> {
    let alloc = rt.alloc();
    let row = repeated(alloc, b"", b"A ", 1024, b"\n")?;
    let open = b"!START_INIT_STATE\n";
    let close = b"!END_INIT_STATE\n";
    let most = repeated(alloc, open, &row, 1024, close)?;
    let got = call(&rt, alloc, "check", &most, OPEN)?;
    let sizes = b"ok 1024 1024 square false 1 0 100000000\n";
    compare(&rt, "1024 rows", &got, Status::Done, sizes, b"");
    let sites = repeated(alloc, open, &row, 1025, close)?;
    let message = "manifest TooManySites line 1026\n";
    refuses(&rt, alloc, "check", &sites, Status::Limit, message)?;
    let rules = repeated(alloc, b"!START_TRANSITION_RULES\n", b"A -> A\n", 4097, b"")?;
    let message = "manifest TooManyRules line 4098\n";
    refuses(&rt, alloc, "check", &rules, Status::Limit, message)
}

#[test]
fn names_and_nets_above_their_limits_are_refused(rt: HostRuntime) -> Result<(), Fail> {
    let alloc = rt.alloc();
    let (open, close) = ("!START_INIT_STATE\n", "\n!END_INIT_STATE\n");
    let most = numbered(alloc, open, "N", " ", 4096, close)?;
    let sizes = written(&rt, alloc, "check", most.as_str())?;
    expect(
        &rt,
        sizes.as_str() == "ok 1 4096 square false 4096 0 100000000\n",
        "4096 names",
    );
    let names = numbered(alloc, open, "N", " ", 4097, close)?;
    let message = "manifest TooManySpecies line 2\n";
    refuses(
        &rt,
        alloc,
        "check",
        names.as_bytes(),
        Status::Limit,
        message,
    )?;
    let nets = numbered(alloc, "", "INPUT(x", ")\n", 65_537, "")?;
    let message = "bench TooManyNets line 65537\n";
    refuses(&rt, alloc, "bench", nets.as_bytes(), Status::Limit, message)
}

const DECAY: &str =
    "max_duration = 1000000000\n!START_TRANSITION_RULES\n(1) A -> B\n!END_TRANSITION_RULES\n!START_INIT_STATE\nA\n!END_INIT_STATE\n";

const FLIPS: &str =
    "max_duration = 0.00025\n!START_TRANSITION_RULES\n(1000000000) A -> B\n(1000000000) B -> A\n!END_TRANSITION_RULES\n!START_INIT_STATE\nA A A A A A A A\nA A A A A A A A\nA A A A A A A A\nA A A A A A A A\nA A A A A A A A\n!END_INIT_STATE\n";

// One wait, from 1 to 44,361,420 ticks long; and 10,000 events, which fill several lists.
#[test]
fn runs_go_to_their_ends(rt: HostRuntime) -> Result<(), Fail> {
    for (line, text, first, last) in [
        (
            "run",
            DECAY,
            "event ",
            " 0 0 self 0 0\nsurface 1000000000000000 1\nB\ncounts A:0 B:1\nend 1000000000000000 1\n",
        ),
        (
            "run --samples 0 --limit 10000",
            FLIPS,
            "event 1 0 0 self 0 0\nevent 1 0 1 self 0 0\n",
            "event 250 4 6 self 1 0\nevent 250 4 7 self 1 0\nend 250 10000\n",
        ),
    ] {
        let out = written(&rt, rt.alloc(), line, text)?;
        expect(&rt, out.starts_with(first), line);
        expect(&rt, out.ends_with(last), line);
    }
    Ok(())
}
