//! The words of a command line, and the first wrong one.

use std::alloc::{AllocError, Global};
use std::test::Fail;
use surf_text::word_list;
use surface_words::{Program, Words};

/// Reads the words of a line.
fn read(alloc: Global, line: &str, program: Program) -> Result<Result<Words, usize>, AllocError> {
    let mut list = Vec::new(alloc);
    for word in word_list(alloc, line)? {
        list.push(String::from_str(alloc, word)?)?;
    }
    Ok(Words::read(&list, program))
}

fn run(seed: Option<u64>, until: Option<u64>, samples: u64, limit: u64) -> Words {
    Words::Run {
        workers: 1,
        seed,
        until,
        samples,
        limit,
        quota: 256,
        slots: 256,
        report: false,
    }
}

fn watch(workers: u64, quota: u64, viewers: u64, frames: u64) -> Words {
    Words::Watch {
        workers,
        seed: None,
        until: None,
        samples: 1,
        limit: 1_000_000,
        quota,
        slots: 256,
        viewers,
        frames,
    }
}

fn ensemble(seeds: u64, first: u64, until: Option<u64>, limit: u64) -> Words {
    Words::Ensemble {
        workers: 1,
        seeds,
        first,
        until,
        limit,
    }
}

#[test]
fn accepted_words(rt: HostRuntime) -> Result<(), Fail> {
    for (line, words) in [
        ("check", Words::Check),
        ("print", Words::Print),
        ("run", run(None, None, 1, 1_000_000)),
        (
            "run --until 2.5 --seed 007 --limit 0 --samples 10000",
            run(Some(7), Some(2_500_000), 10_000, 0),
        ),
        (
            "run --limit 10000000 --seed 18446744073709551615 --until 1e9 --workers 01 --samples 0",
            run(
                Some(18_446_744_073_709_551_615),
                Some(1_000_000_000_000_000),
                0,
                10_000_000,
            ),
        ),
        (
            "run --report yes --slots 65536 --quota 1 --workers 64",
            Words::Run {
                workers: 64,
                seed: None,
                until: None,
                samples: 1,
                limit: 1_000_000,
                quota: 1,
                slots: 65_536,
                report: true,
            },
        ),
        ("run --report no", run(None, None, 1, 1_000_000)),
        ("value", Words::Value { inputs: None }),
        ("value --inputs 0110", Words::Value { inputs: Some(2) }),
        ("compile", Words::Compile { inputs: None }),
        ("compile --inputs 10", Words::Compile { inputs: Some(2) }),
        ("ensemble", ensemble(10, 0, None, 1_000_000)),
        (
            "ensemble --first 18446744073709551615 --limit 7 --seeds 1000 --until 2",
            ensemble(1_000, 18_446_744_073_709_551_615, Some(2_000_000), 7),
        ),
        ("bench", Words::Bench),
        ("compact --inputs 10", Words::Compact { inputs: Some(2) }),
    ] {
        assert_eq!(rt; read(rt.alloc(), line, Program::Surface)?, Ok(words));
        assert!(rt; words.reads());
    }
    Ok(())
}

fn stress(workers: u64, number: u64) -> Words {
    Words::Stress { workers, number }
}

#[test]
fn generated_runs_read_nothing(rt: HostRuntime) -> Result<(), Fail> {
    for (line, words) in [
        ("gen", Words::Gen { number: 0 }),
        (
            "gen --number 1000000000",
            Words::Gen {
                number: 1_000_000_000,
            },
        ),
        ("stress", stress(1, 0)),
        ("stress --number 7", stress(1, 7)),
        ("stress --number 008 --workers 64", stress(64, 8)),
    ] {
        assert_eq!(rt; read(rt.alloc(), line, Program::Surface)?, Ok(words));
        assert!(rt; !words.reads());
    }
    Ok(())
}

#[test]
fn inputs_may_be_none(rt: HostRuntime) -> Result<(), Fail> {
    let mut list = Vec::new(rt.alloc());
    list.push(String::from_str(rt.alloc(), "value")?)?;
    list.push(String::from_str(rt.alloc(), "--inputs")?)?;
    list.push(String::new(rt.alloc()))?;
    assert_eq!(rt;
        Words::read(&list, Program::Surface),
        Ok(Words::Value { inputs: Some(2) })
    );
    Ok(())
}

#[test]
fn the_first_wrong_word_is_named(rt: HostRuntime) -> Result<(), Fail> {
    for (line, index) in [
        ("", 0),
        ("watch", 0),
        ("Run", 0),
        ("--workers 1", 0),
        ("check x", 1),
        ("print --seed 1", 1),
        ("run --inputs 1", 1),
        ("run --seed", 2),
        ("run --workers 0", 2),
        ("run --workers 65", 2),
        ("run --seed 18446744073709551616", 2),
        ("run --seed 000000000000000000001", 2),
        ("run --until 1000000001", 2),
        ("run --samples 10001", 2),
        ("run --limit 10000001", 2),
        ("run --quota 0", 2),
        ("run --quota 65537", 2),
        ("run --slots 0", 2),
        ("run --slots 65537", 2),
        ("run --report Yes", 2),
        ("run --report 1", 2),
        ("stress --quota 1", 1),
        ("value --inputs 012", 2),
        ("compile --inputs 2", 2),
        ("compile --number 1", 1),
        ("gen --workers 1", 1),
        ("gen --number", 2),
        ("gen --number 1000000001", 2),
        ("stress --workers 0", 2),
        ("stress --number 1 --seed 1", 3),
        ("ensemble --seed 1", 1),
        ("ensemble --seeds 0", 2),
        ("ensemble --seeds 1001", 2),
        ("ensemble --first 18446744073709551616", 2),
        ("ensemble --first 0 --samples 1", 3),
        ("bench --inputs 1", 1),
        ("compact --inputs 12", 2),
        ("run --workers 2 --workers 2", 3),
        ("run --workers 2 --seed", 4),
        ("run --workers 2 --seed x y", 4),
    ] {
        assert_eq!(rt; read(rt.alloc(), line, Program::Surface)?, Err(index));
    }
    Ok(())
}

#[test]
fn words_of_watch(rt: HostRuntime) -> Result<(), Fail> {
    for (line, words) in [
        ("watch", watch(1, 256, 1, 10)),
        (
            "watch --frames 1000 --viewers 16 --workers 64 --quota 65536",
            watch(64, 65_536, 16, 1_000),
        ),
    ] {
        assert_eq!(rt; read(rt.alloc(), line, Program::Watch)?, Ok(words));
    }
    for (line, index) in [
        ("", 0),
        ("check", 0),
        ("run --workers 0", 0),
        ("watch --report yes", 1),
        ("watch --viewers 0", 2),
        ("watch --viewers 17", 2),
        ("watch --frames 0", 2),
        ("watch --frames 1001", 2),
        ("watch --frames 1 --viewers", 4),
    ] {
        assert_eq!(rt; read(rt.alloc(), line, Program::Watch)?, Err(index));
    }
    assert_eq!(rt;
        read(rt.alloc(), "run --viewers 1", Program::Surface)?,
        Err(1)
    );
    assert_eq!(rt; read(rt.alloc(), "watch", Program::Surface)?, Err(0));
    Ok(())
}
