ghost use Rattle.std.specs.Prelude.{◌≤◌, length};
ghost use Rattle.ensemble.specs.Outcomes.{AreAllowed};

use super::*;
use manifest_read::read_manifest;
use std::alloc::Global;
use std::test::Fail;
use std::thread::Threads;
use surf_outside::MemSink;

/// Each A turns the B beside it into C, and every wait is one tick: the same two events with every seed.
const CATALYST: &[u8] =
    b"!START_TRANSITION_RULES\n(1000000000) A + B -> A + C\n!END_TRANSITION_RULES\n!START_INIT_STATE\nB A B\n!END_INIT_STATE\n";

/// Three species that walk over a surface without edges and meet.
const WALKERS: &[u8] =
    b"max_duration = 20\nwrap = true\n!START_TRANSITION_RULES\n(1) A + O -> O + A\n(1) B + O -> O + B\n(1/2) A + B -> C + C\n(1/4) C -> A\n!END_TRANSITION_RULES\n!START_INIT_STATE\nA O B O C A O B\nC A O B O C A O\nO C A O B O C A\nB O C A O B O C\nO B O C A O B O\nA O B O C A O B\nC A O B O C A O\nO C A O B O C A\n!END_INIT_STATE\n";

/// The text of an ensemble of a manifest.
fn text_of<R: Threads + Sync>(
    rt: &R,
    alloc: Global,
    manifest: &[u8],
    settings: EnsembleSettings,
) -> Result<MemSink, Fail>
    requires size { length manifest.now ≤ 67108864 }
    requires allowed { AreAllowed settings }
{
    let manifest = read_manifest(alloc, manifest)?;
    let outcomes = ensemble(rt, alloc, &manifest, settings)?;
    let mut sink = MemSink::new(alloc, 10_000, 1_000, &[])?;
    write_ensemble(&mut sink, &manifest.names, outcomes.as_slice())?;
    Ok(sink)
}

#[test]
fn seeds_begin_again_at_zero(rt: HostRuntime) -> Result<(), Fail> {
    let settings = EnsembleSettings {
        first: 18_446_744_073_709_551_615,
        seeds: 2,
        until: 100_000_000,
        limit: 1_000_000,
        workers: 1,
    };
    let sink = text_of(&rt, rt.alloc(), CATALYST, settings)?;
    let text =
        "seed 18446744073709551615 events 2 last 2 A:1 B:0 C:2\nseed 0 events 2 last 2 A:1 B:0 C:2\ntotal seeds 2 ended 2 events 4\nA least 1 greatest 1 sum 2\nB least 0 greatest 0 sum 0\nC least 2 greatest 2 sum 4\n";
    assert_eq!(rt; sink.bytes(), text.as_bytes());
    Ok(())
}

#[test]
fn a_run_is_cut_at_its_limit(rt: HostRuntime) -> Result<(), Fail> {
    let settings = EnsembleSettings {
        first: 7,
        seeds: 1,
        until: 100_000_000,
        limit: 1,
        workers: 1,
    };
    let sink = text_of(&rt, rt.alloc(), CATALYST, settings)?;
    let text =
        "seed 7 events 1 last 1 A:1 B:1 C:1 limit\ntotal seeds 1 ended 0 events 1\nA least 1 greatest 1 sum 1\nB least 1 greatest 1 sum 1\nC least 1 greatest 1 sum 1\n";
    assert_eq!(rt; sink.bytes(), text.as_bytes());
    Ok(())
}

#[test]
fn workers_have_no_effect(rt: HostRuntime) -> Result<(), Fail> {
    let alone = EnsembleSettings {
        first: 0,
        seeds: 7,
        until: 20_000_000,
        limit: 1_000_000,
        workers: 1,
    };
    let three = EnsembleSettings {
        first: 0,
        seeds: 7,
        until: 20_000_000,
        limit: 1_000_000,
        workers: 3,
    };
    let one = text_of(&rt, rt.alloc(), WALKERS, alone)?;
    let other = text_of(&rt, rt.alloc(), WALKERS, three)?;
    assert_eq!(rt; one.bytes(), other.bytes());
    Ok(())
}

#[test]
fn lines_are_written_one_by_one(rt: HostRuntime) -> Result<(), Fail> {
    let settings = EnsembleSettings {
        first: 5,
        seeds: 1,
        until: 1,
        limit: 1,
        workers: 64,
    };
    let manifest = read_manifest(rt.alloc(), CATALYST)?;
    let outcomes = ensemble(&rt, rt.alloc(), &manifest, settings)?;
    let mut sink = MemSink::new(rt.alloc(), 1_000, 7, &[])?;
    write_totals(&mut sink, &manifest.names, outcomes.as_slice())?;
    for outcome in outcomes.as_slice() {
        write_outcome(&mut sink, &manifest.names, outcome)?;
    }
    let text =
        "total seeds 1 ended 1 events 1\nA least 1 greatest 1 sum 1\nB least 1 greatest 1 sum 1\nC least 1 greatest 1 sum 1\nseed 5 events 1 last 1 A:1 B:1 C:1\n";
    assert_eq!(rt; sink.bytes(), text.as_bytes());
    Ok(())
}

#[test]
fn few_engines_stand_on_large_surfaces(rt: HostRuntime) {
    for (workers, sites, engines) in [(64, 1, 64), (64, 1_048_576, 4), (3, 1_048_576, 3)] {
        assert_eq!(rt; engines_at_once(workers, sites), engines);
    }
}

#[test]
fn the_laws_are_calls(_rt: HostRuntime) {
    laws::outcomes_are_those_of_the_seeds();
    laws::runs_end_at_the_limit();
    laws::seeds_follow_one_another();
}
