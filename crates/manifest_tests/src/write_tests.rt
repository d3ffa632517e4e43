//! The canonical texts of manifests.

ghost use Rattle.std.specs.Prelude.{◌≤◌, length};

use crate::texts::DEMO;
use manifest_read::read_manifest;
use manifest_write::{one_spelling, read_again, write_manifest};
use std::alloc::Global;
use std::process::Abort;
use std::test::Fail;
use surf_outside::{Failed, MemSink};

const DEMO_AGAIN: &[u8] =
    b"rng_seed = 7\nmax_duration = 2.5\nlattice = square\nwrap = false\npixels_per_node = 50\nfps = 60\n!START_TRANSITION_RULES\n(1) A + B -> B + A\n(1/4) C -> A\n!END_TRANSITION_RULES\n!START_INIT_STATE\nA B\nC A\n!END_INIT_STATE\n!START_COLORMAP\nA: (255, 0, 0)\n!END_COLORMAP\n";

const BARE: &[u8] =
    b"fps = \nlattice = hex\nwrap = True\nmax_duration = .000001\n!START_COLORMAP\n!END_COLORMAP\n!START_INIT_STATE\nA\n!END_INIT_STATE\n";

const BARE_AGAIN: &[u8] =
    b"rng_seed = 0\nmax_duration = 0.000001\nlattice = hex\nwrap = true\nfps =\n!START_TRANSITION_RULES\n!END_TRANSITION_RULES\n!START_INIT_STATE\nA\n!END_INIT_STATE\n!START_COLORMAP\n!END_COLORMAP\n";

/// Sees that the canonical text of the manifest of a text is this one.
fn prints<R: Abort>(rt: &R, alloc: Global, text: &[u8], again: &[u8]) -> Result<(), Fail>
    requires { length text.now ≤ 67108864 }
{
    let m = read_manifest(alloc, text)?;
    let mut sink = MemSink::new(alloc, 400, 7, &[])?;
    write_manifest(&m, &mut sink)?;
    assert_eq!(rt; sink.bytes(), again);
    Ok(())
}

#[test]
fn a_manifest_has_one_spelling(rt: HostRuntime) -> Result<(), Fail> {
    prints(&rt, rt.alloc(), DEMO, DEMO_AGAIN)?;
    prints(&rt, rt.alloc(), DEMO_AGAIN, DEMO_AGAIN)?;
    prints(&rt, rt.alloc(), BARE, BARE_AGAIN)?;
    prints(&rt, rt.alloc(), BARE_AGAIN, BARE_AGAIN)
}

#[test]
fn a_fault_leaves_a_prefix(rt: HostRuntime) -> Result<(), Fail> {
    let m = read_manifest(rt.alloc(), DEMO)?;
    let mut sink = MemSink::new(rt.alloc(), 400, 100, &[4])?;
    assert_eq!(rt; write_manifest(&m, &mut sink), Err(Failed));
    assert_eq!(rt; sink.bytes(), b"rng_seed = 7\nmax_duration = ".as_slice());
    assert_eq!(rt; sink.faults(), 1);
    Ok(())
}

#[test]
fn the_laws_are_calls() {
    read_again();
    one_spelling();
}
