//! The compact layout: tracks of nets, and manifests on them.

ghost use Rattle.std.specs.Prelude.{◌<◌, ◌^◌, length};

use crate::circuits::{XOR, cell_names, chain};
use circuit_text::{Circuit, read_circuit};
use std::alloc::Global;
use std::test::Fail;
use track_layout::{Tracks, compact};

/// An input that no gate reads.
const UNUSED: &[u8] = b"input a b\nx = NOT a\noutput x\n";

/// The track of each net.
fn tracks(alloc: Global, circuit: &Circuit) -> Result<Vec<u32>, Fail> {
    let laid = Tracks::of(alloc, circuit)?;
    let mut tracks = Vec::new(alloc);
    for net in 0..circuit.net_count() {
        tracks.push(laid.track(net))?;
    }
    Ok(tracks)
}

/// How many tracks there are, and the column at which as many spans meet.
fn counts(alloc: Global, circuit: &Circuit) -> Result<(u32, u32), Fail> {
    let laid = Tracks::of(alloc, circuit)?;
    Ok((laid.count(), laid.crowded()))
}

/// The rows, the columns and the names of the cells of a compact manifest.
fn compacted(alloc: Global, circuit: &Circuit, inputs: &[bool]) -> Result<(u32, u32, String), Fail>
    requires { length inputs.now < 2 ^ 32 }
{
    let manifest = compact(alloc, circuit, inputs)?;
    let names = cell_names(alloc, &manifest)?;
    Ok((manifest.lattice.rows(), manifest.lattice.cols(), names))
}

#[test]
fn an_output_takes_the_track_of_an_input(rt: HostRuntime) -> Result<(), Fail> {
    let alloc = rt.alloc();
    let tracks = tracks(alloc, &read_circuit(alloc, XOR)?)?;
    assert_eq!(rt; tracks.as_slice(), [0, 1, 0].as_slice());
    assert_eq!(rt; counts(alloc, &read_circuit(alloc, XOR)?)?, (2, 0));
    Ok(())
}

#[test]
fn an_exclusive_or_is_compact(rt: HostRuntime) -> Result<(), Fail> {
    let alloc = rt.alloc();
    let (rows, cols, names) = compacted(alloc, &read_circuit(alloc, XOR)?, &[true, false])?;
    assert_eq!(rt; (rows, cols), (6, 9));
    assert_eq!(rt;
        names.as_str(),
        "W1 w . . . w w w w . v . . . v . . . W0 cxx w w . v . . . . v . v . v . . . . p gXORxx q . v . . . . . w w w w . . . "
    );
    Ok(())
}

#[test]
fn a_chain_has_one_track(rt: HostRuntime) -> Result<(), Fail> {
    let alloc = rt.alloc();
    assert_eq!(rt; counts(alloc, &chain(alloc, 295, 295)?)?, (1, 0));
    let (rows, cols, _) = compacted(alloc, &chain(alloc, 295, 295)?, &[true])?;
    assert_eq!(rt; (rows, cols), (4, 1_773));
    Ok(())
}

#[test]
fn an_input_without_use_has_a_track(rt: HostRuntime) -> Result<(), Fail> {
    let alloc = rt.alloc();
    assert_eq!(rt; counts(alloc, &read_circuit(alloc, UNUSED)?)?, (2, 0));
    let (_, _, names) = compacted(alloc, &read_circuit(alloc, UNUSED)?, &[false, true])?;
    assert!(rt;
        names.as_str().starts_with("W0 w . . . w w w w . v . . . v . . . W1 cxx . . . v . . . ")
    );
    Ok(())
}
