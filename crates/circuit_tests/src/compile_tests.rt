//! The manifest of a circuit on its crossbar layout.

use crate::circuits::{XOR, cell_names};
use circuit_text::read_circuit;
use crn_compile::compile;
use manifest_read::Manifest;
use std::alloc::Global;
use std::process::Abort;
use std::test::Fail;

/// The names of the cells of an exclusive or, row by row, with a space behind each.
const CELLS: &str =
    "W1 w w w w w w w w . v . . . . . . . W0 cxx w w w w w w w . v . v . . . . . w cxx w cxx w w w w w . v . v . v . . . . p gXORxx q . v . . . . . w w w w . . . ";

/// Sees the seed, the last tick, the sizes and the cells of an exclusive or with the bits 1 and 0.
fn sees_exclusive_or<R: Abort>(rt: &R, alloc: Global, manifest: &Manifest) -> Result<(), Fail> {
    assert_eq!(rt; manifest.seed, 0);
    assert_eq!(rt; manifest.until, 1_000_000_000_000_000);
    assert_eq!(rt; manifest.lattice.rows(), 8);
    assert_eq!(rt; manifest.lattice.cols(), 9);
    assert_eq!(rt; manifest.rules.as_slice().len(), 114);
    assert_eq!(rt; manifest.names.count(), 56);
    let text = cell_names(alloc, manifest)?;
    assert_eq!(rt; text.as_str(), CELLS);
    Ok(())
}

#[test]
fn an_exclusive_or_is_laid_out(rt: HostRuntime) -> Result<(), Fail> {
    let circuit = read_circuit(rt.alloc(), XOR)?;
    let manifest = compile(rt.alloc(), &circuit, &[true, false])?;
    sees_exclusive_or(&rt, rt.alloc(), &manifest)
}
