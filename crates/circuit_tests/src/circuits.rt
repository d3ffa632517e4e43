//! Circuits that several tests lay out, and the cells of their manifests.

use circuit_text::{Circuit, read_circuit};
use manifest_read::Manifest;
use std::alloc::Global;
use std::test::Fail;

pub(crate) const XOR: &[u8] = b"input a b\nx = XOR a b\noutput x\n";

/// A name of two letters for each number below 676.
fn add_name(text: &mut Vec<u8>, number: u32) -> Result<(), Fail> {
    text.push(b'a' + (number / 26 % 26) as u8)?;
    text.push(b'a' + (number % 26) as u8)?;
    Ok(())
}

/// One input, and so many gates that each pass on the net before. The output is the net of this number.
pub(crate) fn chain(alloc: Global, gates: u32, output: u32) -> Result<Circuit, Fail> {
    let mut text = b"input aa\noutput ".to_vec(alloc)?;
    add_name(&mut text, output)?;
    text.push(b'\n')?;
    for gate in 0..gates {
        add_name(&mut text, gate + 1)?;
        text.extend_from_slice(b" = BUF ")?;
        add_name(&mut text, gate)?;
        text.push(b'\n')?;
    }
    // far longer than the texts of these tests
    text.truncate(1_000_000);
    Ok(read_circuit(alloc, &text)?)
}

/// The names of a manifest's cells, with a space behind each.
pub(crate) fn cell_names(alloc: Global, manifest: &Manifest) -> Result<String, Fail> {
    let mut text = String::new(alloc);
    for cell in manifest.cells.as_slice() {
        if u32::from(cell.0) < manifest.names.count() {
            text.push_str(manifest.names.name(*cell))?;
            text.push(' ')?;
        }
    }
    Ok(text)
}
