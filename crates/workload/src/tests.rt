ghost use Rattle.std.specs.Prelude.{◌≤◌, ◌^◌};

use super::*;
use std::alloc::Global;
use std::test::Fail;

/// The names of the first cells of a manifest, with a space behind each.
fn first_names(alloc: Global, number: u64, count: usize) -> Result<String, Fail>
    requires { number ≤ 10 ^ 9 }
{
    let manifest = make(alloc, number)?;
    let mut text = String::new(alloc);
    for cell in manifest.cells.as_slice().iter().take(count) {
        if u32::from(cell.0) < manifest.names.count() {
            text.push_str(manifest.names.name(*cell))?;
            text.push(' ')?;
        }
    }
    Ok(text)
}

#[test]
fn the_manifest_of_zero(rt: HostRuntime) -> Result<(), Fail> {
    let manifest = make(rt.alloc(), 0)?;
    assert_eq!(rt; manifest.seed, 0);
    assert_eq!(rt; manifest.until, 20_000_000);
    assert_eq!(rt; manifest.lattice.rows(), 8);
    assert_eq!(rt; manifest.lattice.cols(), 8);
    assert_eq!(rt; manifest.rules.as_slice().len(), 4);
    assert_eq!(rt; manifest.cells.as_slice().len(), 64);
    let text = first_names(rt.alloc(), 0, 16)?;
    assert_eq!(rt; text.as_str(), "A O B O C A O B C A O B O C A O ");
    Ok(())
}

#[test]
fn the_greatest_surface(rt: HostRuntime) -> Result<(), Fail> {
    let manifest = make(rt.alloc(), 7)?;
    assert_eq!(rt; manifest.lattice.rows(), 64);
    assert_eq!(rt; manifest.cells.as_slice().len(), 4096);
    Ok(())
}
