use super::*;
use species::Names;
use std::test::Fail;
use surf_kinds::SpeciesId;
use surf_outside::MemSink;

#[test]
fn rows_are_lines_of_names(rt: HostRuntime) -> Result<(), Fail> {
    let mut names = Names::new(rt.alloc());
    let a = names.intern("A")?;
    let wire = names.intern("W0")?;
    let mut sink = MemSink::new(rt.alloc(), 100, 5, &[])?;
    write_rows(&mut sink, &names, 2, 3, &[a, wire, a, wire, wire, a])?;
    assert_eq!(rt; sink.bytes(), b"A W0 A\nW0 W0 A\n".as_slice());
    Ok(())
}
