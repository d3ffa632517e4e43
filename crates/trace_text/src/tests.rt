use super::*;
use lattice::{Kind, Lattice};
use species::Names;
use std::test::Fail;
use surf_kinds::{Event, Place, SiteId, SpeciesId, Step};
use surf_outside::MemSink;
use surface_state::Surface;

#[test]
fn an_event_has_a_line(rt: HostRuntime) -> Result<(), Fail> {
    let lattice = Lattice::new(Kind::Hex, 12, 34, true)?;
    // Row 7 and column 20.
    let site = SiteId(7 * 34 + 20);
    for (step, line) in [
        (Step::Alone, "event 1000000000000000 7 20 self 4095 0\n"),
        (Step::East, "event 1000000000000000 7 20 east 4095 0\n"),
        (Step::South, "event 1000000000000000 7 20 south 4095 0\n"),
        (
            Step::SouthWest,
            "event 1000000000000000 7 20 southwest 4095 0\n",
        ),
    ] {
        let event = Event {
            time: 1_000_000_000_000_000,
            place: Place::at(site, step),
            channel: 8190,
        };
        assert!(rt; lattice.sites_of(event.place).is_some());
        let mut sink = MemSink::new(rt.alloc(), 100, 7, &[])?;
        write_event(&mut sink, &lattice, event)?;
        assert_eq!(rt; sink.bytes(), line.as_bytes());
    }
    Ok(())
}

#[test]
fn a_surface_has_its_rows_and_its_counts(rt: HostRuntime) -> Result<(), Fail> {
    let mut names = Names::new(rt.alloc());
    let a = names.intern("A")?;
    names.intern("none")?;
    let b = names.intern("B1")?;
    let lattice = Lattice::new(Kind::Square, 2, 2, false)?;
    let surface = Surface::new(rt.alloc(), lattice, &[b, a, b, b], 3)?;
    let mut sink = MemSink::new(rt.alloc(), 100, 7, &[])?;
    write_surface(&mut sink, &names, &lattice, &surface, 50, 17)?;
    let text = "surface 50 17\nB1 A\nB1 B1\ncounts A:1 none:0 B1:3\n";
    assert_eq!(rt; sink.bytes(), text.as_bytes());
    Ok(())
}

#[test]
fn a_run_ends_or_meets_its_limit(rt: HostRuntime) -> Result<(), Fail> {
    let mut sink = MemSink::new(rt.alloc(), 100, 7, &[])?;
    write_end(&mut sink, 100, 18446744073709551615)?;
    write_limit(&mut sink, 0)?;
    let text = "end 100 18446744073709551615\nlimit 0\n";
    assert_eq!(rt; sink.bytes(), text.as_bytes());
    Ok(())
}

#[test]
fn the_laws_are_calls(rt: HostRuntime) -> Result<(), Fail> {
    laws::each_site_is_counted_once();
    let lattice = Lattice::new(Kind::Square, 1, 1, false)?;
    let surface = Surface::new(rt.alloc(), lattice, &[SpeciesId(0)], 1)?;
    laws::counts_are_whole(&surface);
    Ok(())
}
