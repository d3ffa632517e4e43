ghost use Rattle.std.specs.Prelude.{◌≡◌};

use super::*;
use lattice::{Kind, Lattice};
use std::test::Fail;
use surf_kinds::{Event, Place, SiteId, SiteState, SpeciesId};

const A: SpeciesId = SpeciesId(0);

const B: SpeciesId = SpeciesId(1);

const C: SpeciesId = SpeciesId(2);

fn state(species: SpeciesId, version: u64, last: u64) -> SiteState {
    SiteState {
        species,
        version,
        last,
    }
}

fn needs_both<T: Send + Sync>(value: T) -> T
    ensures { result ≡ value }
{
    value
}

#[test]
fn an_event_rewrites_its_sites(rt: HostRuntime) -> Result<(), Fail> {
    let lattice = Lattice::new(Kind::Square, 1, 3, false)?;
    let mut surface = Surface::new(rt.alloc(), lattice, &[B, A, B], 3)?;
    let event = Event {
        time: 1,
        place: Place(1),
        channel: 1,
    };
    surface.apply(event, (C, Some(A)));
    assert_eq!(rt; surface.state(SiteId(0)), state(C, 1, 1));
    assert_eq!(rt; surface.state(SiteId(1)), state(A, 1, 1));
    assert_eq!(rt; surface.state(SiteId(2)), state(B, 0, 0));
    assert_eq!(rt; surface.count(A), 1);
    assert_eq!(rt; surface.count(B), 1);
    assert_eq!(rt; surface.count(C), 1);
    Ok(())
}

#[test]
fn an_event_is_taken_back(rt: HostRuntime) -> Result<(), Fail> {
    let lattice = Lattice::new(Kind::Square, 1, 3, false)?;
    let mut surface = Surface::new(rt.alloc(), lattice, &[B, A, B], 3)?;
    let event = Event {
        time: 1,
        place: Place(1),
        channel: 1,
    };
    let before = surface.apply(event, (C, Some(A)));
    surface.undo(before);
    assert_eq!(rt; surface.state(SiteId(0)), state(B, 0, 0));
    assert_eq!(rt; surface.state(SiteId(1)), state(A, 0, 0));
    assert_eq!(rt; surface.count(B), 2);
    assert_eq!(rt; surface.count(C), 0);
    Ok(())
}

#[test]
fn a_copy_stays_as_it_is(rt: HostRuntime) -> Result<(), Fail> {
    let lattice = Lattice::new(Kind::Square, 1, 2, false)?;
    let mut surface = Surface::new(rt.alloc(), lattice, &[A, B], 3)?;
    let copy = needs_both(surface.copy()?);
    let event = Event {
        time: 7,
        place: Place(8),
        channel: 0,
    };
    surface.apply(event, (C, None));
    assert_eq!(rt; surface.state(SiteId(1)), state(C, 1, 7));
    assert_eq!(rt; copy.state(SiteId(1)), state(B, 0, 0));
    assert_eq!(rt; copy.lattice().cols(), 2);
    assert_eq!(rt; copy.species_count(), 3);
    Ok(())
}
