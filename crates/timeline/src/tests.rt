ghost use Rattle.std.specs.Prelude.{◌≡◌, ◌<◌, ◌^◌, OnOk, IfSome, IsTrue, slice_get};
ghost use Rattle.lattice.specs.Places.{IsPlace};
ghost use Rattle.lattice.specs.Surface.{HasRoom};
ghost use Rattle.surface_state.specs.Changes.{IsSecondOf, AreBelow};
ghost use Rattle.surface_state.specs.SurfaceView.{SurfaceView};
ghost use Rattle.timeline.specs.TimelineView.{EndsBelow};
ghost use Rattle.timeline.specs.Led.{LedTo};

use super::*;
use lattice::{Kind, Lattice};
use std::process::Abort;
use std::test::Fail;
use surf_kinds::{Event, Key, NoMemory, Place, SiteId, SiteState, SpeciesId};
use surface_state::Surface;

const A: SpeciesId = SpeciesId(0);

const B: SpeciesId = SpeciesId(1);

const C: SpeciesId = SpeciesId(2);

fn event(time: u64, place: u64) -> Event {
    Event {
        time,
        place: Place(place),
        channel: 0,
    }
}

/// What stands at a site, where the surface has it.
fn state_at(surface: &Surface, site: u32) -> Option<SiteState> {
    if site < surface.lattice().site_count() {
        Some(surface.state(SiteId(site)))
    } else {
        None
    }
}

/// How many sites have a species, where the surface has it.
fn count_of(surface: &Surface, species: SpeciesId) -> Option<u32> {
    if u32::from(species.0) < surface.species_count() {
        Some(surface.count(species))
    } else {
        None
    }
}

fn state(species: SpeciesId, version: u64, last: u64) -> Option<SiteState> {
    Some(SiteState {
        species,
        version,
        last,
    })
}

/// Whether the site is one of the surface, and may be rewritten.
fn has_room(surface: &Surface, site: SiteId) -> bool
    ensures { IsTrue result → IfSome (slice_get surface.now.sites site.0) (λ s. s.version < 2 ^ 53) }
{
    site.0 < surface.lattice().site_count() && surface.state(site).version < 9_007_199_254_740_992
}

/// Whether the species are numbers of the surface, one for each site of the place, and these may be rewritten.
fn fits(surface: &Surface, place: Place, to: (SpeciesId, Option<SpeciesId>)) -> bool
    ensures place { IsTrue result → IsPlace surface.now.lattice place.0 }
    ensures pair { IsTrue result → IsSecondOf surface.now.lattice place.0 to.1 }
    ensures species { IsTrue result → AreBelow surface.now.species_count to.0 to.1 }
    ensures room { IsTrue result → HasRoom surface.now.lattice surface.now.sites place.0 }
{
    let Some(sites) = surface.lattice().sites_of(place) else {
        return false;
    };
    let species_count = surface.species_count();
    let first = u32::from(to.0.0) < species_count && has_room(surface, sites.first);
    match sites.second {
        None => to.1.is_none() && first,
        Some(second) => match to.1 {
            None => false,
            Some(species) => first
                && u32::from(species.0) < species_count
                && has_room(surface, second),
        },
    }
}

/// Whether all entries, of which the last one is looked at, are below the key.
fn ends_below(entries: &[Entry], key: Key) -> bool
    ensures { IsTrue result → EndsBelow key entries.now }
{
    match entries.last() {
        None => true,
        Some(last) => last.key().is_before(key),
    }
}

/// Applies an event, and keeps it last.
fn act<R: Abort>(
    rt: &R,
    timeline: &mut Timeline,
    surface: &mut Surface,
    event: Event,
    to: (SpeciesId, Option<SpeciesId>),
) -> Result<(), NoMemory>
    requires { (base : SurfaceView) × LedTo base timeline.old.entries surface.old }
    ensures { OnOk result ((base : SurfaceView) × LedTo base timeline.new.entries surface.new) }
{
    timeline.reserve(1)?;
    assert!(rt; fits(surface, event.place, to));
    assert!(rt; ends_below(timeline.entries(), event.key()));
    let before = surface.apply(event, to);
    timeline.push(Entry { before, own: true });
    Ok(())
}

fn needs_both<T: Send + Sync>(value: T) -> T
    ensures { result ≡ value }
{
    value
}

#[test]
fn a_key_brings_back_what_stood_before_it(rt: HostRuntime) -> Result<(), Fail> {
    let lattice = Lattice::new(Kind::Square, 1, 3, false)?;
    let mut surface = Surface::new(rt.alloc(), lattice, &[B, A, B], 3)?;
    let mut timeline = needs_both(Timeline::new(rt.alloc()));
    act(&rt, &mut timeline, &mut surface, event(1, 1), (C, Some(A)))?;
    act(&rt, &mut timeline, &mut surface, event(2, 9), (B, Some(C)))?;
    act(&rt, &mut timeline, &mut surface, event(3, 0), (A, None))?;
    assert_eq!(rt; state_at(&surface, 0), state(A, 2, 3));
    assert_eq!(rt; state_at(&surface, 1), state(B, 2, 2));
    let undone = timeline.back_to(event(2, 9).key(), &mut surface);
    assert_eq!(rt; undone, 2);
    assert_eq!(rt; timeline.entries().len(), 1);
    assert_eq!(rt; state_at(&surface, 0), state(C, 1, 1));
    assert_eq!(rt; state_at(&surface, 1), state(A, 1, 1));
    assert_eq!(rt; state_at(&surface, 2), state(B, 0, 0));
    assert_eq!(rt; count_of(&surface, A), Some(1));
    assert_eq!(rt; count_of(&surface, B), Some(1));
    assert_eq!(rt; count_of(&surface, C), Some(1));
    Ok(())
}

#[test]
fn what_is_forgotten_stays_applied(rt: HostRuntime) -> Result<(), Fail> {
    let lattice = Lattice::new(Kind::Square, 1, 3, false)?;
    let mut surface = Surface::new(rt.alloc(), lattice, &[B, A, B], 3)?;
    let mut timeline = Timeline::new(rt.alloc());
    act(&rt, &mut timeline, &mut surface, event(1, 1), (C, Some(A)))?;
    act(&rt, &mut timeline, &mut surface, event(2, 9), (B, Some(C)))?;
    act(&rt, &mut timeline, &mut surface, event(3, 0), (A, None))?;
    timeline.drop_below(event(2, 9).key());
    assert_eq!(rt; timeline.entries().len(), 2);
    let undone = timeline.back_to(event(0, 0).key(), &mut surface);
    assert_eq!(rt; undone, 2);
    assert_eq!(rt; timeline.entries().len(), 0);
    assert_eq!(rt; state_at(&surface, 0), state(C, 1, 1));
    assert_eq!(rt; state_at(&surface, 1), state(A, 1, 1));
    assert_eq!(rt; state_at(&surface, 2), state(B, 0, 0));
    Ok(())
}
