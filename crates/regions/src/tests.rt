ghost use Rattle.std.specs.Prelude.{◌≡◌, ◌≤◌};

use super::*;
use lattice::{Kind, Lattice, PlaceRange};
use std::test::Fail;
use surf_kinds::{Event, Place, SiteId};

// As what a worker holds, or several share.
fn needs_both<T: Send + Sync>(value: T) -> T
    ensures { result ≡ value }
{
    value
}

/// The owner of a place, where there is such a place.
fn owner(lattice: &Lattice, workers: u32, place: u64) -> Option<u32>
    requires at_least { 1 ≤ workers }
    requires at_most { workers ≤ 64 }
{
    let cut = Cut::bands(lattice, workers);
    match lattice.sites_of(Place(place)) {
        None => None,
        Some(_) => Some(cut.owner(Place(place))),
    }
}

/// Whether the place exists and its events are told to these regions.
fn is_told_to(lattice: &Lattice, workers: u32, place: u64, regions: &[u32]) -> bool
    requires at_least { 1 ≤ workers }
    requires at_most { workers ≤ 64 }
{
    let cut = Cut::bands(lattice, workers);
    let event = Event {
        time: 1,
        place: Place(place),
        channel: 0,
    };
    match lattice.sites_of(Place(place)) {
        None => false,
        Some(_) => {
            let told = cut.told(&event);
            let each = regions
                .iter()
                .all(|region| cut.tells(Place(place), *region));
            &told.list[..usize::from(told.count)] == regions && each
        }
    }
}

/// Whether the region and the site exist and the region sees the site.
fn is_seen(lattice: &Lattice, workers: u32, region: u32, site: u32) -> bool
    requires at_least { 1 ≤ workers }
    requires at_most { workers ≤ 64 }
{
    let cut = Cut::bands(lattice, workers);
    region < cut.count() && site < lattice.site_count() && cut.sees(region, SiteId(site))
}

#[test]
fn each_of_eight_rows_is_a_region(rt: HostRuntime) -> Result<(), Fail> {
    let lattice = Lattice::new(Kind::Square, 8, 8, false)?;
    assert_eq!(rt; Cut::bands(&lattice, 8).count(), 8);
    for row in 0..8u32 {
        assert_eq!(rt; owner(&lattice, 8, 64 * u64::from(row)), Some(row));
    }
    // A site and an eastern pair of row 3, and its southern pair.
    assert!(rt; is_told_to(&lattice, 8, 192, &[2]));
    assert!(rt; is_told_to(&lattice, 8, 193, &[2]));
    assert!(rt; is_told_to(&lattice, 8, 194, &[2, 4]));
    assert!(rt; is_told_to(&lattice, 8, 0, &[]));
    assert!(rt; !is_seen(&lattice, 8, 2, 15));
    assert!(rt; is_seen(&lattice, 8, 2, 16));
    assert!(rt; is_seen(&lattice, 8, 2, 31));
    assert!(rt; !is_seen(&lattice, 8, 2, 32));
    Ok(())
}

#[test]
fn the_second_of_two_regions_has_two_of_three_rows(rt: HostRuntime) -> Result<(), Fail> {
    let lattice = Lattice::new(Kind::Square, 3, 2, false)?;
    let cut = needs_both(Cut::bands(&lattice, 2));
    assert_eq!(rt; cut.count(), 2);
    assert_eq!(rt; owner(&lattice, 2, 0), Some(0));
    assert_eq!(rt; owner(&lattice, 2, 16), Some(1));
    assert_eq!(rt; owner(&lattice, 2, 32), Some(1));
    assert!(rt; is_told_to(&lattice, 2, 2, &[1]));
    assert!(rt; is_told_to(&lattice, 2, 18, &[0]));
    assert!(rt; is_told_to(&lattice, 2, 32, &[]));
    Ok(())
}

#[test]
fn a_region_has_its_rows_and_its_neighbours(rt: HostRuntime) -> Result<(), Fail> {
    let lattice = Lattice::new(Kind::Square, 3, 2, false)?;
    let cut = Cut::bands(&lattice, 2);
    assert_eq!(rt; *cut.lattice(), lattice);
    // Row 0 has the sites 0 and 1, and so the places below that of site 2 alone.
    let places = cut.places(0);
    assert_eq!(rt; places, PlaceRange { first: 0, end: 16 });
    assert!(rt; places.has(Place(10)));
    assert!(rt; !places.has(Place(16)));
    assert_eq!(rt; cut.places(1), PlaceRange { first: 16, end: 48 });
    assert_eq!(rt; cut.neighbours(0).first, None);
    assert_eq!(rt; cut.neighbours(0).second, Some(1));
    Ok(())
}

#[test]
fn the_last_row_leads_to_the_first_one(rt: HostRuntime) -> Result<(), Fail> {
    let lattice = Lattice::new(Kind::Square, 4, 3, true)?;
    // The southern pair of site 9 has the sites 9 and 0, and that of site 0 the sites 0 and 3.
    assert_eq!(rt; owner(&lattice, 4, 74), Some(3));
    assert!(rt; is_told_to(&lattice, 4, 74, &[0, 2]));
    assert!(rt; is_told_to(&lattice, 4, 0, &[3]));
    assert!(rt; is_told_to(&lattice, 4, 2, &[1, 3]));
    assert!(rt; is_seen(&lattice, 4, 3, 0));
    assert!(rt; !is_seen(&lattice, 4, 3, 3));
    assert!(rt; !is_seen(&lattice, 4, 0, 9));
    Ok(())
}

#[test]
fn a_region_on_both_sides_is_told_once(rt: HostRuntime) -> Result<(), Fail> {
    let lattice = Lattice::new(Kind::Square, 3, 3, true)?;
    assert!(rt; is_told_to(&lattice, 2, 2, &[1]));
    assert!(rt; is_told_to(&lattice, 1, 2, &[]));
    assert_eq!(rt; Cut::bands(&lattice, 64).count(), 3);
    Ok(())
}

#[test]
fn a_step_to_the_south_west_leads_to_the_next_row(rt: HostRuntime) -> Result<(), Fail> {
    let flat = Lattice::new(Kind::Hex, 3, 3, false)?;
    // Of site 4 to site 6.
    assert!(rt; is_told_to(&flat, 3, 35, &[0, 2]));
    let wrapped = Lattice::new(Kind::Hex, 3, 3, true)?;
    // Of site 6 to site 2.
    assert!(rt; is_told_to(&wrapped, 3, 51, &[0, 1]));
    Ok(())
}

#[test]
fn two_rows_do_not_wrap(rt: HostRuntime) -> Result<(), Fail> {
    let lattice = Lattice::new(Kind::Square, 2, 2, true)?;
    assert!(rt; is_told_to(&lattice, 2, 0, &[]));
    assert!(rt; is_told_to(&lattice, 2, 2, &[1]));
    assert!(rt; is_told_to(&lattice, 2, 16, &[0]));
    assert_eq!(rt; owner(&lattice, 2, 18), None);
    assert!(rt; !is_seen(&lattice, 2, 1, 0));
    Ok(())
}
