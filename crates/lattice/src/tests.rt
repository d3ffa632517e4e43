ghost use Rattle.std.specs.Prelude.{◌≡◌};

use super::*;
use std::test::Fail;
use surf_kinds::{Event, Place, Rate, Rule, SiteId, SiteState, SpeciesId, Step};

// As what a worker holds, or several share.
fn needs_both<T: Send + Sync>(value: T) -> T
    ensures { result ≡ value }
{
    value
}

// How many places of 9 sites have this step.
fn places_by(lattice: &Lattice, step: Step) -> usize {
    (0..9u32)
        .filter(|&site| lattice.sites_of(Place::at(SiteId(site), step)).is_some())
        .count()
}

// Whether the number is a pair of neighbours.
fn is_pair(lattice: &Lattice, place: u64) -> bool {
    match lattice.sites_of(Place(place)) {
        None => false,
        Some(sites) => sites.second.is_some(),
    }
}

#[test]
fn a_dimension_of_two_does_not_wrap(rt: HostRuntime) -> Result<(), Fail> {
    let lattice = needs_both(Lattice::new(Kind::Square, 2, 2, true)?);
    let pairs: Vec<u64> = (0..64u64)
        .filter(|&place| is_pair(&lattice, place))
        .collect(rt.alloc())?;
    assert_eq!(rt; pairs.as_slice(), [1, 2, 10, 17].as_slice());
    Ok(())
}

#[test]
fn a_column_of_three_wraps(rt: HostRuntime) -> Result<(), Fail> {
    let lattice = Lattice::new(Kind::Square, 3, 1, true)?;
    let pairs: Vec<u64> = (0..64u64)
        .filter(|&place| is_pair(&lattice, place))
        .collect(rt.alloc())?;
    assert_eq!(rt; pairs.as_slice(), [2, 10, 18].as_slice());
    let sites = lattice.sites_of(Place(18)).ok_or("no place")?;
    assert_eq!(rt; sites.first, SiteId(2));
    assert_eq!(rt; sites.second, Some(SiteId(0)));
    Ok(())
}

#[test]
fn a_pair_is_found_from_both_its_sites(rt: HostRuntime) -> Result<(), Fail> {
    let lattice = Lattice::new(Kind::Square, 3, 1, true)?;
    let sites = lattice.sites_of(Place(18)).ok_or("no place")?;
    assert_eq!(rt; lattice.sites_with(Place(18), sites.first), sites);
    let second = sites.second.ok_or("one site alone")?;
    assert_eq!(rt; lattice.sites_with(Place(18), second), sites);
    Ok(())
}

#[test]
fn three_by_three_hexagons_have_their_pairs(rt: HostRuntime) -> Result<(), Fail> {
    let wrapped = Lattice::new(Kind::Hex, 3, 3, true)?;
    assert_eq!(rt; places_by(&wrapped, Step::East), 9);
    assert_eq!(rt; places_by(&wrapped, Step::South), 9);
    assert_eq!(rt; places_by(&wrapped, Step::SouthWest), 9);
    for site in 0..9 {
        let places = wrapped.places_of(SiteId(site));
        assert_eq!(rt; places.count, 7);
    }
    let flat = Lattice::new(Kind::Hex, 3, 3, false)?;
    assert_eq!(rt; places_by(&flat, Step::East), 6);
    assert_eq!(rt; places_by(&flat, Step::South), 6);
    assert_eq!(rt; places_by(&flat, Step::SouthWest), 4);
    Ok(())
}

#[test]
fn hexagons_have_a_neighbour_to_the_south_west(rt: HostRuntime) -> Result<(), Fail> {
    let flat = Lattice::new(Kind::Hex, 3, 3, false)?;
    let pair = flat
        .sites_of(Place::at(SiteId(1), Step::SouthWest))
        .ok_or("no place")?;
    assert_eq!(rt; pair.second, Some(SiteId(3)));
    // Past two edges, from the last row and the first column.
    let wrapped = Lattice::new(Kind::Hex, 3, 3, true)?;
    let corner = wrapped
        .sites_of(Place::at(SiteId(6), Step::SouthWest))
        .ok_or("no place")?;
    assert_eq!(rt; corner.second, Some(SiteId(2)));
    let square = Lattice::new(Kind::Square, 3, 3, true)?;
    assert_eq!(rt;
        square.sites_of(Place::at(SiteId(1), Step::SouthWest)),
        None
    );
    Ok(())
}

#[test]
fn sizes_are_bounded(rt: HostRuntime) {
    assert_eq!(rt;
        Lattice::new(Kind::Square, 0, 5, false),
        Err(SizeFault::NoSites)
    );
    assert_eq!(rt;
        Lattice::new(Kind::Hex, 5, 0, true),
        Err(SizeFault::NoSites)
    );
    assert_eq!(rt;
        Lattice::new(Kind::Square, 1024, 1025, false),
        Err(SizeFault::TooManySites)
    );
    assert!(rt; Lattice::new(Kind::Square, 1024, 1024, false).is_ok());
}

#[test]
fn a_rule_rewrites_both_sites(rt: HostRuntime) -> Result<(), Fail> {
    let lattice = Lattice::new(Kind::Square, 1, 2, false)?;
    let rules = [Rule::Two {
        rate: Rate { p: 1, q: 1 },
        a: SpeciesId(0),
        b: SpeciesId(1),
        c: SpeciesId(0),
        d: SpeciesId(2),
    }];
    assert!(rt; plain::matches(rules[0], 1, SpeciesId(1), Some(SpeciesId(0))));
    let mut sites = [fresh(1), fresh(0)];
    let event = Event {
        time: 5,
        place: Place(1),
        channel: 1,
    };
    plain::rewrite(&lattice, &rules, &mut sites, event);
    assert_eq!(rt;
        sites[0],
        SiteState {
            species: SpeciesId(2),
            version: 1,
            last: 5
        }
    );
    assert_eq!(rt;
        sites[1],
        SiteState {
            species: SpeciesId(0),
            version: 1,
            last: 5
        }
    );
    Ok(())
}

fn fresh(species: u16) -> SiteState
    ensures { result.version ≡ 0 }
{
    SiteState {
        species: SpeciesId(species),
        version: 0,
        last: 0,
    }
}
