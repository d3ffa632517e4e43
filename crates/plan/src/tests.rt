ghost use Rattle.std.specs.Prelude.{◌≡◌};

use super::*;
use lattice::{Kind, Lattice};
use std::test::Fail;
use surf_kinds::{Event, Place, Rate, Rule, SiteState, SpeciesId};

const A: SpeciesId = SpeciesId(0);

const B: SpeciesId = SpeciesId(1);

const C: SpeciesId = SpeciesId(2);

fn fresh(species: SpeciesId) -> SiteState
    ensures { result ≡ record { species = species; version = 0; last = 0 } }
{
    SiteState {
        species,
        version: 0,
        last: 0,
    }
}

// The rate at which every wait is one tick.
#[tactic(auto, using(surf_kinds::proofs::Fractions::whole_reduced))]
fn instant() -> Rate {
    Rate {
        p: 1_000_000_000,
        q: 1,
    }
}

/// An event at tick 1.
fn first_event(place: Place, channel: u16) -> Event {
    Event {
        time: 1,
        place,
        channel,
    }
}

fn needs_both<T: Send + Sync>(value: T) -> T
    ensures { result ≡ value }
{
    value
}

#[test]
fn a_pair_is_offered_in_its_way(rt: HostRuntime) -> Result<(), Fail> {
    let rules = [Rule::Two {
        rate: instant(),
        a: A,
        b: B,
        c: A,
        d: C,
    }];
    let lattice = Lattice::new(Kind::Hex, 1, 3, false)?;
    let plan = needs_both(Plan::new(rt.alloc(), &rules, lattice, 0)?);
    let (a, b) = (fresh(A), fresh(B));
    assert_eq!(rt;
        plan.next_of(Place(1), b, Some(a)),
        Some(first_event(Place(1), 1))
    );
    assert_eq!(rt;
        plan.next_of(Place(9), a, Some(b)),
        Some(first_event(Place(9), 0))
    );
    assert_eq!(rt; plan.next_of(Place(1), b, Some(b)), None);
    assert_eq!(rt; plan.next_of(Place(0), a, None), None);
    assert_eq!(rt; plan.products(1), (C, Some(A)));
    assert_eq!(rt; plan.lattice().cols(), 3);
    assert!(rt; plan.fits(Place(1), 1));
    assert!(rt; !plan.fits(Place(0), 0));
    assert!(rt; !plan.fits(Place(1), 2));
    Ok(())
}
