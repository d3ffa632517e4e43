use super::*;
use lattice::{Kind, Lattice, PlaceRange};
use plan::Plan;
use std::test::Fail;
use surf_kinds::{Event, Place, Rate, Rule, SpeciesId};
use surface_state::Surface;

const A: SpeciesId = SpeciesId(0);

const B: SpeciesId = SpeciesId(1);

#[test]
#[tactic(auto, using(surf_kinds::proofs::Fractions::whole_reduced))]
fn a_range_has_its_own_next_events(rt: HostRuntime) -> Result<(), Fail> {
    // at this rate every wait is one tick
    let rate = Rate {
        p: 1_000_000_000,
        q: 1,
    };
    let rules = [Rule::Two {
        rate,
        a: A,
        b: B,
        c: A,
        d: A,
    }];
    let lattice = Lattice::new(Kind::Square, 1, 3, false)?;
    let plan = Plan::new(rt.alloc(), &rules, lattice, 0)?;
    let surface = Surface::new(rt.alloc(), lattice, &[B, A, B], 2)?;
    let range = PlaceRange { first: 8, end: 16 };
    let mut queue = queue_of(rt.alloc(), &plan, &surface, range)?;
    let second = Event {
        time: 1,
        place: Place(9),
        channel: 0,
    };
    assert_eq!(rt; queue.least(), Some(second));
    refresh(&plan, &surface, &mut queue, range, Place(1));
    assert_eq!(rt; queue.get(Place(9)), Some(second));
    Ok(())
}
