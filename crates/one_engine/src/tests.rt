ghost use Rattle.std.specs.Prelude.{◌≡◌, ◌≤◌};

use super::*;
use lattice::{Kind, Lattice};
use plan::Plan;
use std::test::Fail;
use surf_kinds::{Event, Place, Rate, Rule, SpeciesId};
use surface_state::Surface;

const A: SpeciesId = SpeciesId(0);

const B: SpeciesId = SpeciesId(1);

const C: SpeciesId = SpeciesId(2);

/// At the rate 10^9 every wait is one tick.
const INSTANT: u32 = 1_000_000_000;

#[tactic(auto, using(surf_kinds::proofs::Fractions::whole_reduced))]
fn whole(p: u32) -> Rate
    requires { p ≤ 1000000000 }
{
    Rate { p, q: 1 }
}

fn event(time: u64, place: u64, channel: u16) -> Event {
    Event {
        time,
        place: Place(place),
        channel,
    }
}

#[test]
fn a_catalyst_turns_both_its_neighbours(rt: HostRuntime) -> Result<(), Fail> {
    let rules = [Rule::Two {
        rate: whole(INSTANT),
        a: A,
        b: B,
        c: A,
        d: C,
    }];
    let lattice = Lattice::new(Kind::Square, 1, 3, false)?;
    let plan = Plan::new(rt.alloc(), &rules, lattice, 0)?;
    let surface = Surface::new(rt.alloc(), lattice, &[B, A, B], 3)?;
    let mut engine = Engine::new(rt.alloc(), plan, surface)?;
    assert_eq!(rt; engine.fire(100000000), Some(event(1, 1, 1)));
    assert_eq!(rt; engine.fire(100000000), Some(event(2, 9, 0)));
    assert_eq!(rt; engine.fire(100000000), None);
    assert_eq!(rt; engine.surface().species_count(), 3);
    assert_eq!(rt; engine.plan().lattice().cols(), 3);
    Ok(())
}
