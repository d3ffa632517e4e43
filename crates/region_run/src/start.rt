//! A region at its start.

ghost use Rattle.std.specs.Prelude.{◌≡◌, ◌<◌, All, IfOk, Option, None};
ghost use Rattle.region_run.specs.Starts.{IsFirst, IsNewSide};
ghost use Rattle.plan.specs.Products.{LeavesWithin};
ghost use Rattle.warp_core.specs.Configs.{IsFresh};

use crate::board::Board;
use crate::region::Region;
use crate::side::Side;
use crate::totals::Totals;
use border::Stacks;
use next_events::queue_of;
use plan::Plan;
use regions::Cut;
use regions::laws::neighbours_are_told;
use std::alloc::Global;
use surf_kinds::{Key, NoMemory, Place};
use surface_state::Surface;
use timeline::Timeline;

/// A neighbour, where there is one, to which no ring leads yet.
fn side_of(alloc: Global, other: Option<u32>) -> Option<Side>
    ensures { IsNewSide other result }
{
    match other {
        Some(other) => Some(Side::new(alloc, other)),
        None => None,
    }
}

impl Region {
    /// A region of a cut, over a surface that no event changed.
    pub fn new(
        alloc: Global,
        id: u32,
        cut: &Cut,
        plan: &Plan,
        start: &Surface,
    ) -> Result<Region, NoMemory>
        requires id { id < cut.now.count }
        requires cut { cut.now.lattice ≡ plan.now.lattice }
        requires lattice { start.now.lattice ≡ plan.now.lattice }
        requires species { All (LeavesWithin start.now.species_count) plan.now.rules }
        requires fresh { All IsFresh start.now.sites }
        ensures { IfOk result (λ r. IsFirst plan.now cut.now id start.now r) }
    {
        neighbours_are_told();
        let range = cut.places(id);
        let neighbours = cut.neighbours(id);
        let surface = start.copy()?;
        let queue = queue_of(alloc, plan, &surface, range)?;
        let stacks = Stacks::new(alloc, 2)?;
        let origin = Key {
            time: 0,
            place: Place(0),
        };
        Ok(Region {
            id,
            board: Board {
                surface,
                timeline: Timeline::new(alloc),
                queue,
                range,
                undoable: cut.count() > 1,
                changes: Vec::new(alloc),
            },
            clock: origin,
            floor: origin,
            stacks,
            first: side_of(alloc, neighbours.first),
            second: side_of(alloc, neighbours.second),
            totals: Totals::none(),
            gap: [0; 16],
        })
    }
}
