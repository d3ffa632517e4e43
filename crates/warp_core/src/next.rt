//! The next entry of a region.

ghost use Rattle.std.specs.Prelude.{◌≡◌, ◌*◌, length, All};
ghost use Rattle.plan.specs.Bounds.{IsWithinBounds};
ghost use Rattle.border.specs.Stacked.{stack_of};
ghost use Rattle.surf_kinds.specs.Steps.{end_of_places};
ghost use Rattle.warp_core.specs.Choices.{earlier_due_of, own_event, first_own, first_in, first_entry};

use border::Stacks;
use next_events::next;
use plan::Plan;
use regions::Cut;
use surf_kinds::{Event, Key, Place, SiteId, Step};
use surface_state::Surface;

/// The earlier of two events; one before the clock or after the end doesn't count.
fn earlier_due(best: Option<Event>, event: Option<Event>, clock: Key, until: u64) -> Option<Event>
    ensures { result ≡ earlier_due_of clock until best event }
{
    let Some(event) = event else {
        return best;
    };
    if event.key().is_before(clock) || until < event.time {
        return best;
    }
    match best {
        Some(other) if !event.key().is_before(other.key()) => best,
        _ => Some(event),
    }
}

/// The next event of a place, where it is one of the region.
fn own_event(plan: &Plan, cut: &Cut, region: u32, surface: &Surface, place: Place) -> Option<Event>
    requires cut { cut.now.lattice ≡ plan.now.lattice }
    requires lattice { surface.now.lattice ≡ plan.now.lattice }
    requires bounds { All IsWithinBounds surface.now.sites }
    ensures { result ≡ own_event plan.now cut.now region surface.now.sites place.0 }
{
    let Some(sites) = plan.lattice().sites_of(place) else {
        return None;
    };
    if cut.owner(place) != region {
        return None;
    }
    next(plan, surface, place, sites)
}

/// The first of the next events of a region's own places, from the clock on.
fn first_own(
    plan: &Plan,
    cut: &Cut,
    region: u32,
    surface: &Surface,
    clock: Key,
    until: u64,
) -> Option<Event>
    requires cut { cut.now.lattice ≡ plan.now.lattice }
    requires lattice { surface.now.lattice ≡ plan.now.lattice }
    requires bounds { All IsWithinBounds surface.now.sites }
    ensures { result ≡ first_own plan.now cut.now region surface.now.sites clock until (end_of_places (plan.now.lattice.rows * plan.now.lattice.cols)) }
{
    let mut best = None;
    let end = Place::at(SiteId(plan.lattice().site_count()), Step::Alone);
    for number in 0..end.0 {
        let event = own_event(plan, cut, region, surface, Place(number));
        best = earlier_due(best, event, clock, until);
    }
    best
}

/// The first of an event and the events of a stack, from the clock on.
fn first_in(first: Option<Event>, stack: &[Event], clock: Key, until: u64) -> Option<Event>
    ensures { result ≡ first_in clock until first stack.now }
{
    let mut best = first;
    for event in stack {
        best = earlier_due(best, Some(*event), clock, until);
    }
    best
}

/// The next entry of a region, from its clock on and up to the end.
pub(crate) fn next_entry(
    plan: &Plan,
    cut: &Cut,
    region: u32,
    surface: &Surface,
    stacks: &Stacks,
    clock: Key,
    until: u64,
) -> Option<Event>
    requires cut { cut.now.lattice ≡ plan.now.lattice }
    requires lattice { surface.now.lattice ≡ plan.now.lattice }
    requires bounds { All IsWithinBounds surface.now.sites }
    requires stacks { length stacks.now.stacks ≡ cut.now.count }
    ensures { result ≡ first_entry plan.now cut.now region surface.now.sites (stack_of stacks.now) clock until cut.now.count }
{
    let mut best = first_own(plan, cut, region, surface, clock, until);
    for sender in 0..cut.count() {
        if sender != region {
            best = first_in(best, stacks.of(sender), clock, until);
        }
    }
    best
}
