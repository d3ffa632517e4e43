//! The entries of a queue: each is the next event of its place.

ghost use Rattle.std.specs.Prelude.{◌≡◌, ◌-◌, ◌*◌, ◌<◌, ◌≤◌, ℕ, All, IfOk, Some, slice_set};
ghost use Rattle.event_queue.specs.QueueView.{HasPlace};
ghost use Rattle.surf_kinds.specs.Steps.{end_of_places};
ghost use Rattle.lattice.specs.Places.{HasSite, sites_of};
ghost use Rattle.plan.specs.Bounds.{IsWithinBounds};
ghost use Rattle.plan.specs.Next.{next as next_of_place};
ghost use Rattle.plan.specs.Sharing.{ShareSite};
ghost use Rattle.next_events.specs.Entries.{Covers, CoversRange, IsDone, IsRefreshed, IsUpToDate};

use crate::places::Places;
use event_queue::Queue;
use lattice::PlaceRange;
use plan::Plan;
use std::alloc::Global;
use surf_kinds::{Event, NoMemory, Place, SiteId, Sites};
use surface_state::Surface;

/// The next event of a place on the surface, from its sites.
#[inline]
pub fn next(plan: &Plan, surface: &Surface, place: Place, sites: Sites) -> Option<Event>
    requires lattice { surface.now.lattice ≡ plan.now.lattice }
    requires bounds { All IsWithinBounds surface.now.sites }
    requires sites { sites_of plan.now.lattice place.0 ≡ Some sites }
    ensures { result ≡ next_of_place plan.now surface.now.sites place.0 }
{
    let first = surface.state(sites.first);
    match sites.second {
        None => plan.next_of(place, first, None),
        Some(second) => plan.next_of(place, first, Some(surface.state(second))),
    }
}

/// Sets the next event of a place.
// One copy of this, with `next` and `set` in it, serves all places that are refreshed.
#[inline(never)]
fn set_next(plan: &Plan, surface: &Surface, queue: &mut Queue, place: Place, sites: Sites)
    requires lattice { surface.now.lattice ≡ plan.now.lattice }
    requires bounds { All IsWithinBounds surface.now.sites }
    requires place { HasPlace queue.old place }
    requires sites { sites_of plan.now.lattice place.0 ≡ Some sites }
    ensures { queue.new ≡ record { first = queue.old.first; events = slice_set queue.old.events (place.0 - queue.old.first) (next_of_place plan.now surface.now.sites place.0) } }
{
    queue.set(place, next(plan, surface, place, sites));
}

/// A queue of the next events of the places of a range.
pub fn queue_of(
    alloc: Global,
    plan: &Plan,
    surface: &Surface,
    range: PlaceRange,
) -> Result<Queue, NoMemory>
    requires lattice { surface.now.lattice ≡ plan.now.lattice }
    requires bounds { All IsWithinBounds surface.now.sites }
    requires order { range.first ≤ range.end }
    requires within { range.end ≤ end_of_places (plan.now.lattice.rows * plan.now.lattice.cols) }
    ensures covers { IfOk result (λ q. CoversRange range q) }
    ensures entries { IfOk result (λ q. (k : ℕ) → range.first ≤ k → k < range.end → IsUpToDate plan.now surface.now.sites q k) }
{
    prove!(plan.lattice().site_count() <= 1_048_576);
    let count = (range.end - range.first) as u32;
    let mut queue = Queue::new(alloc, Place(range.first), count)?;
    for number in range.first..range.end {
        let place = Place(number);
        if let Some(sites) = plan.lattice().sites_of(place) {
            set_next(plan, surface, &mut queue, place, sites);
        }
    }
    Ok(queue)
}

/// Sets the next event of a place, if it is one of the queue's.
#[inline]
fn refresh_place<P: Places>(
    plan: &Plan,
    surface: &Surface,
    queue: &mut Queue,
    places: P,
    place: Place,
    sites: Sites,
)
    requires lattice { surface.now.lattice ≡ plan.now.lattice }
    requires bounds { All IsWithinBounds surface.now.sites }
    requires covers { Covers (P.has places) plan.now.lattice queue.old }
    requires sites { sites_of plan.now.lattice place.0 ≡ Some sites }
    ensures { IsRefreshed plan.now surface.now.sites (P.has places) (λ k. k ≡ place.0) queue.old queue.new }
{
    if places.has(place) {
        set_next(plan, surface, queue, place, sites);
    }
}

/// Sets the next event of a place of the site, but for one that has its own already.
#[inline]
fn refresh_unless<P: Places>(
    plan: &Plan,
    surface: &Surface,
    queue: &mut Queue,
    places: P,
    place: Place,
    site: SiteId,
    done: Place,
)
    requires lattice { surface.now.lattice ≡ plan.now.lattice }
    requires bounds { All IsWithinBounds surface.now.sites }
    requires covers { Covers (P.has places) plan.now.lattice queue.old }
    requires place { HasSite plan.now.lattice place.0 site.0 }
    requires done { IsDone plan.now surface.now.sites (P.has places) queue.old done.0 }
    ensures { IsRefreshed plan.now surface.now.sites (P.has places) (λ k. k ≡ place.0) queue.old queue.new }
{
    if place.0 != done.0 {
        let sites = plan.lattice().sites_with(place, site);
        refresh_place(plan, surface, queue, places, place, sites);
    }
}

/// Sets the next event of each place of the site but for one, which has its own already.
fn refresh_around<P: Places>(
    plan: &Plan,
    surface: &Surface,
    queue: &mut Queue,
    places: P,
    site: SiteId,
    done: Place,
)
    requires lattice { surface.now.lattice ≡ plan.now.lattice }
    requires bounds { All IsWithinBounds surface.now.sites }
    requires covers { Covers (P.has places) plan.now.lattice queue.old }
    requires site { site.0 < plan.now.lattice.rows * plan.now.lattice.cols }
    requires done { IsDone plan.now surface.now.sites (P.has places) queue.old done.0 }
    ensures { IsRefreshed plan.now surface.now.sites (P.has places) (λ k. HasSite plan.now.lattice k site.0) queue.old queue.new }
{
    let around = plan.lattice().places_of(site);
    let listed = &around.list[..usize::from(around.count)];
    for place in listed {
        refresh_unless(plan, surface, queue, places, *place, site, done);
    }
}

/// Sets the next event of each place of the queue that shares a site with this one. All other entries stay.
// The place itself is one of each of its sites' places, and is set once.
pub fn refresh<P: Places>(
    plan: &Plan,
    surface: &Surface,
    queue: &mut Queue,
    places: P,
    place: Place,
)
    requires lattice { surface.now.lattice ≡ plan.now.lattice }
    requires bounds { All IsWithinBounds surface.now.sites }
    requires covers { Covers (P.has places) plan.now.lattice queue.old }
    ensures { IsRefreshed plan.now surface.now.sites (P.has places) (ShareSite plan.now.lattice place.0) queue.old queue.new }
{
    if let Some(sites) = plan.lattice().sites_of(place) {
        refresh_place(plan, surface, queue, places, place, sites);
        refresh_around(plan, surface, queue, places, sites.first, place);
        if let Some(second) = sites.second {
            refresh_around(plan, surface, queue, places, second, place);
        }
    }
}
