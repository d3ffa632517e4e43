//! The next event of a surface by rescanning every place: slow and plain, to compare faster runs with.

ghost use Rattle.std.specs.Prelude.{◌≡◌, ◌*◌, length, All};
ghost use Rattle.lattice.specs.Places.{IsPlace};
ghost use Rattle.lattice.specs.Surface.{after, IsChannelOf, HasRoom};
ghost use Rattle.plan.specs.Bounds.{IsWithinBounds};
ghost use Rattle.plan.specs.Next.{next as next_of_place, least as least_of};
ghost use Rattle.plan.specs.History.{due as due_of};

use crate::order::earlier;
use crate::plan::Plan;
use lattice::plain::rewrite;
use surf_kinds::{Event, Place, SiteId, SiteState, Step};

/// The next event of a place on a surface; none where the number is no place.
pub fn next(plan: &Plan, sites: &[SiteState], place: Place) -> Option<Event>
    requires { All IsWithinBounds sites.now }
    ensures { result ≡ next_of_place plan.now sites.now place.0 }
{
    let Some(pair) = plan.lattice().sites_of(place) else {
        return None;
    };
    let Some(a) = sites.get(pair.first.0 as usize) else {
        return None;
    };
    match pair.second {
        None => plan.next_of(place, *a, None),
        Some(second) => match sites.get(second.0 as usize) {
            None => None,
            Some(b) => plan.next_of(place, *a, Some(*b)),
        },
    }
}

/// The next event of a surface: of the next events of its places the one of the least key.
pub fn least(plan: &Plan, sites: &[SiteState]) -> Option<Event>
    requires { All IsWithinBounds sites.now }
    ensures { result ≡ least_of plan.now sites.now }
{
    let mut best = None;
    let end = Place::at(SiteId(plan.lattice().site_count()), Step::Alone);
    for place in 0..end.0 {
        best = earlier(best, next(plan, sites, Place(place)));
    }
    best
}

/// The next event of a surface, where its time is at most `until`.
pub fn due(plan: &Plan, until: u64, sites: &[SiteState]) -> Option<Event>
    requires { All IsWithinBounds sites.now }
    ensures { result ≡ due_of plan.now until sites.now }
{
    match least(plan, sites) {
        Some(event) if event.time <= until => Some(event),
        _ => None,
    }
}

/// Rewrites the sites of an event.
pub fn fire(plan: &Plan, sites: &mut [SiteState], event: Event)
    requires place { IsPlace plan.now.lattice event.place.0 }
    requires channel { IsChannelOf plan.now.rules event.channel }
    requires surface { length sites.old ≡ plan.now.lattice.rows * plan.now.lattice.cols }
    requires room { HasRoom plan.now.lattice sites.old event.place.0 }
    ensures { sites.new ≡ after plan.now.lattice plan.now.rules sites.old event }
{
    rewrite(plan.lattice(), plan.rules(), sites, event);
}
