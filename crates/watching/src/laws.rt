//! Laws of the changes that events make, over their definitions alone.

ghost use Rattle.std.specs.Prelude.{◌≡◌, ◌*◌, ◌<◌, ◌≤◌, ℕ, List, All, length, map};
ghost use Rattle.frames.specs.declared.sample.Change.{Change as TheChange};
ghost use Rattle.viewer.specs.declared.viewer.Viewer.{Viewer as TheViewer};
ghost use Rattle.watching.specs.Viewing.{IsDone};
ghost use Rattle.watching.specs.Views.{AreViews};
ghost use Rattle.surf_kinds.specs.declared.event.Event.{Event as TheEvent};
ghost use Rattle.surf_kinds.specs.declared.site.SiteState.{SiteState as TheSite};
ghost use Rattle.plan.specs.Network.{Network};
ghost use Rattle.plan.specs.Products.{LeavesWithin};
ghost use Rattle.plan.specs.History.{AreNext};
ghost use Rattle.trace_text.specs.Lines.{counts_of};
ghost use Rattle.frames.specs.States.{after};
ghost use Rattle.watching.specs.Changes.{changes_of, state_after};

use crate::publisher::Publisher;

/// The state after the changes that the next events of a surface make is that of the surface after these events.
pub fn changes_lead_to_the_surface()
    ensures { (n : Network) (until kinds : ℕ) (sites : List TheSite) (es : List TheEvent) → All (LeavesWithin kinds) n.rules → length sites ≡ n.lattice.rows * n.lattice.cols → All (λ s. s.species.0 < kinds) sites → AreNext n until sites es
        → after (counts_of sites kinds) (changes_of n.lattice n.rules sites es) ≡ state_after n.lattice n.rules kinds sites es }
{}

/// The samples of viewers that are done are states of the surface after beginnings of the events. Each has a count for
/// each species.
pub fn viewers_see_the_surface()
    ensures views { (n : Network) (until kinds : ℕ) (first : List TheSite) (es : List TheEvent) (frames : ℕ) (viewers : List TheViewer) → All (LeavesWithin kinds) n.rules → length first ≡ n.lattice.rows * n.lattice.cols → All (λ s. s.species.0 < kinds) first
        → AreNext n until first es → 1 ≤ frames → All (IsDone (counts_of first kinds) (changes_of n.lattice n.rules first es) frames) viewers → AreViews n kinds (length viewers) frames first es (map (λ v. v.samples) viewers) }
    ensures wide { (start : List ℕ) (changes : List TheChange) (frames kinds : ℕ) (v : TheViewer) → length start ≡ kinds → IsDone start changes frames v → All (λ s. length s.counts ≡ kinds) v.samples }
{}

/// A value that may go to another thread.
fn needs_send<T: Send>(value: T) -> T
    ensures { result ≡ value }
{
    value
}

/// A publisher may go to another thread.
pub fn a_publisher_is_sent(publisher: Publisher) -> Publisher
    ensures { result ≡ publisher }
{
    needs_send(publisher)
}
