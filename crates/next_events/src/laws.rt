//! Laws of the entries of queues, over their definitions alone.

ghost use Rattle.std.specs.Prelude.{◌≡◌, ℕ, Bool, List, slice_get, true};
ghost use Rattle.surf_kinds.specs.declared.site.SiteState.{SiteState};
ghost use Rattle.lattice.specs.Shape.{Shape};
ghost use Rattle.lattice.specs.Places.{HasSite};
ghost use Rattle.lattice.specs.Ranges.{is_in_range};
ghost use Rattle.lattice.specs.declared.place_range.PlaceRange.{PlaceRange as Range};
ghost use Rattle.event_queue.specs.QueueView.{QueueView};
ghost use Rattle.plan.specs.Network.{Network};
ghost use Rattle.plan.specs.Sharing.{ShareSite};
ghost use Rattle.next_events.specs.Entries.{all_places, AreUpToDate, Covers, CoversRange, IsRefreshed};

/// A queue over a range covers the places of the range, and one over all places of a lattice every place.
pub fn queues_cover_their_ranges()
    ensures range { (l : Shape) (r : Range) (q : QueueView) → CoversRange r q → Covers (is_in_range r) l q }
    ensures all { (l : Shape) (q : QueueView) → CoversRange (all_places l) q → Covers (λ _. true) l q }
{}

/// Where two surfaces differ at the sites of one place at most, as before and after an event or its undo, a queue that
/// was up to date on the one is up to date on the other, once it is refreshed round the place.
pub fn refreshed_is_up_to_date()
    ensures { (n : Network) (has : ℕ → Bool) (old new : List SiteState) (place : ℕ) (q r : QueueView)
        → ((s : ℕ) → (HasSite n.lattice place s → ⊥) → slice_get new s ≡ slice_get old s)
        → AreUpToDate n old has q → IsRefreshed n new has (ShareSite n.lattice place) q r → AreUpToDate n new has r }
{}
