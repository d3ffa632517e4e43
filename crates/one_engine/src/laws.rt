//! Laws of an engine's states, over their definitions alone.

ghost use Rattle.std.specs.Prelude.{◌≡◌, ◌≤◌, ◌^◌, ℕ, List, Option, Some, All};
ghost use Rattle.surf_kinds.specs.declared.event.Event.{Event};
ghost use Rattle.surf_kinds.specs.declared.rule.Rule.{Rule};
ghost use Rattle.surf_kinds.specs.declared.site.SiteState.{SiteState};
ghost use Rattle.surf_kinds.specs.declared.site.SpeciesId.{SpeciesId};
ghost use Rattle.lattice.specs.Surface.{after, after_all, first_surface};
ghost use Rattle.plan.specs.Network.{Network};
ghost use Rattle.plan.specs.Next.{next};
ghost use Rattle.plan.specs.Bounds.{IsWithinBounds};
ghost use Rattle.plan.specs.History.{due};
ghost use Rattle.plan.specs.Products.{products_of};
ghost use Rattle.surface_state.specs.Changes.{AreBelow};
ghost use Rattle.one_engine.specs.State.{State, fired_all, history_from, AreFirings};
ghost use Rattle.plan.specs.Products.{LeavesWithin};
ghost use Rattle.one_engine.specs.Running.{CanFire, IsSettled};

/// The answers of `fire`, called again and again up to a tick until it answers None, are the events of the history, in
/// order, and leave the surface after them.
pub fn answers_are_the_history()
    ensures events { (until : ℕ) (s t : State) (es : List Event) → AreFirings until s es t → es ≡ history_from until s }
    ensures state { (until : ℕ) (s t : State) (es : List Event) → AreFirings until s es t → t ≡ fired_all s es }
{}

/// Events leave the network of a state, and its surface is the one after them.
pub fn events_leave_the_network()
    ensures network { (s : State) (es : List Event) → (fired_all s es).network ≡ s.network }
    ensures sites { (s : State) (es : List Event) → (fired_all s es).surface.sites ≡ after_all s.network.lattice s.network.rules s.surface.sites es }
{}

/// A first surface is settled, and so is the surface after an event that a settled one offers. Settled sites are within
/// bounds, what is due on them can fire, and it leaves species of the surface.
pub fn settled_surfaces_go_on()
    ensures first { (cells : List SpeciesId) → All IsSettled (first_surface cells) }
    ensures after { (n : Network) (sites : List SiteState) (e : Event)
        → next n sites e.place.0 ≡ Some e → e.time ≤ 10 ^ 15 → All IsSettled sites → All IsSettled (after n.lattice n.rules sites e) }
    ensures within { (sites : List SiteState) → All IsSettled sites → All IsWithinBounds sites }
    ensures fires { (n : Network) (until : ℕ) (sites : List SiteState) (e : Event)
        → due n until sites ≡ Some e → All IsSettled sites → CanFire n sites e }
    ensures leaves { (species_count : ℕ) (rules : List Rule) (channel : ℕ) (to : SpeciesId × Option SpeciesId)
        → All (LeavesWithin species_count) rules → Some to ≡ products_of rules channel → AreBelow species_count to.0 to.1 }
{}
