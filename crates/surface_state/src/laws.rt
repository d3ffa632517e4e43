//! Laws of surfaces, over their definitions alone.

ghost use Rattle.std.specs.Prelude.{◌≡◌, List, Option};
ghost use Rattle.surf_kinds.specs.declared.event.Event.{Event};
ghost use Rattle.surf_kinds.specs.declared.rule.Rule.{Rule};
ghost use Rattle.surf_kinds.specs.declared.site.SpeciesId.{SpeciesId};
ghost use Rattle.lattice.specs.Places.{IsPlace};
ghost use Rattle.lattice.specs.Surface.{after};
ghost use Rattle.surface_state.specs.declared.before.Before.{Before};
ghost use Rattle.surface_state.specs.SurfaceView.{SurfaceView};
ghost use Rattle.surface_state.specs.Changes.{applied, undone, AreProducts, IsBefore, IsLeft, IsSecondOf};

/// After an event `undo` may take it back, and gives the surface before it, in every field. What stood before it is that
/// of a place of the lattice, and of as many sites.
pub fn undo_gives_back()
    ensures place { (s : SurfaceView) (b : Before) → IsBefore s b → IsPlace s.lattice b.event.place.0 }
    ensures pair { (s : SurfaceView) (b : Before) → IsBefore s b → IsSecondOf s.lattice b.event.place.0 b.second }
    ensures may { (s : SurfaceView) (b : Before) (to : SpeciesId × Option SpeciesId) → IsBefore s b → IsLeft (applied s b.event to) b }
    ensures back { (s : SurfaceView) (b : Before) (to : SpeciesId × Option SpeciesId) → IsBefore s b → undone (applied s b.event to) b ≡ s }
{}

/// With the products of the event's channel, the sites are those after the event.
pub fn products_give_after()
    ensures { (s : SurfaceView) (rules : List Rule) (e : Event) (to : SpeciesId × Option SpeciesId)
        → AreProducts rules e to → (applied s e to).sites ≡ after s.lattice rules s.sites e }
{}
