//! Laws of entries, over their definitions alone.

ghost use Rattle.std.specs.Prelude.{◌≡◌, ◌++◌, ◌∷◌, [], List, Option};
ghost use Rattle.surf_kinds.specs.declared.event.Event.{Event};
ghost use Rattle.surf_kinds.specs.declared.event.Key.{Key};
ghost use Rattle.surf_kinds.specs.declared.site.SpeciesId.{SpeciesId};
ghost use Rattle.surf_kinds.specs.Keys.{RiseStrictly};
ghost use Rattle.surface_state.specs.SurfaceView.{SurfaceView};
ghost use Rattle.surface_state.specs.Changes.{applied, IsBefore, IsBelow};
ghost use Rattle.timeline.specs.declared.entry.Entry.{Entry};
ghost use Rattle.timeline.specs.TimelineView.{events_of, below, from};
ghost use Rattle.timeline.specs.Led.{IsStep, LedTo};

/// An event that `apply` applied to a surface is a step of it, by an entry with what `apply` gave.
pub fn applying_is_a_step()
    ensures { (s now : SurfaceView) (event : Event) (to : SpeciesId × Option SpeciesId) (e : Entry)
        → e.before.event ≡ event → now ≡ applied s event to → IsBefore s e.before → IsBelow s.species_count e.before → IsStep s e now }
{}

/// A key parts the entries into those below it and those after them.
pub fn a_key_parts_entries()
    ensures { (key : Key) (entries : List Entry) → RiseStrictly (events_of entries) → entries ≡ below key entries ++ from key entries }
{}

/// Entries lead where their first part leads and the rest leads on from there.
pub fn parts_lead_on()
    ensures parted { (s now : SurfaceView) (first rest : List Entry) → LedTo s (first ++ rest) now → (mid : SurfaceView) × LedTo s first mid × LedTo mid rest now }
    ensures joined { (s mid now : SurfaceView) (first rest : List Entry) → LedTo s first mid → LedTo mid rest now → LedTo s (first ++ rest) now }
    ensures pushed { (s mid now : SurfaceView) (entries : List Entry) (e : Entry) → LedTo s entries mid → IsStep mid e now → LedTo s (entries ++ e ∷ []) now }
{}

/// Entries lead to a surface from one surface alone.
pub fn the_start_is_determined()
    ensures { (s t now : SurfaceView) (entries : List Entry) → LedTo s entries now → LedTo t entries now → s ≡ t }
{}
