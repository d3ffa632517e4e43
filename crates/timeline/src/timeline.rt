//! The entries of a region, by key.

ghost use Rattle.std.specs.Prelude.{◌≡◌, ◌+◌, ◌<◌, ◌≤◌, ◌++◌, ◌∷◌, [], length, OnOk, OnErr};
ghost use Rattle.surf_kinds.specs.Keys.{RiseStrictly};
ghost use Rattle.surface_state.specs.SurfaceView.{SurfaceView};
ghost use Rattle.timeline.specs.TimelineView.{events_of, below, from, IsLater};
ghost use Rattle.timeline.specs.Led.{LedTo};

use crate::cuts::{forget_below, undo_from};
use crate::entry::Entry;
use std::alloc::Global;
use std::marker::Model;
use surf_kinds::{Key, NoMemory};
use surface_state::Surface;

/// Entries whose keys rise strictly, with room for some more. Only `reserve` takes memory.
#[derive(Drop)]
pub struct Timeline {
    entries: Vec<Entry>,
}

impl Model for Timeline {
    ghost use Rattle.std.specs.Prelude.{◌-◌, ◌≤◌, length, vec_capacity};
    ghost use Rattle.surf_kinds.specs.Keys.{RiseStrictly};
    ghost use Rattle.timeline.specs.TimelineView.{TimelineView, events_of};

    ghost Value = { TimelineView };

    ghost view = { λ t. record { entries = t.entries.items; spare = vec_capacity t.entries - length t.entries.items } };

    ghost invariant = { λ t. RiseStrictly (events_of t.entries.items) × (length t.entries.items ≤ vec_capacity t.entries) };
}

impl Timeline {
    /// No entries and no room.
    pub fn new(alloc: Global) -> Timeline
        ensures { result ≡ record { entries = []; spare = 0 } }
    {
        Timeline {
            entries: Vec::new(alloc),
        }
    }

    /// Makes room for at least so many more entries. After an error nothing has changed.
    pub fn reserve(&mut self, more: u32) -> Result<(), NoMemory>
        ensures entries { self.new.entries ≡ self.old.entries }
        ensures room { OnOk result (more ≤ self.new.spare) }
        ensures no_less { self.old.spare ≤ self.new.spare }
        ensures full { OnErr result (self.old.spare < more) }
        ensures err { OnErr result (self.new ≡ self.old) }
    {
        self.entries.reserve(more as usize)?;
        Ok(())
    }

    /// Puts an entry last, in the room that was made. Takes a constant time.
    pub fn push(&mut self, entry: Entry)
        requires later { IsLater self.old.entries entry }
        requires room { 0 < self.old.spare }
        ensures entries { self.new.entries ≡ self.old.entries ++ entry ∷ [] }
        ensures spare { self.new.spare + 1 ≡ self.old.spare }
    {
        self.entries.push_reserved(entry);
    }

    /// Undoes and removes the entries from a key on, last first, and answers how many. The surface has to be the one
    /// that the entries led to, and becomes the one that stood before those that are removed. Takes a time that goes
    /// with their number.
    pub fn back_to(&mut self, key: Key, surface: &mut Surface) -> u64
        requires { (base : SurfaceView) × LedTo base self.old.entries surface.old }
        ensures entries { self.new.entries ≡ below key self.old.entries }
        ensures answer { result ≡ length (from key self.old.entries) }
        ensures stood { (stood : SurfaceView) → LedTo stood (from key self.old.entries) surface.old → surface.new ≡ stood }
        ensures led { (base : SurfaceView) → LedTo base self.old.entries surface.old → LedTo base self.new.entries surface.new }
        ensures lattice { surface.new.lattice ≡ surface.old.lattice }
        ensures species_count { surface.new.species_count ≡ surface.old.species_count }
        ensures spare { self.new.spare ≡ self.old.spare + result }
    {
        undo_from(&mut self.entries, key, surface)
    }

    /// Forgets the entries below a key; what they did to the surface stays. Looks at those alone, and moves the others
    /// where there are any.
    pub fn drop_below(&mut self, key: Key)
        ensures entries { self.new.entries ≡ from key self.old.entries }
        ensures led { (base now : SurfaceView) → LedTo base self.old.entries now → (mid : SurfaceView) × LedTo base (below key self.old.entries) mid × LedTo mid self.new.entries now }
        ensures spare { self.new.spare ≡ self.old.spare + length (below key self.old.entries) }
    {
        forget_below(&mut self.entries, key);
    }

    /// The entries, in the order of their keys.
    pub fn entries(&self) -> &[Entry]
        ensures entries { result.now ≡ self.now.entries }
        ensures rise { RiseStrictly (events_of result.now) }
    {
        &self.entries
    }
}
