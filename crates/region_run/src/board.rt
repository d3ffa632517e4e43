//! The surface of a region, on which guesses may be undone.

ghost use Rattle.std.specs.Prelude.{◌≡◌, ◌+◌, ◌*◌, ◌≤◌, true, vec_len, vec_capacity, OnOk};

use crate::changes::{Change, forget_changes, note_if, put_back};
use event_queue::Queue;
use lattice::PlaceRange;
use next_events::refresh;
use plan::Plan;
use surf_kinds::{Event, Key, NoMemory};
use surface_state::Surface;
use timeline::{Entry, Timeline};

/// A surface, the events that were applied to it, and the next events of the region's own places.
#[derive(Drop)]
pub(crate) struct Board {
    pub surface: Surface,
    pub timeline: Timeline,
    pub queue: Queue,
    pub range: PlaceRange,
    /// Whether entries may be undone: whether there is another region.
    pub undoable: bool,
    /// What the entries replaced in the queue, where they may be undone.
    pub changes: Vec<Change>,
}

/// Makes room for the changes of so many more entries, where they may be undone.
fn reserve_changes(undoable: bool, changes: &mut Vec<Change>, more: u32) -> Result<(), NoMemory>
    requires { more ≤ 131072 }
    ensures items { changes.new.items ≡ changes.old.items }
    ensures len { vec_len changes.new ≡ vec_len changes.old }
    ensures no_less { vec_capacity changes.old ≤ vec_capacity changes.new }
    ensures ok { OnOk result (undoable ≡ true → vec_len changes.new + 14 * more ≤ vec_capacity changes.new) }
{
    if !undoable {
        return Ok(());
    }
    changes.reserve(14 * more as usize)?;
    Ok(())
}

impl Board {
    ghost use Rattle.std.specs.Prelude.{OnOk, ◌≡◌, ◌+◌, ◌*◌, ◌^◌, ◌<◌, ◌≤◌, ◌++◌, ◌∷◌, [], List, true, length, vec_len, vec_capacity, filter, not};
    ghost use Rattle.surf_kinds.specs.declared.site.SpeciesId.{SpeciesId};
    ghost use Rattle.surf_kinds.specs.declared.event.Event.{Event as TheEvent};
    ghost use Rattle.surf_kinds.specs.declared.event.Key.{Key as TheKey};
    ghost use Rattle.surf_kinds.specs.Keys.{is_before, key_of, AllKeys, ◌is_below◌, ◌is_upto◌};
    ghost use Rattle.surface_state.specs.SurfaceView.{SurfaceView};
    ghost use Rattle.timeline.specs.declared.entry.Entry.{Entry as TheEntry};
    ghost use Rattle.plan.specs.Network.{Network};
    ghost use Rattle.plan.specs.Products.{fits_place};
    ghost use Rattle.timeline.specs.TimelineView.{events_of, below as below_key, from as from_key};
    ghost use Rattle.warp_core.specs.Grounds.{IsTimely};
    ghost use Rattle.region_run.specs.Boards.{IsBoard};

    /// Makes room for so many more entries.
    pub fn reserve(&mut self, more: u32) -> Result<(), NoMemory>
        requires { more ≤ 131072 }
        ensures same { self.new ≡ record self.old { timeline = self.new.timeline; changes = self.new.changes } }
        ensures entries { self.new.timeline.entries ≡ self.old.timeline.entries }
        ensures items { self.new.changes.items ≡ self.old.changes.items }
        ensures no_less { self.old.timeline.spare ≤ self.new.timeline.spare }
        ensures len { vec_len self.new.changes ≡ vec_len self.old.changes }
        ensures capacity { vec_capacity self.old.changes ≤ vec_capacity self.new.changes }
        ensures ok { OnOk result (more ≤ self.new.timeline.spare) }
        ensures room { OnOk result (self.old.undoable ≡ true → vec_len self.new.changes + 14 * more ≤ vec_capacity self.new.changes) }
    {
        self.timeline.reserve(more)?;
        reserve_changes(self.undoable, &mut self.changes, more)
    }

    /// Applies an event that comes after all others, in the room that was made.
    pub fn apply(&mut self, plan: &Plan, event: Event, own: bool)
        requires board { (cells : List SpeciesId) × (past : List TheEvent) × (base : SurfaceView) × (floor : TheKey) × IsBoard plan.now cells past base floor self.old × AllKeys (λ k. k is_below key_of event) (past ++ events_of self.old.timeline.entries) }
        requires fits { fits_place plan.now event.place.0 event.channel ≡ true }
        requires timely { IsTimely (key_of event) }
        requires spare { 0 < self.old.timeline.spare }
        requires room { self.old.undoable ≡ true → vec_len self.old.changes + 14 ≤ vec_capacity self.old.changes }
        ensures entry { (e : TheEntry) × (self.new.timeline.entries ≡ self.old.timeline.entries ++ e ∷ []) × (e.before.event ≡ event) × (e.own ≡ own) }
        ensures board { (cells : List SpeciesId) (past : List TheEvent) (base : SurfaceView) (floor : TheKey) → IsBoard plan.now cells past base floor self.old → AllKeys (λ k. k is_below key_of event) (past ++ events_of self.old.timeline.entries) → IsBoard plan.now cells past base floor self.new }
        ensures spare { self.new.timeline.spare + 1 ≡ self.old.timeline.spare }
        ensures range { self.new.range ≡ self.old.range }
        ensures undoable { self.new.undoable ≡ self.old.undoable }
        ensures len { vec_len self.new.changes ≤ vec_len self.old.changes + 14 }
        ensures capacity { vec_capacity self.new.changes ≡ vec_capacity self.old.changes }
    {
        note_if(
            self.undoable,
            plan.lattice(),
            &self.queue,
            self.range,
            &mut self.changes,
            event,
        );
        let products = plan.products(event.channel);
        let before = self.surface.apply(event, products);
        self.timeline.push(Entry { before, own });
        refresh(
            plan,
            &self.surface,
            &mut self.queue,
            self.range,
            event.place,
        );
    }

    /// Undoes and removes the entries from a key on, last first, and answers how many. The queue gets its entries of
    /// that time back, and nothing is drawn again.
    pub fn back_to(&mut self, key: Key) -> u64
        requires undoable { self.old.undoable ≡ true }
        requires board { (n : Network) × (cells : List SpeciesId) × (past : List TheEvent) × (base : SurfaceView) × (floor : TheKey) × IsBoard n cells past base floor self.old × (floor is_upto key) }
        ensures entries { self.new.timeline.entries ≡ below_key key self.old.timeline.entries }
        ensures answer { result + length self.new.timeline.entries ≡ length self.old.timeline.entries }
        ensures board { (n : Network) (cells : List SpeciesId) (past : List TheEvent) (base : SurfaceView) (floor : TheKey) → IsBoard n cells past base floor self.old → floor is_upto key → IsBoard n cells past base floor self.new }
        ensures spare { self.new.timeline.spare ≡ self.old.timeline.spare + result }
        ensures range { self.new.range ≡ self.old.range }
        ensures undoable { self.new.undoable ≡ self.old.undoable }
        ensures len { vec_len self.new.changes ≤ vec_len self.old.changes }
        ensures capacity { vec_capacity self.new.changes ≡ vec_capacity self.old.changes }
    {
        let undone = self.timeline.back_to(key, &mut self.surface);
        put_back(&mut self.queue, self.range, &mut self.changes, key);
        undone
    }

    /// Forgets the entries below a key, and what they replaced.
    pub fn forget_below(&mut self, key: Key)
        ensures entries { self.new.timeline.entries ≡ from_key key self.old.timeline.entries }
        ensures same { self.new ≡ record self.old { timeline = self.new.timeline; changes = self.new.changes } }
        ensures changes { self.new.changes.items ≡ filter (λ c. not (is_before c.at key)) self.old.changes.items }
        ensures spare { self.old.timeline.spare ≤ self.new.timeline.spare }
        ensures len { vec_len self.new.changes ≤ vec_len self.old.changes }
        ensures capacity { vec_capacity self.new.changes ≡ vec_capacity self.old.changes }
    {
        self.timeline.drop_below(key);
        forget_changes(&mut self.changes, key);
    }
}
