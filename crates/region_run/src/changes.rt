//! The changes of a queue that may be taken back.

ghost use Rattle.std.specs.Prelude.{◌≡◌, ◌+◌, ◌*◌, ◌<◌, ◌≤◌, ◌++◌, ◌∷◌, [], true, IfSome, IfNone, vec_len, vec_capacity, filter, not};
ghost use Rattle.surf_kinds.specs.Keys.{is_before, key_of, ◌is_upto◌, ◌is_below◌};
ghost use Rattle.lattice.specs.Places.{HasSite};
ghost use Rattle.plan.specs.Sharing.{ShareSite};
ghost use Rattle.next_events.specs.Entries.{CoversRange};
ghost use Rattle.region_run.specs.Boards.{AreNoted, ArePutBack, AreInOrder, AllChanges};
ghost use Rattle.lattice.specs.Ranges.{is_in_range};

use event_queue::Queue;
use lattice::{Lattice, PlaceRange};
use surf_kinds::{Event, Key, Place, SiteId};

/// What an event's entry replaced in the queue, at one place.
#[derive(Clone, Copy, Debug, PartialEq, Eq)]
pub(crate) struct Change {
    /// The event's key.
    pub at: Key,
    pub place: Place,
    pub was: Option<Event>,
}

/// Notes what the queue has at the places of a site.
fn note_site(
    lattice: &Lattice,
    queue: &Queue,
    range: PlaceRange,
    changes: &mut Vec<Change>,
    at: Key,
    site: SiteId,
)
    requires site { site.0 < lattice.now.rows * lattice.now.cols }
    requires covers { CoversRange range queue.now }
    requires room { vec_len changes.old + 7 ≤ vec_capacity changes.old }
    ensures noted { AreNoted at range queue.now (λ p. HasSite lattice.now p site.0) changes.old.items changes.new.items }
    ensures len { vec_len changes.new ≤ vec_len changes.old + 7 }
    ensures capacity { vec_capacity changes.new ≡ vec_capacity changes.old }
{
    let around = lattice.places_of(site);
    let listed = &around.list[..usize::from(around.count)];
    for place in listed {
        note_place(queue, range, changes, at, *place);
    }
}

/// Notes what the queue has at a place, if that is one of its range.
fn note_place(queue: &Queue, range: PlaceRange, changes: &mut Vec<Change>, at: Key, place: Place)
    requires covers { CoversRange range queue.now }
    requires room { vec_len changes.old < vec_capacity changes.old }
    ensures noted { AreNoted at range queue.now (λ p. p ≡ place.0) changes.old.items changes.new.items }
    ensures len { vec_len changes.new ≤ vec_len changes.old + 1 }
    ensures capacity { vec_capacity changes.new ≡ vec_capacity changes.old }
{
    if range.has(place) {
        changes.push_reserved(Change {
            at,
            place,
            was: queue.get(place),
        });
    }
}

/// Notes what the queue has at the places that share a site with this one.
pub(crate) fn note_around(
    lattice: &Lattice,
    queue: &Queue,
    range: PlaceRange,
    changes: &mut Vec<Change>,
    at: Key,
    place: Place,
)
    requires covers { CoversRange range queue.now }
    requires room { vec_len changes.old + 14 ≤ vec_capacity changes.old }
    ensures noted { AreNoted at range queue.now (ShareSite lattice.now place.0) changes.old.items changes.new.items }
    ensures len { vec_len changes.new ≤ vec_len changes.old + 14 }
    ensures capacity { vec_capacity changes.new ≡ vec_capacity changes.old }
{
    if let Some(sites) = lattice.sites_of(place) {
        note_site(lattice, queue, range, changes, at, sites.first);
        if let Some(second) = sites.second {
            note_site(lattice, queue, range, changes, at, second);
        }
    }
}

/// The same, where changes may be taken back; else nothing is noted.
pub(crate) fn note_if(
    undoable: bool,
    lattice: &Lattice,
    queue: &Queue,
    range: PlaceRange,
    changes: &mut Vec<Change>,
    event: Event,
)
    requires covers { CoversRange range queue.now }
    requires room { undoable ≡ true → vec_len changes.old + 14 ≤ vec_capacity changes.old }
    ensures noted { undoable ≡ true → AreNoted (key_of event) range queue.now (ShareSite lattice.now event.place.0) changes.old.items changes.new.items }
    ensures len { vec_len changes.new ≤ vec_len changes.old + 14 }
    ensures capacity { vec_capacity changes.new ≡ vec_capacity changes.old }
{
    if !undoable {
        return;
    }
    note_around(lattice, queue, range, changes, event.key(), event.place);
}

/// Takes the last change out, where it is from this key on.
fn pop_from(changes: &mut Vec<Change>, key: Key) -> Option<Change>
    ensures last { IfSome result (λ c. changes.old.items ≡ changes.new.items ++ c ∷ []) }
    ensures from { IfSome result (λ c. key is_upto c.at) }
    ensures same { IfNone result (changes.new.items ≡ changes.old.items) }
    ensures below { IfNone result (AreInOrder changes.old.items → AllChanges (λ c. c.at is_below key) changes.old.items) }
    ensures len { IfSome result (λ c. vec_len changes.new + 1 ≡ vec_len changes.old) }
    ensures len_same { IfNone result (vec_len changes.new ≡ vec_len changes.old) }
    ensures capacity { vec_capacity changes.new ≡ vec_capacity changes.old }
{
    let last = *changes.last()?;
    if last.at.is_before(key) {
        return None;
    }
    changes.pop()
}

/// Takes the changes from a key on back, last first.
pub(crate) fn put_back(queue: &mut Queue, range: PlaceRange, changes: &mut Vec<Change>, key: Key)
    requires covers { CoversRange range queue.old }
    requires order { AreInOrder changes.old.items }
    requires inside { AllChanges (λ c. (is_in_range range c.place.0 ≡ true) × IfSome c.was (λ e. e.place ≡ c.place)) changes.old.items }
    ensures back { ArePutBack key range changes.old.items changes.new.items queue.old queue.new }
    ensures early { AllChanges (λ c. c.at is_below key) changes.new.items }
    ensures len { vec_len changes.new ≤ vec_len changes.old }
    ensures capacity { vec_capacity changes.new ≡ vec_capacity changes.old }
{
    while let Some(change) = pop_from(changes, key) {
        queue.set(change.place, change.was);
    }
}

/// Forgets the changes below a key.
pub(crate) fn forget_changes(changes: &mut Vec<Change>, key: Key)
    ensures items { changes.new.items ≡ filter (λ c. not (is_before c.at key)) changes.old.items }
    ensures len { vec_len changes.new ≤ vec_len changes.old }
    ensures capacity { vec_capacity changes.new ≡ vec_capacity changes.old }
{
    changes.retain(|change| !change.at.is_before(key));
}
