//! What a region puts for the others.

ghost use Rattle.std.specs.Prelude.{◌≡◌, ◌++◌, ◌<◌, [], ℕ, length, OnOk, IfOk};
ghost use Rattle.lattice.specs.Places.{IsPlace};
ghost use Rattle.regions.specs.Seen.{is_told as told_of};
ghost use Rattle.timeline.specs.TimelineView.{events_of};
ghost use Rattle.warp_core.specs.Backs.{is_told_of_own, is_told_own, first_from, back_puts};
ghost use Rattle.warp_core.specs.Grounds.{ArePlaces};
ghost use Rattle.warp_core.specs.Parts.{fire_puts, is_told_to_some};
ghost use Rattle.warp_core.specs.Regions.{items_at, HaveRoom};

use border::Op;
use regions::Cut;
use std::alloc::Global;
use surf_kinds::{Event, Key, NoMemory, Place};
use timeline::Entry;

/// So many empty outboxes.
pub(crate) fn empty_outboxes(alloc: Global, regions: u32) -> Result<Vec<Vec<Op>>, NoMemory>
    ensures long { IfOk result (λ outboxes. length outboxes.items ≡ regions) }
    ensures empty { IfOk result (λ outboxes. (l : ℕ) → items_at outboxes.items l ≡ []) }
{
    let mut outboxes = Vec::new(alloc);
    for _ in 0..regions {
        outboxes.push(Vec::new(alloc))?;
    }
    Ok(outboxes)
}

/// Makes room for one more message in each outbox.
pub(crate) fn make_room(outboxes: &mut Vec<Vec<Op>>) -> Result<(), NoMemory>
    ensures same { (l : ℕ) → items_at outboxes.new.items l ≡ items_at outboxes.old.items l }
    ensures long { length outboxes.new.items ≡ length outboxes.old.items }
    ensures room { OnOk result (HaveRoom 0 (length outboxes.new.items) outboxes.new.items) }
{
    for i in 0..outboxes.len() {
        outboxes[i].reserve(1)?;
    }
    Ok(())
}

/// Whether any region is told of the events at a place.
fn is_told_to_some(cut: &Cut, place: Place) -> bool
    requires { IsPlace cut.now.lattice place.0 }
    ensures { result ≡ is_told_to_some (told_of cut.now) cut.now.count place.0 }
{
    let mut found = false;
    for region in 0..cut.count() {
        found = found || cut.tells(place, region);
    }
    found
}

/// Puts an event into the outbox to each region that is told of it.
pub(crate) fn tell(cut: &Cut, outboxes: &mut Vec<Vec<Op>>, event: Event)
    requires place { IsPlace cut.now.lattice event.place.0 }
    requires regions { length outboxes.old.items ≡ cut.now.count }
    requires room { HaveRoom 0 (length outboxes.old.items) outboxes.old.items }
    ensures told { (l : ℕ) → items_at outboxes.new.items l ≡ items_at outboxes.old.items l ++ fire_puts (told_of cut.now) event l }
    ensures long { length outboxes.new.items ≡ length outboxes.old.items }
{
    for l in 0..cut.count() {
        if cut.tells(event.place, l) {
            outboxes[l as usize].push_reserved(Op::Put(event));
        }
    }
}

/// The key of the first own entry from a key on that a region was told of.
fn first_told(cut: &Cut, region: u32, l: u32, entries: &[Entry], key: Key) -> Option<Key>
    requires { ArePlaces cut.now.lattice entries.now }
    ensures { result ≡ first_from (is_told_of_own cut.now region l) key (events_of entries.now) }
{
    for i in 0..entries.len() {
        let here = entries[i].before.event.key();
        if !here.is_before(key) && cut.owner(here.place) == region && cut.tells(here.place, l) {
            return Some(here);
        }
    }
    None
}

/// The key of the first own entry from a key on that any region was told of.
fn first_told_to_some(cut: &Cut, region: u32, entries: &[Entry], key: Key) -> Option<Key>
    requires { ArePlaces cut.now.lattice entries.now }
    ensures { result ≡ first_from (is_told_own cut.now region) key (events_of entries.now) }
{
    for i in 0..entries.len() {
        let here = entries[i].before.event.key();
        if !here.is_before(key)
            && cut.owner(here.place) == region
            && is_told_to_some(cut, here.place)
        {
            return Some(here);
        }
    }
    None
}

/// Puts a Back for each region that was told of own entries from a key on: with the least key of all those that any
/// region was told of.
pub(crate) fn take_back(
    cut: &Cut,
    region: u32,
    entries: &[Entry],
    key: Key,
    outboxes: &mut Vec<Vec<Op>>,
)
    requires places { ArePlaces cut.now.lattice entries.now }
    requires regions { length outboxes.old.items ≡ cut.now.count }
    requires room { HaveRoom 0 (length outboxes.old.items) outboxes.old.items }
    ensures told { (l : ℕ) → items_at outboxes.new.items l ≡ items_at outboxes.old.items l ++ back_puts cut.now region key (events_of entries.now) l }
    ensures long { length outboxes.new.items ≡ length outboxes.old.items }
{
    let Some(least) = first_told_to_some(cut, region, entries, key) else {
        return;
    };
    for l in 0..cut.count() {
        if first_told(cut, region, l, entries, key).is_some() {
            outboxes[l as usize].push_reserved(Op::Back(least));
        }
    }
}
