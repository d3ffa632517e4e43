//! What is put for the neighbours, and which messages are taken.

ghost use Rattle.std.specs.Prelude.{◌≡◌, ◌∷◌, [], ◌≤◌, Option, Some, true, Bool};
ghost use Rattle.border.specs.Messages.{accepted_op, is_lawful as is_lawful_put};
ghost use Rattle.surf_kinds.specs.Keys.{RiseStrictly};
ghost use Rattle.lattice.specs.Places.{IsPlace};
ghost use Rattle.timeline.specs.TimelineView.{events_of};
ghost use Rattle.warp_core.specs.Grounds.{ArePlaces};
ghost use Rattle.region_run.specs.Sides.{HasRoom, Gained, Asked, event_puts, is_side_told, first_told_of, lesser_key, back_of};
ghost use Rattle.region_run.specs.Messages.{partition_at};

use crate::choice::count_before;
use crate::side::Side;
use border::Op;
use plan::Plan;
use regions::Cut;
use surf_kinds::{Event, Key};
use timeline::Entry;

/// Whether a neighbour is told of an event.
fn is_side_told(cut: &Cut, event: &Event, side: &Option<Side>) -> bool
    requires { IsPlace cut.now.lattice event.now.place.0 }
    ensures { result ≡ is_side_told cut.now side.now event.now.place.0 }
{
    match side {
        None => false,
        Some(side) => cut.tells(event.place, side.other()),
    }
}

/// Tells a neighbour of an own event, if it is to be told.
pub(crate) fn tell(cut: &Cut, own: bool, side: &mut Option<Side>, event: Event)
    requires place { IsPlace cut.now.lattice event.place.0 }
    requires room { HasRoom 1 side.old }
    ensures { Gained side.old (event_puts cut.now own event) side.new }
{
    if let Some(side) = side {
        if own && cut.tells(event.place, side.other()) {
            side.put(Op::Put(event));
        }
    }
}

/// The key of the first own entry from a key on that a neighbour was told of. Entries before the key aren't looked at,
/// but for a number that goes with the logarithm of how many there are.
pub(crate) fn first_told(
    cut: &Cut,
    id: u32,
    entries: &[Entry],
    key: Key,
    side: &Option<Side>,
) -> Option<Key>
    requires places { ArePlaces cut.now.lattice entries.now }
    requires rise { RiseStrictly (events_of entries.now) }
    ensures { result ≡ first_told_of cut.now id side.now key (events_of entries.now) }
{
    let start = count_before(entries, key);
    for i in start..entries.len() {
        if let Some(here) = told_from(cut, id, &entries[i], key, side) {
            return Some(here);
        }
    }
    None
}

/// The key of an own entry that a neighbour was told of, if it is from this key on.
fn told_from(cut: &Cut, id: u32, entry: &Entry, key: Key, side: &Option<Side>) -> Option<Key>
    requires { IsPlace cut.now.lattice entry.now.before.event.place.0 }
    ensures { result ≡ first_told_of cut.now id side.now key (events_of (entry.now ∷ [])) }
{
    let event = entry.before.event;
    let here = event.key();
    if here.is_before(key) || cut.owner(event.place) != id {
        return None;
    }
    if is_side_told(cut, &event, side) {
        return Some(here);
    }
    None
}

/// The lesser of two keys, or the one that there is.
pub(crate) fn lesser(one: Option<Key>, other: Option<Key>) -> Option<Key>
    ensures { result ≡ lesser_key one other }
{
    let Some(here) = one else {
        return other;
    };
    match other {
        Some(there) if there.is_before(here) => other,
        _ => one,
    }
}

/// Puts a Back for a neighbour, if it was told of what goes.
pub(crate) fn take_back(side: &mut Option<Side>, told: Option<Key>, least: Option<Key>)
    requires { HasRoom 1 side.old }
    ensures { Gained side.old (λ _. back_of told least) side.new }
{
    if let (Some(side), Some(_), Some(least)) = (side, told, least) {
        side.put(Op::Back(least));
    }
}

/// Asks a neighbour's ring for a message.
pub(crate) fn ask(side: &mut Option<Side>) -> Option<Op>
    ensures { Asked side.old result side.new }
{
    match side {
        Some(side) => side.ask(),
        None => None,
    }
}

/// What a message of a region is taken for: a Put that isn't lawful is passed over, and a Back below the floor is one
/// at the floor.
pub(crate) fn accepted(
    plan: &Plan,
    cut: &Cut,
    sender: u32,
    id: u32,
    floor: Key,
    op: Op,
) -> Option<Op>
    requires { plan.now.lattice ≡ cut.now.lattice }
    ensures { result ≡ accepted_op (partition_at plan.now cut.now) sender id floor op }
{
    match op {
        Op::Back(key) => Some(Op::Back(if key.is_before(floor) { floor } else { key })),
        Op::Put(event) => {
            if is_lawful(plan, cut, sender, id, floor, &event) {
                Some(op)
            } else {
                None
            }
        }
    }
}

/// Whether a Put of this event by a region is lawful for another with this floor.
fn is_lawful(plan: &Plan, cut: &Cut, sender: u32, id: u32, floor: Key, event: &Event) -> bool
    requires { plan.now.lattice ≡ cut.now.lattice }
    ensures { result ≡ is_lawful_put (partition_at plan.now cut.now) sender id floor event.now }
{
    !event.key().is_before(floor)
        && 1 <= event.time
        && event.time <= 1_000_000_000_000_000
        && plan.fits(event.place, event.channel)
        && cut.owner(event.place) == sender
        && cut.tells(event.place, id)
}
