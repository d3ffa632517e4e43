//! The next entry of a region, and the first one from a key on.

ghost use Rattle.std.specs.Prelude.{◌≡◌, drop};
ghost use Rattle.surf_kinds.specs.Keys.{from, RiseStrictly};
ghost use Rattle.timeline.specs.TimelineView.{events_of};
ghost use Rattle.warp_core.specs.Choices.{earlier_due_of};
ghost use Rattle.region_run.specs.Choices.{first_of};

use surf_kinds::{Event, Key};
use timeline::Entry;

/// The earlier of two events; one before the clock or after the end doesn't count.
pub(crate) fn earlier_due(
    best: Option<Event>,
    event: Option<Event>,
    clock: Key,
    until: u64,
) -> Option<Event>
    ensures { result ≡ earlier_due_of clock until best event }
{
    let Some(event) = event else {
        return best;
    };
    let here = event.key();
    if here.is_before(clock) || until < event.time {
        return best;
    }
    match best {
        Some(other) if !here.is_before(other.key()) => best,
        _ => Some(event),
    }
}

/// The first event from a key on. Takes a time that goes with the logarithm of the number of events.
pub(crate) fn first_from(stack: &[Event], clock: Key) -> Option<Event>
    requires { RiseStrictly stack.now }
    ensures { result ≡ first_of (from clock stack.now) }
{
    let at = stack.partition_point(|event| event.key().is_before(clock));
    if at < stack.len() {
        Some(stack[at])
    } else {
        None
    }
}

/// How many entries come before the first one from a key on. Takes a time that goes with the logarithm of their number.
pub(crate) fn count_before(entries: &[Entry], key: Key) -> usize
    requires { RiseStrictly (events_of entries.now) }
    ensures { from key (events_of entries.now) ≡ from key (events_of (drop result entries.now)) }
{
    entries.partition_point(|entry| entry.key().is_before(key))
}
