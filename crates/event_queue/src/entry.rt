//! What a tournament holds of an event.

ghost use Rattle.std.specs.Prelude.{◌≡◌, ◌+◌, ◌<◌, ◌^◌, ◌⊎◌, false};
ghost use Rattle.event_queue.specs.Tournament.{nothing, precedes, event_of};
ghost use Rattle.event_queue.specs.Halves.{event_if};

use surf_kinds::{Event, Place};

/// An event whose place is given by its distance from the queue's first place.
#[derive(Clone, Copy, PartialEq, Eq)]
pub(crate) struct Entry {
    pub(crate) time: u64,
    pub(crate) offset: u32,
    pub(crate) channel: u16,
}

/// What stands where no event is. No event has this offset, and each comes before it.
pub(crate) const NOTHING: Entry = Entry {
    time: u64::MAX,
    offset: u32::MAX,
    channel: 0,
};

impl Entry {
    // with no branch, since which of two entries is first can't be foretold
    #[inline]
    pub(crate) fn is_before(self, other: Entry) -> bool
        ensures { result ≡ precedes self other }
    {
        (self.time < other.time) | ((self.time == other.time) & (self.offset < other.offset))
    }

    /// The one of two that comes first.
    #[inline]
    pub(crate) fn lesser(self, other: Entry) -> Entry
        ensures one { (result ≡ self) ⊎ (result ≡ other) }
        ensures not_self { precedes self result ≡ false }
        ensures not_other { precedes other result ≡ false }
    {
        if other.is_before(self) { other } else { self }
    }

    #[inline]
    fn event(self, first: u64) -> Event
        requires { first + self.offset < 2 ^ 64 }
        ensures { result ≡ event_of first self }
    {
        Event {
            time: self.time,
            place: Place(first + u64::from(self.offset)),
            channel: self.channel,
        }
    }

    /// The event, in a queue from this place on, unless nothing stands here.
    #[inline]
    pub(crate) fn event_if(self, first: u64) -> Option<Event>
        requires { self.offset < nothing.offset → first + self.offset < 2 ^ 64 }
        ensures { result ≡ event_if first self }
    {
        if self.offset == NOTHING.offset {
            None
        } else {
            Some(self.event(first))
        }
    }
}
