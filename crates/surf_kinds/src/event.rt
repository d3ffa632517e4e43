//! Events and their keys.

ghost use Rattle.std.specs.Prelude.{◌≡◌, ◌-◌, ◌<◌, ◌^◌};
ghost use Rattle.surf_kinds.specs.Channels.{rule_of_channel, way_of_channel};
ghost use Rattle.surf_kinds.specs.declared.event.Key.{Key as KeyValue};
ghost use Rattle.surf_kinds.specs.Keys.{is_before, ◌is_below◌, ◌is_upto◌, key_of, key_after};

use crate::place::Place;

/// When and where an event comes. Keys are ordered by time, then by place.
#[derive(Clone, Copy, Debug, PartialEq, Eq, PartialOrd, Ord)]
pub struct Key {
    /// In ticks, of which a million make a unit of time.
    pub time: u64,
    pub place: Place,
}

/// One firing of a rule.
#[derive(Clone, Copy, Debug, PartialEq, Eq)]
pub struct Event {
    /// In ticks.
    pub time: u64,
    pub place: Place,
    /// Twice the rule's number, plus the way in which its reactants stand.
    pub channel: u16,
}

impl Event {
    /// The event's time and place.
    #[inline]
    pub fn key(&self) -> Key
        ensures { result ≡ key_of self.now }
    {
        Key {
            time: self.time,
            place: self.place,
        }
    }
}

/// The number of a channel's rule.
#[inline]
pub fn rule_of_channel(channel: u16) -> u16
    ensures { result ≡ rule_of_channel channel }
{
    channel / 2
}

/// The way of a channel: 0 where the reactants stand as they are written in its rule, 1 the other way round.
#[inline]
pub fn way_of_channel(channel: u16) -> u8
    ensures way { result ≡ way_of_channel channel }
    ensures below { result < 2 }
{
    (channel % 2) as u8
}

impl Key {
    /// Whether this key comes before the other: by time, then by place. `<` says the same.
    #[inline]
    pub fn is_before(self, other: Key) -> bool
        ensures { result ≡ is_before self other }
    {
        self < other
    }

    /// The next key: the same time at the next place. Nothing lies between a key and this one.
    #[inline]
    pub fn after(self) -> Key
        requires { self.place.0 < 2 ^ 64 - 1 }
        ensures key { result ≡ key_after self }
        ensures above { self is_below result }
        ensures between { (j : KeyValue) → self is_below j → j is_below result → ⊥ }
        ensures next { (j : KeyValue) → self is_below j → result is_upto j }
    {
        Key {
            time: self.time,
            place: Place(self.place.0 + 1),
        }
    }
}
