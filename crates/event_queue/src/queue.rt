//! The queue of the next events.

ghost use Rattle.std.specs.Prelude.{◌≡◌, ℕ, ◌+◌, ◌-◌, ◌<◌, ◌≤◌, ◌^◌, length, replicate, slice_set, IfOk, IfSome, MatchOption, Some, None};
ghost use Rattle.event_queue.specs.QueueView.{HasPlace, IsLeast, IsEmpty, event_at, least_among};
ghost use Rattle.event_queue.specs.Halves.{number_of, standing, low_with, high_with};

use crate::entry::{Entry, NOTHING};
use crate::tournament::Tournament;
use std::alloc::Global;
use std::marker::Model;
use surf_kinds::{Event, NoMemory, Place};

/// The number of an offset in its half.
#[inline]
fn number_of(offset: u32) -> usize
    ensures { result ≡ number_of offset }
{
    (offset / 8 * 4 + offset % 4) as usize
}

/// What stands at an offset.
#[inline]
fn standing(low: &Tournament, high: &Tournament, offset: u32) -> Entry
    requires low_within { number_of offset < length low.now }
    requires high_within { number_of offset < length high.now }
    ensures { result ≡ standing low.now high.now offset }
{
    let number = number_of(offset);
    if offset % 8 < 4 {
        low.get(number)
    } else {
        high.get(number)
    }
}

/// Puts an entry at an offset.
#[inline]
fn put(low: &mut Tournament, high: &mut Tournament, offset: u32, entry: Entry)
    requires low_within { number_of offset < length low.old }
    requires high_within { number_of offset < length high.old }
    ensures low { low.new ≡ low_with low.old offset entry }
    ensures high { high.new ≡ high_with high.old offset entry }
{
    let number = number_of(offset);
    if offset % 8 < 4 {
        low.set(number, entry);
    } else {
        high.set(number, entry);
    }
}

/// The next events of the places from `first` on, at most one for each.
#[derive(Drop)]
pub struct Queue {
    first: u64,
    count: u32,
    // the first four of the eight places of each site: itself and its pairs
    low: Tournament,
    // the other four, which no lattice uses, so that this half is mostly never set and then touches no memory
    high: Tournament,
}

impl Model for Queue {
    ghost use Rattle.event_queue.specs.QueueView.{QueueView};
    ghost use Rattle.event_queue.specs.Halves.{IsSound, seen};

    ghost Value = { QueueView };

    ghost view = { λ q. seen q.first q.count q.low q.high };

    ghost invariant = { λ q. IsSound q.first q.count q.low q.high };
}

impl Queue {
    /// A queue over `count` places from `first` on, with no event. The other calls take no memory.
    pub fn new(alloc: Global, first: Place, count: u32) -> Result<Queue, NoMemory>
        requires { first.0 + count < 2 ^ 64 }
        ensures { IfOk result (λ q. q ≡ record { first = first.0; events = replicate count None }) }
    {
        let half = (count as usize + 7) / 8 * 4;
        let low = Tournament::new(alloc, half)?;
        let high = Tournament::new(alloc, half)?;
        Ok(Queue {
            first: first.0,
            count,
            low,
            high,
        })
    }

    /// Keeps an event at its place, or none there, in the place of what was kept. Takes a time that goes with the
    /// logarithm of the number of places.
    #[inline]
    pub fn set(&mut self, place: Place, next: Option<Event>)
        requires place { HasPlace self.old place }
        requires event { IfSome next (λ e. e.place ≡ place) }
        ensures { self.new ≡ record { first = self.old.first; events = slice_set self.old.events (place.0 - self.old.first) next } }
    {
        match next {
            Some(event) => self.keep(event),
            None => self.drop_at(place),
        }
    }

    #[inline]
    fn keep(&mut self, event: Event)
        requires { HasPlace self.old event.place }
        ensures { self.new ≡ record { first = self.old.first; events = slice_set self.old.events (event.place.0 - self.old.first) (Some event) } }
    {
        let offset = (event.place.0 - self.first) as u32;
        let entry = Entry {
            time: event.time,
            offset,
            channel: event.channel,
        };
        put(&mut self.low, &mut self.high, offset, entry);
    }

    #[inline]
    fn drop_at(&mut self, place: Place)
        requires { HasPlace self.old place }
        ensures { self.new ≡ record { first = self.old.first; events = slice_set self.old.events (place.0 - self.old.first) None } }
    {
        let offset = (place.0 - self.first) as u32;
        put(&mut self.low, &mut self.high, offset, NOTHING);
    }

    /// The event that is kept at a place.
    #[inline]
    pub fn get(&self, place: Place) -> Option<Event>
        requires { HasPlace self.now place }
        ensures value { result ≡ event_at self.now place }
        ensures place { IfSome result (λ e. e.place ≡ place) }
    {
        let offset = (place.0 - self.first) as u32;
        standing(&self.low, &self.high, offset).event_if(self.first)
    }

    /// The kept event with the least key; `None` exactly where none is kept.
    #[inline]
    pub fn least(&self) -> Option<Event>
        ensures least { MatchOption result (IsEmpty self.now) (λ e. IsLeast self.now e) }
        ensures earliest { result ≡ least_among self.now.events (length self.now.events) }
    {
        let least = self.low.winner().lesser(self.high.winner());
        least.event_if(self.first)
    }
}
