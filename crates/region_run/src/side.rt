//! What a region has of a neighbour.

ghost use Rattle.std.specs.Prelude.{◌-◌, MatchBool};
ghost use Rattle.std.specs.VecDeque.{deque_len, deque_capacity};
ghost use Rattle.region_run.specs.Sides.{RingHeard, one, ends_of};
ghost use Rattle.region_run.specs.Channels.{IsSentOne, IsUnsent, AreTied};
ghost use Rattle.region_run.specs.Between.{GivesTo};

use border::{InEnd, Op, OutEnd, beside};
use std::alloc::Global;
use std::collections::VecDeque;
use std::marker::Model;
use surf_kinds::NoMemory;

/// The ends of the ring to a neighbour and of the ring from it.
#[derive(Drop)]
pub struct Ends {
    pub out: OutEnd,
    pub inn: InEnd,
}

/// A neighbour, and the messages that wait for it.
#[derive(Drop)]
pub struct Side {
    other: u32,
    ends: Option<Ends>,
    outbox: VecDeque<Op>,
}

impl Model for Side {
    ghost use Rattle.std.specs.Prelude.{◌-◌};
    ghost use Rattle.std.specs.VecDeque.{deque_len, deque_capacity};
    ghost use Rattle.region_run.specs.Sides.{SideView};

    ghost Value = { SideView };

    ghost view = { λ s. record { other = s.other; ends = s.ends; outbox = s.outbox.items; room = deque_capacity s.outbox - deque_len s.outbox } };
}

impl Ends {
    ghost use Rattle.std.specs.Prelude.{◌≡◌};
    ghost use Rattle.region_run.specs.Sides.{EndsHeard, one};
    ghost use Rattle.region_run.specs.Between.{RingGives, RingsSeen};

    /// Asks the ring for a message.
    fn ask(&mut self) -> Option<Op>
        ensures { EndsHeard self.old (one result) 1 self.new }
    {
        self.inn.take()
    }

    /// Takes the first message that waits in the ring to the other ends.
    fn give(&mut self, to: &mut Ends) -> Option<Op>
        requires { self.old.out.ring ≡ to.old.inn.ring }
        ensures { RingGives self.old to.old result self.new to.new }
    {
        if beside(&mut self.out, &mut to.inn) > 0 {
            to.inn.take()
        } else {
            None
        }
    }

    /// Looks at both rings between the two.
    fn meet(&mut self, other: &mut Ends)
        requires there { self.old.out.ring ≡ other.old.inn.ring }
        requires back { other.old.out.ring ≡ self.old.inn.ring }
        ensures { RingsSeen self.old other.old self.new other.new }
    {
        beside(&mut self.out, &mut other.inn);
        beside(&mut other.out, &mut self.inn);
    }
}

/// Asks the ring for a message, where there is one.
fn ask_ring(ends: &mut Option<Ends>) -> Option<Op>
    ensures { RingHeard ends.old (one result) 1 ends.new }
{
    match ends {
        Some(ends) => ends.ask(),
        None => None,
    }
}

/// Takes the first message that waits in the ring to a neighbour, where there is one.
fn give_to(ends: &mut Option<Ends>, to: &mut Option<Side>) -> Option<Op>
    requires { AreTied ends.old (ends_of to.old) }
    ensures { GivesTo ends.old to.old result ends.new to.new }
{
    let Some(to) = to else {
        return None;
    };
    match (ends, &mut to.ends) {
        (Some(ends), Some(to)) => ends.give(to),
        _ => None,
    }
}

/// Sends the first message that waits, if the ring takes it.
fn send_one(ends: &mut Ends, outbox: &mut VecDeque<Op>) -> bool
    ensures { MatchBool result (IsSentOne ends.old outbox.old.items (deque_capacity outbox.old - deque_len outbox.old) ends.new outbox.new.items (deque_capacity outbox.new - deque_len outbox.new)) (IsUnsent ends.old outbox.old.items (deque_capacity outbox.old - deque_len outbox.old) ends.new outbox.new.items (deque_capacity outbox.new - deque_len outbox.new)) }
{
    let Some(op) = outbox.front() else {
        return false;
    };
    if ends.out.send(*op).is_err() {
        return false;
    }
    outbox.pop_front();
    true
}

impl Side {
    ghost use Rattle.std.specs.Prelude.{◌≡◌, ◌<◌, ◌≤◌, ◌+◌, ◌-◌, [], ◌∷◌, ◌++◌, None, Some, OnOk, OnErr, MatchBool, length};
    ghost use Rattle.region_run.specs.Sides.{SideAsked, ends_of};
    ghost use Rattle.region_run.specs.Channels.{SideFlushed, IsMove, IsStop, AreTied};
    ghost use Rattle.region_run.specs.Deliveries.{ArePaired};
    ghost use Rattle.region_run.specs.Between.{TakesFirst, Meets};

    /// A neighbour to which no ring leads yet.
    pub fn new(alloc: Global, other: u32) -> Side
        ensures { result ≡ record { other = other; ends = None; outbox = []; room = result.room } }
    {
        Side {
            other,
            ends: None,
            outbox: VecDeque::new(alloc),
        }
    }

    /// Takes the ends of the rings to the neighbour and from it.
    pub fn attach(&mut self, out: OutEnd, inn: InEnd)
        ensures { self.new ≡ record self.old { ends = Some (record { out = out; inn = inn }) } }
    {
        self.ends = Some(Ends { out, inn });
    }

    /// Makes room for so many more messages.
    pub fn reserve(&mut self, more: u32) -> Result<(), NoMemory>
        ensures rest { self.new ≡ record self.old { room = self.new.room } }
        ensures ok { OnOk result (more ≤ self.new.room) }
        ensures no_less { self.old.room ≤ self.new.room }
    {
        self.outbox.reserve(more as usize)?;
        Ok(())
    }

    /// The neighbour's number.
    pub fn other(&self) -> u32
        ensures { result ≡ self.now.other }
    {
        self.other
    }

    /// Puts a message last.
    pub fn put(&mut self, op: Op)
        requires { 0 < self.old.room }
        ensures { self.new ≡ record self.old { outbox = self.old.outbox ++ op ∷ []; room = self.old.room - 1 } }
    {
        let _ = self.outbox.push_back(op);
    }

    /// Asks the ring for a message, where there is one.
    pub fn ask(&mut self) -> Option<Op>
        ensures { SideAsked self.old result self.new }
    {
        ask_ring(&mut self.ends)
    }

    /// Takes the first message of the channel to a region, which has `to` of this one: from the ring if one waits there,
    /// else of those that wait to be sent.
    pub fn next_to(&mut self, to: &mut Option<Side>) -> Option<Op>
        requires { AreTied self.old.ends (ends_of to.old) }
        ensures { TakesFirst (Some self.old) to.old result (Some self.new) to.new }
    {
        match give_to(&mut self.ends, to) {
            Some(op) => Some(op),
            None => self.outbox.pop_front(),
        }
    }

    /// Looks at the rings between two neighbours, where there are any.
    pub fn meet(&mut self, other: &mut Side)
        requires { ArePaired self.old.ends other.old.ends }
        ensures { Meets (Some self.old) (Some other.old) (Some self.new) (Some other.new) }
    {
        if let (Some(ends), Some(other)) = (&mut self.ends, &mut other.ends) {
            ends.meet(other);
        }
    }

    /// Sends the first message that waits, if the ring takes it.
    fn send_first(&mut self) -> bool
        ensures { MatchBool result (IsMove self.old self.new) (IsStop self.old self.new) }
    {
        match &mut self.ends {
            Some(ends) => send_one(ends, &mut self.outbox),
            None => false,
        }
    }

    /// Sends what the ring takes.
    pub fn flush(&mut self)
        ensures { SideFlushed self.old self.new }
    {
        while self.send_first() {}
    }
}
