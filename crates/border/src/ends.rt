//! The two ends of a ring of messages.

ghost use Rattle.std.specs.Prelude.{◌≡◌, ◌+◌, ◌≤◌, ◌++◌, [], IfOk};
ghost use Rattle.border.specs.Ends.{waiting as waiting_of};

use crate::op::Op;
use rtrb::{Consumer, Producer, PushError, RingBuffer};
use std::alloc::Global;
use std::marker::Model;
use surf_kinds::NoMemory;

/// The end of a ring that sends.
#[derive(Drop)]
pub struct OutEnd {
    producer: Producer<Op>,
    free: usize,
}

impl Model for OutEnd {
    ghost use Rattle.std.specs.Prelude.{◌≤◌};
    ghost use Rattle.rtrb.specs.Ring.{sent, known_free, producer_capacity};
    ghost use Rattle.border.specs.Ends.{OutView, name_of_out};

    ghost Value = { OutView };

    ghost view = { λ o. record { ring = name_of_out o.producer; slots = producer_capacity o.producer; sent = sent o.producer; free = o.free } };

    ghost invariant = { λ o. o.free ≤ known_free o.producer };
}

/// The end of a ring that takes.
#[derive(Drop)]
pub struct InEnd {
    consumer: Consumer<Op>,
    waiting: usize,
    asked: u64,
}

impl Model for InEnd {
    ghost use Rattle.std.specs.Prelude.{◌≤◌, length, take};
    ghost use Rattle.rtrb.specs.Ring.{received, known_items, consumer_capacity};
    ghost use Rattle.border.specs.Ends.{InView, name_of_in};

    ghost Value = { InView };

    ghost view = { λ i. record { ring = name_of_in i.consumer; slots = consumer_capacity i.consumer; received = received i.consumer; ahead = take i.waiting (known_items i.consumer); asked = i.asked } };

    ghost invariant = { λ i. i.waiting ≤ length (known_items i.consumer) };
}

/// An empty ring of so many slots. Each end may go to a thread of its own. The other calls take no memory.
pub fn ring(alloc: Global, slots: u32) -> Result<(OutEnd, InEnd), NoMemory>
    requires at_least { 1 ≤ slots }
    requires at_most { slots ≤ 65536 }
    ensures one { IfOk result (λ r. r.0.ring ≡ r.1.ring) }
    ensures slots { IfOk result (λ r. (r.0.slots ≡ slots) × (r.1.slots ≡ slots)) }
    ensures out { IfOk result (λ r. (r.0.sent ≡ []) × (r.0.free ≡ slots)) }
    ensures inn { IfOk result (λ r. (r.1.received ≡ []) × (r.1.ahead ≡ []) × (r.1.asked ≡ 0)) }
{
    let (producer, consumer) = RingBuffer::new(alloc, slots as usize)?;
    let out = OutEnd {
        producer,
        free: slots as usize,
    };
    let inn = InEnd {
        consumer,
        waiting: 0,
        asked: 0,
    };
    Ok((out, inn))
}

impl OutEnd {
    ghost use Rattle.std.specs.Prelude.{◌≡◌, OnOk, OnErr, IfErr};
    ghost use Rattle.border.specs.Ends.{after_send};

    /// Sends a message, or hands it back. The number of slots kept as free is lowered by one, down to 0.
    pub fn send(&mut self, op: Op) -> Result<(), Op>
        ensures ok { OnOk result (self.new ≡ after_send self.old op) }
        ensures back { IfErr result (λ back. back ≡ op) }
        ensures unsent { OnErr result (self.new ≡ self.old) }
        ensures full { OnErr result (self.old.free ≡ 0) }
    {
        match self.producer.push(op) {
            Ok(()) => {
                self.free = self.free.saturating_sub(1);
                Ok(())
            }
            Err(PushError::Full(back)) => Err(back),
        }
    }
}

impl InEnd {
    ghost use Rattle.std.specs.Prelude.{◌≡◌, ◌∷◌, List, IfSome, IfNone, Some};
    ghost use Rattle.border.specs.Ends.{after_take, after_ask, waiting as waiting_of};
    ghost use Rattle.border.specs.declared.op.Op.{Op as Message};

    /// Takes the message that was sent first of those that were not taken. Where one is kept as waiting it is taken.
    pub fn take(&mut self) -> Option<Op>
        ensures some { IfSome result (λ op. self.new ≡ after_take self.old op) }
        ensures first { (op : Message) (rest : List Message) → self.old.ahead ≡ op ∷ rest → result ≡ Some op }
        ensures none { IfNone result (self.new ≡ after_ask self.old) }
        ensures empty { IfNone result (waiting_of self.old ≡ 0) }
    {
        self.asked = self.asked.saturating_add(1);
        match self.consumer.pop() {
            Ok(op) => {
                self.waiting = self.waiting.saturating_sub(1);
                Some(op)
            }
            Err(_) => None,
        }
    }
}

/// Looks at both ends of one ring, and answers how many messages wait in it. The ends keep that number, and the
/// number of slots that are free.
pub fn beside(out: &mut OutEnd, inn: &mut InEnd) -> usize
    requires { out.old.ring ≡ inn.old.ring }
    ensures waiting { result ≡ waiting_of inn.new }
    ensures all { inn.new.received ++ inn.new.ahead ≡ out.new.sent }
    ensures free { out.new.free + result ≡ out.new.slots }
    ensures out { out.new ≡ record out.old { free = out.new.free } }
    ensures inn { inn.new ≡ record inn.old { ahead = inn.new.ahead } }
{
    let waiting = inn.consumer.slots_beside(&mut out.producer);
    let free = out.producer.slots_beside(&mut inn.consumer);
    inn.waiting = waiting;
    out.free = free;
    waiting
}
