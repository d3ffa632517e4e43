//! The stacks of received events.

ghost use Rattle.std.specs.Prelude.{◌≡◌, ◌+◌, ◌<◌, ◌≤◌, length, OnOk, vec_len, vec_capacity};
ghost use Rattle.surf_kinds.specs.Keys.{RiseStrictly, below};
ghost use Rattle.border.specs.Messages.{replay_one};
ghost use Rattle.border.specs.Stacked.{AreGrown, HaveRoom, IsRest, AreRests};

use crate::op::Op;
use std::alloc::Global;
use std::marker::Model;
use surf_kinds::{Event, Key, NoMemory};

/// Removes the events whose key is `key` or greater, and answers how many they were.
pub fn cut(stack: &mut Vec<Event>, key: Key) -> u64
    requires { RiseStrictly stack.old.items }
    ensures items { stack.new.items ≡ below key stack.old.items }
    ensures count { result + vec_len stack.new ≡ vec_len stack.old }
    ensures rising { RiseStrictly stack.new.items }
    ensures room { vec_capacity stack.new ≡ vec_capacity stack.old }
{
    let mut keep = stack.len();
    while keep > 0 && !stack[keep - 1].key().is_before(key) {
        keep -= 1;
    }
    let count = (stack.len() - keep) as u64;
    stack.truncate(keep);
    count
}

/// One stack after a message.
fn replay_on(stack: &mut Vec<Event>, op: Op)
    requires rising { RiseStrictly stack.old.items }
    requires room { vec_len stack.old < vec_capacity stack.old }
    ensures items { stack.new.items ≡ replay_one stack.old.items op }
    ensures rising { RiseStrictly stack.new.items }
    ensures len { vec_len stack.new ≤ vec_len stack.old + 1 }
    ensures capacity { vec_capacity stack.old ≤ vec_capacity stack.new }
{
    cut(stack, op.key());
    if let Op::Put(event) = op {
        stack.push_reserved(event);
    }
}

/// Makes room for so many more events in each stack.
fn make_room(stacks: &mut [Vec<Event>], more: u32) -> Result<(), NoMemory>
    ensures grown { AreGrown stacks.old stacks.new }
    ensures ok { OnOk result (HaveRoom more (length stacks.old) stacks.new) }
{
    for i in 0..stacks.len() {
        stacks[i].reserve(more as usize)?;
    }
    Ok(())
}

/// Removes the events below a key.
fn forget(stack: &mut Vec<Event>, key: Key)
    ensures { IsRest key stack.old stack.new }
{
    stack.retain(|event| !event.key().is_before(key));
}

/// Removes the events below a key from each stack.
fn forget_each(stacks: &mut [Vec<Event>], key: Key)
    ensures { AreRests key stacks.old stacks.new }
{
    for i in 0..stacks.len() {
        forget(&mut stacks[i], key);
    }
}

/// For each sender the events that stand of those that it told, with keys that rise strictly, and room for a number
/// of further messages: the spare.
#[derive(Drop)]
pub struct Stacks {
    stacks: Vec<Vec<Event>>,
    spare: u32,
}

impl Model for Stacks {
    ghost use Rattle.border.specs.Stacked.{StacksView, stacks_of, AreStacks};

    ghost Value = { StacksView };

    ghost view = { λ s. record { stacks = stacks_of s.stacks.items; spare = s.spare } };

    ghost invariant = { λ s. AreStacks s.spare s.stacks.items };
}

impl Stacks {
    ghost use Rattle.std.specs.Prelude.{◌≡◌, ◌-◌, ◌<◌, [], length, map, max, slice_set, OnOk, OnErr, IfOk, replicate};
    ghost use Rattle.surf_kinds.specs.Keys.{from, RiseStrictly};
    ghost use Rattle.border.specs.Messages.{replay_one};
    ghost use Rattle.border.specs.Stacked.{stack_of};

    /// An empty stack for each sender from 0 up to, and not with, `regions`. The spare is 0.
    pub fn new(alloc: Global, regions: u32) -> Result<Stacks, NoMemory>
        ensures { IfOk result (λ s. s ≡ record { stacks = replicate regions []; spare = 0 }) }
    {
        let mut stacks = Vec::new(alloc);
        for _ in 0..regions {
            stacks.push(Vec::new(alloc))?;
        }
        Ok(Stacks { stacks, spare: 0 })
    }

    /// Makes the spare at least `more`.
    pub fn reserve(&mut self, more: u32) -> Result<(), NoMemory>
        ensures ok { OnOk result (self.new ≡ record { stacks = self.old.stacks; spare = max self.old.spare more }) }
        ensures err { OnErr result (self.new ≡ self.old) }
    {
        if more <= self.spare {
            return Ok(());
        }
        make_room(self.stacks.as_mut_slice(), more)?;
        self.spare = more;
        Ok(())
    }

    /// Forgets, in each stack, the events below a key. Takes no memory.
    pub fn forget_below(&mut self, key: Key)
        ensures { self.new ≡ record { stacks = map (from key) self.old.stacks; spare = self.old.spare } }
    {
        forget_each(self.stacks.as_mut_slice(), key);
    }

    /// Replays a message of a sender on the sender's stack, and uses one of the spare. Takes no memory.
    pub fn replay(&mut self, sender: u32, op: Op)
        requires sender { sender < length self.old.stacks }
        requires spare { 0 < self.old.spare }
        ensures { self.new ≡ record { stacks = slice_set self.old.stacks sender (replay_one (stack_of self.old sender) op); spare = self.old.spare - 1 } }
    {
        self.spare -= 1;
        replay_on(&mut self.stacks[sender as usize], op);
    }

    /// The events that stand of a sender.
    pub fn of(&self, sender: u32) -> &[Event]
        requires { sender < length self.now.stacks }
        ensures events { result.now ≡ stack_of self.now sender }
        ensures rising { RiseStrictly result.now }
    {
        self.stacks[sender as usize].as_slice()
    }
}
