//! Laws of messages, over their definitions alone.

ghost use Rattle.std.specs.Prelude.{◌≡◌, ◌↔◌, ◌++◌, ℕ, List, Some, true};
ghost use Rattle.surf_kinds.specs.declared.event.Event.{Event};
ghost use Rattle.surf_kinds.specs.declared.event.Key.{Key};
ghost use Rattle.surf_kinds.specs.Keys.{below, from, RiseStrictly};
ghost use Rattle.border.specs.declared.op.Op.{Op as Message};
ghost use Rattle.border.specs.Messages.{replay, AllOpsFrom, Partition, IsLawful, IsSent, accepted_op, is_lawful};

/// Messages can be replayed in parts, one part after the other, and they leave keys that rise strictly.
pub fn messages_are_replayed_in_order()
    ensures parts { (stack : List Event) (first second : List Message) → replay stack (first ++ second) ≡ replay (replay stack first) second }
    ensures rising { (stack : List Event) (ops : List Message) → RiseStrictly stack → RiseStrictly (replay stack ops) }
{}

/// What messages leave from a key on depends on what lay from it on alone, so a stack may forget what lies below. Where
/// the messages' keys are from the key on, what lies from it on is replayed by itself, and what lies below it stays.
pub fn stacks_may_forget()
    ensures forgotten { (k : Key) (stack : List Event) (ops : List Message) → from k (replay (from k stack) ops) ≡ from k (replay stack ops) }
    ensures alone { (k : Key) (stack : List Event) (ops : List Message) → AllOpsFrom k ops → from k (replay stack ops) ≡ replay (from k stack) ops }
    ensures stays { (k : Key) (stack : List Event) (ops : List Message) → AllOpsFrom k ops → below k (replay stack ops) ≡ below k stack }
{}

/// The test of a lawful Put says what it is, and what is sent is accepted as it is.
pub fn lawful_puts_are_tested()
    ensures tested { (p : Partition) (sender receiver : ℕ) (floor : Key) (e : Event) → (is_lawful p sender receiver floor e ≡ true) ↔ IsLawful p sender receiver floor e }
    ensures sent { (p : Partition) (sender receiver : ℕ) (floor : Key) (until : ℕ) (op : Message) → IsSent p sender receiver floor until op → accepted_op p sender receiver floor op ≡ Some op }
{}
