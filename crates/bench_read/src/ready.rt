//! A heap of the gates that may be ready.

ghost use Rattle.std.specs.Prelude.{◌≡◌, ◌≤◌, ◌<◌, ◌⊎◌, ℕ, [], length, OnOk, IfOk, IfSome, IfNone};
ghost use Rattle.std.specs.List.{All, Contains};
ghost use Rattle.std.specs.BinaryHeap.{IsHeap, heap_items};
ghost use Rattle.std.specs.Ordering.{nat_cmp};
ghost use Rattle.std.proofs.Props.{props};

use std::alloc::Global;
use std::cmp::Reverse;
use std::collections::BinaryHeap;
use std::marker::Model;
use surf_kinds::NoMemory;

/// Numbers of items, some perhaps twice, of which the least can be taken.
#[derive(Drop)]
pub(crate) struct Ready {
    heap: BinaryHeap<Reverse<u32>>,
    ghost ordered: { IsHeap (λ x y. nat_cmp y.0 x.0) (heap_items heap) } by { Prim.hlevel props },
}

impl Model for Ready {
    ghost use Rattle.std.specs.Prelude.{ℕ, List, map};
    ghost use Rattle.std.specs.BinaryHeap.{heap_items};

    ghost Value = { List ℕ };

    ghost view = { λ r. map (λ x. x.0) (heap_items r.heap) };
}

impl Ready {
    /// No items. Takes no memory.
    pub(crate) fn new(alloc: Global) -> Ready
        ensures { result ≡ [] }
    {
        Ready {
            heap: BinaryHeap::new(alloc),
        }
    }

    /// Takes an item in.
    pub(crate) fn push(&mut self, item: u32) -> Result<(), NoMemory>
        ensures added { OnOk result (Contains self.new item) }
        ensures kept { OnOk result ((d : ℕ) → Contains self.old d → Contains self.new d) }
        ensures only { OnOk result ((bound : ℕ) → item < bound → All (λ d. d < bound) self.old → All (λ d. d < bound) self.new) }
    {
        self.heap.push(Reverse(item))?;
        Ok(())
    }

    /// Takes the least item out; `None` where there is none.
    pub(crate) fn pop(&mut self) -> Option<u32>
        ensures none { IfNone result (self.old ≡ []) }
        ensures unchanged { IfNone result (self.new ≡ self.old) }
        ensures least { IfSome result (λ item. All (λ d. item ≤ d) self.old) }
        ensures left { IfSome result (λ item. (d : ℕ) → Contains self.old d → (d ≡ item) ⊎ Contains self.new d) }
        ensures shorter { IfSome result (λ item. length self.new < length self.old) }
        ensures only { IfSome result (λ item. (bound : ℕ) → All (λ d. d < bound) self.old → (item < bound) × All (λ d. d < bound) self.new) }
    {
        let Reverse(item) = self.heap.pop()?;
        Some(item)
    }
}
