//! The tracks that are free.

ghost use Rattle.std.specs.Prelude.{◌≡◌, ℕ, ◌==◌, Bool, false, IfSome, IfNone, OnOk};
ghost use Rattle.std.specs.BinaryHeap.{IsHeap, heap_items};
ghost use Rattle.std.specs.List.{IsDistinct};
ghost use Rattle.std.specs.Ordering.{nat_cmp};
ghost use Rattle.track_layout.specs.Free.{has, Takes, Gives};

use std::cmp::Reverse;
use std::collections::BinaryHeap;
use surf_kinds::NoMemory;

/// Takes the least of them.
pub(crate) fn take_least(free: &mut BinaryHeap<Reverse<u32>>) -> Option<u32>
    requires heap { IsHeap (λ x y. nat_cmp y.0 x.0) (heap_items free.old) }
    requires once { IsDistinct (λ x y. x.0 == y.0) (heap_items free.old) }
    ensures heap { IsHeap (λ x y. nat_cmp y.0 x.0) (heap_items free.new) }
    ensures once { IsDistinct (λ x y. x.0 == y.0) (heap_items free.new) }
    ensures none { IfNone result ((k : ℕ) → has (heap_items free.old) (λ r. r.0) k ≡ false) }
    ensures left { IfNone result (heap_items free.new ≡ heap_items free.old) }
    ensures some { IfSome result (λ track. Takes (has (heap_items free.old) (λ r. r.0)) (has (heap_items free.new) (λ r. r.0)) track) }
{
    match free.pop() {
        Some(Reverse(track)) => Some(track),
        None => None,
    }
}

/// Puts one to them that isn't there.
pub(crate) fn give(free: &mut BinaryHeap<Reverse<u32>>, track: u32) -> Result<(), NoMemory>
    requires heap { IsHeap (λ x y. nat_cmp y.0 x.0) (heap_items free.old) }
    requires once { IsDistinct (λ x y. x.0 == y.0) (heap_items free.old) }
    requires absent { has (heap_items free.old) (λ r. r.0) track ≡ false }
    ensures heap { IsHeap (λ x y. nat_cmp y.0 x.0) (heap_items free.new) }
    ensures once { IsDistinct (λ x y. x.0 == y.0) (heap_items free.new) }
    ensures gives { OnOk result (Gives (has (heap_items free.old) (λ r. r.0)) (has (heap_items free.new) (λ r. r.0)) track) }
{
    free.push(Reverse(track))?;
    Ok(())
}
