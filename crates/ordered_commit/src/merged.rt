//! One list of the events of many.

ghost use Rattle.std.specs.Prelude.{map, IfOk, IsPermutation};
ghost use Rattle.std.specs.Vec.{vec_items};
ghost use Rattle.surf_kinds.specs.Keys.{RiseStrictly};
ghost use Rattle.ordered_commit.specs.Merge.{all_events, AreMergeable};

use std::alloc::Global;
use surf_kinds::{Event, NoMemory};

/// All events of the lists, in the order of their keys. The keys of each list rise strictly, and no two lists have
/// a key in common.
pub fn merge(alloc: Global, lists: &[Vec<Event>]) -> Result<Vec<Event>, NoMemory>
    requires { AreMergeable (map vec_items lists.now) }
    ensures all { IfOk result (λ merged. IsPermutation (all_events (map vec_items lists.now)) merged.items) }
    ensures order { IfOk result (λ merged. RiseStrictly merged.items) }
{
    let mut events = lists.concat(alloc)?;
    // The lists are runs that are in order already: the sort finds them, and merges them.
    events.sort_by_key(|event| event.key())?;
    Ok(events)
}
