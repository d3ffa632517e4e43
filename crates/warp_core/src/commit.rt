//! What a commit asks of the regions, and what it takes from them.

ghost use Rattle.std.specs.Prelude.{◌≡◌, ◌<◌, ℕ, length, slice_index_or, IfOk};
ghost use Rattle.std.specs.List.{list_all};
ghost use Rattle.warp_core.specs.declared.region.Region.{Region as TheRegion};
ghost use Rattle.warp_core.specs.Grounds.{ArePlaces};
ghost use Rattle.warp_core.specs.Commits.{are_from as are_from_key, all_are_from as all_are_from_key, is_past as is_past_key, may_commit as may_commit_at, AreOwnLists, AreForgotten};

use crate::region::Region;
use border::Op;
use regions::Cut;
use std::alloc::Global;
use surf_kinds::{Event, Key, NoMemory};

/// Whether the keys of all messages are from a key on.
fn are_from(ops: &[Op], key: Key) -> bool
    ensures { result ≡ are_from_key key ops.now }
{
    ops.iter().all(|op| !op.key().is_before(key))
}

/// Whether that holds of all outboxes.
fn all_are_from(outboxes: &[Vec<Op>], key: Key) -> bool
    ensures { result ≡ all_are_from_key key outboxes.now }
{
    outboxes
        .iter()
        .all(|outbox| are_from(outbox.as_slice(), key))
}

/// Whether a region's clock and the keys of all its messages are from a key on.
fn is_past(region: &Region, key: Key) -> bool
    ensures { result ≡ is_past_key key region.now }
{
    !region.clock.is_before(key) && all_are_from(region.outboxes.as_slice(), key)
}

/// Whether that holds of all regions.
fn all_are_past(regions: &[Region], key: Key) -> bool
    ensures { result ≡ list_all (is_past_key key) regions.now }
{
    regions.iter().all(|region| is_past(region, key))
}

/// Whether all that lies below a key is final: it is at least the horizon, and at most every clock and the key of
/// every message.
pub(crate) fn may_commit(regions: &[Region], horizon: Key, key: Key) -> bool
    ensures { result ≡ may_commit_at horizon regions.now key }
{
    !key.is_before(horizon) && all_are_past(regions, key)
}

/// The own events of each region below a key.
pub(crate) fn own_lists(
    alloc: Global,
    cut: &Cut,
    regions: &[Region],
    key: Key,
) -> Result<Vec<Vec<Event>>, NoMemory>
    requires count { length regions.now ≡ cut.now.count }
    requires places { (i : ℕ) (d : TheRegion) → i < length regions.now → ArePlaces cut.now.lattice (slice_index_or regions.now i d).timeline.entries }
    ensures { IfOk result (λ lists. AreOwnLists cut.now key regions.now cut.now.count lists.items) }
{
    let mut lists = Vec::new(alloc);
    for region in 0..cut.count() {
        let list = regions[region as usize].own_below(alloc, cut, region, key)?;
        lists.push(list)?;
    }
    Ok(lists)
}

/// Forgets the entries of all regions below a key.
pub(crate) fn forget_all(regions: &mut Vec<Region>, key: Key)
    ensures { AreForgotten key regions.old.items regions.new.items }
{
    for i in 0..regions.len() {
        regions[i].forget_below(key);
    }
}
