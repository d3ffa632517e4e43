//! What the regions give together, up to the least of their clocks.

ghost use Rattle.std.specs.Prelude.{◌≡◌, ◌<◌, ℕ, List, All, length, map, IfOk, slice_index_or, if◌then◌else◌};
ghost use Rattle.std.specs.Vec.{vec_items};
ghost use Rattle.surf_kinds.specs.declared.event.Event.{Event as TheEvent};
ghost use Rattle.surf_kinds.specs.Keys.{is_before};
ghost use Rattle.ordered_commit.specs.Merge.{AreMergeable};
ghost use Rattle.region_run.specs.declared.region.Region.{Region as TheRegion};
ghost use Rattle.crew.specs.Calls.{ChangesEach, AreOwnBelow, IsOwnBelow, IsGathered, MayForget, Forgets, IsUptoClock, IsClockOf};

use ordered_commit::merge;
use region_run::Region;
use std::alloc::Global;
use surf_kinds::{Event, Key, NoMemory};

/// The lesser of a key and a region's clock.
fn lesser(least: Key, region: &Region) -> Key
    ensures { result ≡ (if is_before region.now.clock least then region.now.clock else least) }
{
    let clock = region.clock();
    if clock.is_before(least) { clock } else { least }
}

/// The least of the clocks.
pub(crate) fn least_clock(regions: &[Region]) -> Key
    requires { 0 < length regions.now }
    ensures least { (i : ℕ) (d : TheRegion) → i < length regions.now → IsUptoClock result (slice_index_or regions.now i d) }
    ensures some { (d : TheRegion) → (i : ℕ) × (i < length regions.now) × IsClockOf result (slice_index_or regions.now i d) }
{
    let mut least = regions[0].clock();
    for i in 1..regions.len() {
        least = lesser(least, &regions[i]);
    }
    least
}

/// The own events of a region below a key.
fn own_of(alloc: Global, region: &Region, key: Key) -> Result<Vec<Event>, NoMemory>
    requires { MayForget key region.now }
    ensures { IfOk result (λ own. IsOwnBelow key region.now own.items) }
{
    let mut own = Vec::new(alloc);
    region.own_below(key, &mut own)?;
    Ok(own)
}

/// The own events of each region below a key.
pub(crate) fn collect(
    alloc: Global,
    regions: &[Region],
    key: Key,
) -> Result<Vec<Vec<Event>>, NoMemory>
    requires { All (MayForget key) regions.now }
    ensures { IfOk result (λ lists. AreOwnBelow key regions.now (length regions.now) (map vec_items lists.items)) }
{
    let mut lists = Vec::new(alloc);
    for i in 0..regions.len() {
        let own = own_of(alloc, &regions[i], key)?;
        match lists.push(own) {
            Ok(()) => {}
            Err(_) => return Err(NoMemory),
        }
    }
    Ok(lists)
}

/// All own events below a key, in order.
pub(crate) fn gather(alloc: Global, regions: &[Region], key: Key) -> Result<Vec<Event>, NoMemory>
    requires may { All (MayForget key) regions.now }
    requires mergeable { (lists : List (List TheEvent)) → AreOwnBelow key regions.now (length regions.now) lists → AreMergeable lists }
    ensures { IfOk result (λ events. IsGathered key regions.now events.items) }
{
    let lists = collect(alloc, regions, key)?;
    merge(alloc, &lists)
}

/// Forgets the entries of a region below a key.
fn forget(region: &mut Region, key: Key)
    requires { MayForget key region.old }
    ensures { Forgets key region.old region.new }
{
    region.commit_below(key);
}

/// Forgets the entries of each region below a key.
fn forget_each(regions: &mut [Region], key: Key)
    requires { All (MayForget key) regions.old }
    ensures { (i : ℕ) (d : TheRegion) → i < length regions.old → Forgets key (slice_index_or regions.old i d) (slice_index_or regions.new i d) }
{
    for i in 0..regions.len() {
        forget(&mut regions[i], key);
    }
}

/// Forgets the entries of all regions below a key.
pub(crate) fn forget_all(regions: &mut Vec<Region>, key: Key)
    requires { All (MayForget key) regions.old.items }
    ensures { ChangesEach (Forgets key) regions.old.items regions.new.items }
{
    forget_each(regions.as_mut_slice(), key);
}
