//! Calls on one region of a crew, or on two.

ghost use Rattle.std.specs.Prelude.{◌≡◌, ◌≢◌, ◌<◌, ◌≤◌, ℕ, length, slice_index_or};
ghost use Rattle.region_run.specs.declared.region.Region.{Region as TheRegion};
ghost use Rattle.crew.specs.Calls.{ChangesOne, ChangesTwo, MakesRoom, MayStepOne, HasStepped, MayDeliver, Delivers};

use plan::Plan;
use region_run::{Region, deliver};
use regions::Cut;
use surf_kinds::NoMemory;

/// Makes room for so many entries and messages, twice.
pub(crate) fn make_room(region: &mut Region, quota: u32) -> Result<(), NoMemory>
    requires { quota ≤ 65536 }
    ensures { MakesRoom quota result region.old region.new }
{
    region.prepare(quota)
}

/// Makes room in one of the regions.
pub(crate) fn make_room_in(regions: &mut Vec<Region>, i: u32, quota: u32) -> Result<(), NoMemory>
    requires quota { quota ≤ 65536 }
    requires inside { i < length regions.old.items }
    ensures { ChangesOne (MakesRoom quota result) regions.old.items i regions.new.items }
{
    make_room(&mut regions[i as usize], quota)
}

/// One step of a region.
fn step(plan: &Plan, cut: &Cut, until: u64, region: &mut Region)
    requires { MayStepOne plan.now cut.now until region.old }
    ensures { HasStepped plan.now cut.now until region.old region.new }
{
    region.step_one(plan, cut, until);
}

/// One step of one of the regions.
pub(crate) fn step_in(plan: &Plan, cut: &Cut, until: u64, regions: &mut Vec<Region>, i: u32)
    requires inside { i < length regions.old.items }
    requires may { (d : TheRegion) → MayStepOne plan.now cut.now until (slice_index_or regions.old.items i d) }
    ensures { ChangesOne (HasStepped plan.now cut.now until) regions.old.items i regions.new.items }
{
    step(plan, cut, until, &mut regions[i as usize])
}

/// Delivers the first message of the channel from one region to another.
fn give(plan: &Plan, cut: &Cut, from: &mut Region, to: &mut Region) -> bool
    requires { MayDeliver plan.now cut.now from.old to.old }
    ensures { Delivers plan.now cut.now result from.old to.old from.new to.new }
{
    deliver(plan, cut, from, to)
}

/// Delivers the first message of the channel from one of the regions to another.
fn give_in(plan: &Plan, cut: &Cut, regions: &mut [Region], from: usize, to: usize) -> bool
    requires from { from < length regions.old }
    requires to { to < length regions.old }
    requires apart { from ≢ to }
    requires may { (d : TheRegion) → MayDeliver plan.now cut.now (slice_index_or regions.old from d) (slice_index_or regions.old to d) }
    ensures others { (k : ℕ) (d : TheRegion) → k ≢ from → k ≢ to → slice_index_or regions.new k d ≡ slice_index_or regions.old k d }
    ensures they { (d : TheRegion) → Delivers plan.now cut.now result (slice_index_or regions.old from d) (slice_index_or regions.old to d) (slice_index_or regions.new from d) (slice_index_or regions.new to d) }
{
    if from < to {
        let (low, high) = regions.split_at_mut(to);
        give(plan, cut, &mut low[from], &mut high[0])
    } else {
        let (low, high) = regions.split_at_mut(from);
        give(plan, cut, &mut high[0], &mut low[to])
    }
}

/// Delivers the first message of the channel from one of the regions to another, and answers whether there was one.
pub(crate) fn deliver_in(
    plan: &Plan,
    cut: &Cut,
    regions: &mut Vec<Region>,
    from: u32,
    to: u32,
) -> bool
    requires from { from < length regions.old.items }
    requires to { to < length regions.old.items }
    requires apart { from ≢ to }
    requires may { (d : TheRegion) → MayDeliver plan.now cut.now (slice_index_or regions.old.items from d) (slice_index_or regions.old.items to d) }
    ensures { ChangesTwo (Delivers plan.now cut.now result) regions.old.items from to regions.new.items }
{
    give_in(
        plan,
        cut,
        regions.as_mut_slice(),
        from as usize,
        to as usize,
    )
}
