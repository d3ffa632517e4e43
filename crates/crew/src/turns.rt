//! Turns side by side, and a look at the rings after them.

ghost use Rattle.std.specs.Prelude.{◌≡◌, ◌≢◌, ◌<◌, ◌≤◌, ◌*◌, ℕ, All, OnOk, length, slice_index_or};
ghost use Rattle.region_run.specs.declared.region.Region.{Region as TheRegion};
ghost use Rattle.region_run.specs.Runs.{HasSpare};
ghost use Rattle.crew.specs.Calls.{ChangesTwo, ChangesEach, HasRoomMade, MakesRoom, MayTurn, HasTurned, MayLook, LooksAt, IsSeen, AreLookedAt};

use crate::members::make_room;
use plan::Plan;
use region_run::{Region, look};
use regions::Cut;
use std::thread;
use std::thread::Threads;
use surf_kinds::NoMemory;
use surf_outside::Gate;

/// Makes room in every region for a turn.
fn prepare_each(regions: &mut [Region], quota: u32) -> Result<(), NoMemory>
    requires { quota ≤ 65536 }
    ensures each { (i : ℕ) (d : TheRegion) → i < length regions.old → HasRoomMade (slice_index_or regions.old i d) (slice_index_or regions.new i d) }
    ensures ok { OnOk result ((i : ℕ) (d : TheRegion) → i < length regions.new → HasSpare (2 * quota) (slice_index_or regions.new i d)) }
{
    for i in 0..regions.len() {
        make_room(&mut regions[i], quota)?;
    }
    Ok(())
}

/// Makes room in every region for a turn.
pub(crate) fn prepare_all(regions: &mut Vec<Region>, quota: u32) -> Result<(), NoMemory>
    requires { quota ≤ 65536 }
    ensures each { ChangesEach HasRoomMade regions.old.items regions.new.items }
    ensures ok { OnOk result ((i : ℕ) (d : TheRegion) → i < length regions.new.items → HasSpare (2 * quota) (slice_index_or regions.new.items i d)) }
{
    prepare_each(regions.as_mut_slice(), quota)
}

/// One turn of a region, between the gate's calls.
fn turn_of<G: Gate>(
    gate: &G,
    plan: &Plan,
    cut: &Cut,
    quota: u32,
    until: u64,
    round: u64,
    region: &mut Region,
)
    requires at_least { 1 ≤ quota }
    requires at_most { quota ≤ 65536 }
    requires may { MayTurn plan.now cut.now until quota region.old }
    ensures { HasTurned plan.now cut.now until quota region.old region.new }
{
    let id = region.id();
    gate.enter(id, round);
    region.turn(plan, cut, quota, until);
    gate.leave(id, round);
}

/// Lends each region to a worker for one turn.
fn turn_each<R: Threads + Sync, G: Gate>(
    rt: &R,
    gate: &G,
    plan: &Plan,
    cut: &Cut,
    quota: u32,
    until: u64,
    round: u64,
    regions: &mut [Region],
)
    requires at_least { 1 ≤ quota }
    requires at_most { quota ≤ 65536 }
    requires may { All (MayTurn plan.now cut.now until quota) regions.old }
    ensures { (i : ℕ) (d : TheRegion) → i < length regions.old → HasTurned plan.now cut.now until quota (slice_index_or regions.old i d) (slice_index_or regions.new i d) }
{
    let workers = regions.len().max(1);
    thread::for_each_mut(
        rt,
        regions,
        workers,
        &|_i: usize, region: &mut Region|
            requires { (1 ≤ quota) × (quota ≤ 65536) × MayTurn plan.now cut.now until quota region.old }
            ensures { HasTurned plan.entry.now cut.entry.now until quota region.old region.new }
        { turn_of(gate, plan, cut, quota, until, round, region) },
    );
}

/// Looks at the rings between two of the regions.
fn look_in(regions: &mut [Region], j: usize, i: usize)
    requires before { j < i }
    requires inside { i < length regions.old }
    requires may { (d : TheRegion) → MayLook (slice_index_or regions.old j d) (slice_index_or regions.old i d) }
    ensures others { (k : ℕ) (d : TheRegion) → k ≢ j → k ≢ i → slice_index_or regions.new k d ≡ slice_index_or regions.old k d }
    ensures they { (d : TheRegion) → LooksAt (slice_index_or regions.old j d) (slice_index_or regions.old i d) (slice_index_or regions.new j d) (slice_index_or regions.new i d) }
{
    let (low, high) = regions.split_at_mut(i);
    look(&mut low[j], &mut high[0]);
}

/// Looks at the rings between a region and those before it.
fn look_before(regions: &mut [Region], i: usize)
    requires inside { i < length regions.old }
    requires until_here { AreLookedAt i 0 regions.old }
    ensures looked { AreLookedAt i i regions.new }
    ensures each { ChangesEach IsSeen regions.old regions.new }
{
    for j in 0..i {
        look_in(regions, j, i);
    }
}

/// Looks at the rings between all regions: then it is known what waits in them.
fn look_at_each(regions: &mut [Region])
    requires { AreLookedAt 0 0 regions.old }
    ensures looked { AreLookedAt (length regions.old) 0 regions.new }
    ensures each { ChangesEach IsSeen regions.old regions.new }
{
    for i in 0..regions.len() {
        look_before(regions, i);
    }
}

/// Lends each region to a worker for one turn.
pub(crate) fn turn_all<R: Threads + Sync, G: Gate>(
    rt: &R,
    gate: &G,
    plan: &Plan,
    cut: &Cut,
    quota: u32,
    until: u64,
    round: u64,
    regions: &mut Vec<Region>,
)
    requires at_least { 1 ≤ quota }
    requires at_most { quota ≤ 65536 }
    requires may { All (MayTurn plan.now cut.now until quota) regions.old.items }
    ensures { ChangesEach (HasTurned plan.now cut.now until quota) regions.old.items regions.new.items }
{
    turn_each(
        rt,
        gate,
        plan,
        cut,
        quota,
        until,
        round,
        regions.as_mut_slice(),
    );
}

/// Looks at the rings between all regions.
pub(crate) fn look_at_all(regions: &mut Vec<Region>)
    requires { AreLookedAt 0 0 regions.old.items }
    ensures looked { AreLookedAt (length regions.old.items) 0 regions.new.items }
    ensures each { ChangesEach IsSeen regions.old.items regions.new.items }
{
    look_at_each(regions.as_mut_slice());
}
