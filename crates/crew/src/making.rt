//! The regions of a crew at its start, and the rings between them.

ghost use Rattle.std.specs.Prelude.{◌≡◌, ℕ, ◌+◌, ◌<◌, ◌≤◌, ◌≢◌, length, All, IfOk, OnOk, slice_index_or};
ghost use Rattle.plan.specs.Products.{LeavesWithin};
ghost use Rattle.warp_core.specs.Configs.{IsFresh};
ghost use Rattle.region_run.specs.declared.region.Region.{Region as OneRegion};
ghost use Rattle.crew.specs.Rounds.{AreFirstRegions};
ghost use Rattle.crew.specs.Rings.{AreUnjoined, AreJoined, MayJoin, IsJoinedAbove, AreJoinedBelow, StayFirst, AreRinged, AreMade};

use border::ring;
use plan::Plan;
use region_run::Region;
use regions::Cut;
use regions::laws::neighbours_are_told;
use std::alloc::Global;
use surf_kinds::NoMemory;
use surface_state::Surface;

/// Makes two rings between two regions, one each way.
fn join(alloc: Global, first: &mut Region, second: &mut Region, slots: u32) -> Result<(), NoMemory>
    requires slots { (1 ≤ slots) × (slots ≤ 65536) }
    requires unjoined { AreUnjoined first.old second.old }
    ensures { OnOk result (AreJoined slots first.old second.old first.new second.new) }
{
    let (there, home) = ring(alloc, slots)?;
    let (back, here) = ring(alloc, slots)?;
    first.attach(second.id(), there, here)?;
    second.attach(first.id(), back, home)?;
    Ok(())
}

/// Makes the rings between region i and region j.
fn join_pair(
    alloc: Global,
    regions: &mut [Region],
    i: u32,
    j: u32,
    slots: u32,
) -> Result<(), NoMemory>
    requires slots { (1 ≤ slots) × (slots ≤ 65536) }
    requires order { (i < j) × (j < length regions.old) }
    requires unjoined { (d : OneRegion) → AreUnjoined (slice_index_or regions.old i d) (slice_index_or regions.old j d) }
    ensures others { (k : ℕ) (d : OneRegion) → k ≢ i → k ≢ j → slice_index_or regions.new k d ≡ slice_index_or regions.old k d }
    ensures joined { (d : OneRegion) → OnOk result (AreJoined slots (slice_index_or regions.old i d) (slice_index_or regions.old j d) (slice_index_or regions.new i d) (slice_index_or regions.new j d)) }
{
    let (low, high) = regions.split_at_mut(j as usize);
    join(alloc, &mut low[i as usize], &mut high[0], slots)
}

/// Makes the rings between region i and another one, if there is one and it has a greater number.
fn join_above(
    alloc: Global,
    regions: &mut [Region],
    i: u32,
    other: Option<u32>,
    slots: u32,
) -> Result<(), NoMemory>
    requires slots { (1 ≤ slots) × (slots ≤ 65536) }
    requires may { MayJoin i other regions.old }
    ensures { OnOk result (IsJoinedAbove slots i other regions.old regions.new) }
{
    if let Some(j) = other {
        if i < j {
            join_pair(alloc, regions, i, j, slots)?;
        }
    }
    Ok(())
}

/// Makes the rings between region i and those of its neighbours that have greater numbers.
fn join_neighbours(
    alloc: Global,
    cut: &Cut,
    regions: &mut [Region],
    i: u32,
    slots: u32,
) -> Result<(), NoMemory>
    requires slots { (1 ≤ slots) × (slots ≤ 65536) }
    requires inside { i < cut.now.count }
    requires joined { AreJoinedBelow cut.now slots i regions.old }
    ensures joined { OnOk result (AreJoinedBelow cut.now slots (i + 1) regions.new) }
    ensures first { OnOk result (StayFirst regions.old regions.new) }
{
    neighbours_are_told();
    prove!(cut.count() >= 1);
    let neighbours = cut.neighbours(i);
    join_above(alloc, regions, i, neighbours.first, slots)?;
    join_above(alloc, regions, i, neighbours.second, slots)?;
    Ok(())
}

/// Makes the rings between all neighbours.
fn join_all(alloc: Global, cut: &Cut, regions: &mut [Region], slots: u32) -> Result<(), NoMemory>
    requires slots { (1 ≤ slots) × (slots ≤ 65536) }
    requires joined { AreJoinedBelow cut.now slots 0 regions.old }
    ensures joined { OnOk result (AreJoinedBelow cut.now slots cut.now.count regions.new) }
    ensures rings { OnOk result (AreRinged cut.now slots regions.new) }
    ensures first { OnOk result (StayFirst regions.old regions.new) }
{
    neighbours_are_told();
    for i in 0..cut.count() {
        join_neighbours(alloc, cut, regions, i, slots)?;
    }
    Ok(())
}

/// A region for each number, without rings.
fn regions_alone(
    alloc: Global,
    plan: &Plan,
    cut: &Cut,
    start: &Surface,
) -> Result<Vec<Region>, NoMemory>
    requires cut { cut.now.lattice ≡ plan.now.lattice }
    requires lattice { start.now.lattice ≡ plan.now.lattice }
    requires species { All (LeavesWithin start.now.species_count) plan.now.rules }
    requires fresh { All IsFresh start.now.sites }
    ensures { IfOk result (λ rs. AreMade plan.now cut.now start.now cut.now.count rs.items) }
{
    let mut regions = Vec::new(alloc);
    for i in 0..cut.count() {
        let region = Region::new(alloc, i, cut, plan, start)?;
        regions.push(region)?;
    }
    Ok(regions)
}

/// The regions of a crew at its start, over a surface that no event changed: with rings of so many slots between
/// neighbours.
pub(crate) fn regions_of(
    alloc: Global,
    plan: &Plan,
    cut: &Cut,
    start: &Surface,
    slots: u32,
) -> Result<Vec<Region>, NoMemory>
    requires cut { cut.now.lattice ≡ plan.now.lattice }
    requires lattice { start.now.lattice ≡ plan.now.lattice }
    requires species { All (LeavesWithin start.now.species_count) plan.now.rules }
    requires fresh { All IsFresh start.now.sites }
    requires slots { (1 ≤ slots) × (slots ≤ 65536) }
    ensures first { IfOk result (λ rs. AreFirstRegions plan.now cut.now start.now rs.items) }
    ensures rings { IfOk result (λ rs. AreRinged cut.now slots rs.items) }
{
    let mut regions = regions_alone(alloc, plan, cut, start)?;
    join_all(alloc, cut, regions.as_mut_slice(), slots)?;
    Ok(regions)
}
