//! Rings for a region, and room for its turns.

ghost use Rattle.std.specs.Prelude.{◌≡◌, OnOk};
ghost use Rattle.region_run.specs.Sides.{HasRoom};
ghost use Rattle.region_run.specs.Starts.{SameButRoom};
ghost use Rattle.region_run.specs.Turns.{IsGiven};

use crate::region::{Region, is_neighbour};
use crate::side::Side;
use border::{InEnd, OutEnd};
use surf_kinds::NoMemory;

/// Makes room for so many more messages to a neighbour.
fn reserve_side(side: &mut Option<Side>, more: u32) -> Result<(), NoMemory>
    ensures same { SameButRoom side.old side.new }
    ensures ok { OnOk result (HasRoom more side.new) }
{
    match side {
        Some(side) => side.reserve(more),
        None => Ok(()),
    }
}

/// Gives a neighbour the ends of its rings.
fn give(side: &mut Option<Side>, out: OutEnd, inn: InEnd)
    ensures { IsGiven side.old (record { out = out; inn = inn }) side.new }
{
    if let Some(side) = side {
        side.attach(out, inn);
    }
}

impl Region {
    ghost use Rattle.std.specs.Prelude.{◌≡◌, ◌≢◌, ℕ, ◌*◌, ◌≤◌, None, OnOk, OnErr};
    ghost use Rattle.plan.specs.Network.{Network};
    ghost use Rattle.regions.specs.Bands.{Bands};
    ghost use Rattle.region_run.specs.Regions.{Base, ends_with, IsRegion};
    ghost use Rattle.region_run.specs.Runs.{HasSpare};
    ghost use Rattle.region_run.specs.Starts.{IsRoomier};
    ghost use Rattle.region_run.specs.Turns.{IsAttached};

    /// Takes the ends of the rings to another region and from it. Only neighbours tell one another of events, so there is
    /// room for the rings of neighbours alone: for another region the answer is NoMemory. After an error the ends are
    /// dropped, and the region is as it was.
    pub fn attach(&mut self, other: u32, out: OutEnd, inn: InEnd) -> Result<(), NoMemory>
        requires other { other ≢ self.old.id }
        requires ends { ends_with self.old other ≡ None }
        ensures ok { OnOk result (IsAttached other (record { out = out; inn = inn }) self.old self.new) }
        ensures err { OnErr result (self.new ≡ self.old) }
        ensures region { (n : Network) (b : Bands) (until : ℕ) (x : Base) → IsRegion n b until x self.old → IsRegion n b until x self.new }
    {
        if is_neighbour(&self.first, other) {
            give(&mut self.first, out, inn);
            return Ok(());
        }
        if is_neighbour(&self.second, other) {
            give(&mut self.second, out, inn);
            return Ok(());
        }
        Err(NoMemory)
    }

    /// Makes the spare at least twice the quota: room for a turn. After an error only the room is another.
    pub fn prepare(&mut self, quota: u32) -> Result<(), NoMemory>
        requires { quota ≤ 65536 }
        ensures roomier { IsRoomier self.old self.new }
        ensures ok { OnOk result (HasSpare (2 * quota) self.new) }
        ensures region { (n : Network) (b : Bands) (until : ℕ) (x : Base) → IsRegion n b until x self.old → IsRegion n b until x self.new }
    {
        let more = 2 * quota;
        self.board.reserve(more)?;
        self.stacks.reserve(more)?;
        reserve_side(&mut self.first, more)?;
        reserve_side(&mut self.second, more)
    }
}
