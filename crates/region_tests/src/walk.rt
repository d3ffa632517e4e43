//! A region that a test leads step by step.

ghost use Rattle.std.specs.Prelude.{All};
ghost use Rattle.plan.specs.Products.{LeavesWithin};

use border::Op;
use lattice::Lattice;
use plan::Plan;
use region_run::Region;
use regions::Cut;
use std::alloc::Global;
use std::marker::Model;
use surf_kinds::{Event, Key, NoMemory, Place, Rate, Rule, SpeciesId};
use surface_state::Surface;

pub const A: SpeciesId = SpeciesId(0);

pub const B: SpeciesId = SpeciesId(1);

pub const C: SpeciesId = SpeciesId(2);

pub const D: SpeciesId = SpeciesId(3);

pub const E: SpeciesId = SpeciesId(4);

/// The last tick of the walks.
pub const UNTIL: u64 = 5;

/// The rate at which every wait is one tick.
#[tactic(auto, using(surf_kinds::proofs::Fractions::whole_reduced))]
pub fn instant() -> Rate {
    Rate {
        p: 1_000_000_000,
        q: 1,
    }
}

/// The rules A + B -> C + D on a pair, and B -> E.
pub fn pair_rules() -> [Rule; 2]
    ensures { All (LeavesWithin 5) result }
{
    [
        Rule::Two {
            rate: instant(),
            a: A,
            b: B,
            c: C,
            d: D,
        },
        Rule::One {
            rate: instant(),
            a: B,
            c: E,
        },
    ]
}

pub fn key(time: u64, place: u64) -> Key {
    Key {
        time,
        place: Place(place),
    }
}

pub fn event(time: u64, place: u64, channel: u16) -> Event {
    Event {
        time,
        place: Place(place),
        channel,
    }
}

/// A region with the plan and the cut that it was made for.
#[derive(Drop)]
pub struct Walk {
    plan: Plan,
    cut: Cut,
    region: Region,
}

impl Model for Walk {
    ghost use Rattle.region_run.specs.Regions.{Base, IsRegion};
    ghost use Rattle.region_run.specs.declared.region.Region.{Region as TheRegion};

    ghost Value = { TheRegion };

    ghost view = { λ w. w.region };

    ghost invariant = { λ w. (x : Base) × IsRegion w.plan w.cut 5 x w.region };
}

impl Walk {
    ghost use Rattle.std.specs.Prelude.{◌≡◌, ◌<◌, ◌≤◌, ◌*◌, length, All};
    ghost use Rattle.plan.specs.Products.{LeavesWithin};

    /// Region 1 of the two of a surface of these cells; or none where there is only one region.
    pub fn new(
        alloc: Global,
        rules: &[Rule],
        lattice: Lattice,
        cells: &[SpeciesId],
    ) -> Result<Option<Walk>, NoMemory>
        requires rules { length rules.now ≤ 4096 }
        requires cells { length cells.now ≡ lattice.rows * lattice.cols }
        requires below { All (λ s. s.0 < 5) cells.now }
        requires species { All (LeavesWithin 5) rules.now }
    {
        let plan = Plan::new(alloc, rules, lattice, 0)?;
        let surface = Surface::new(alloc, lattice, cells, 5)?;
        let cut = Cut::bands(&lattice, 2);
        if cut.count() < 2 {
            return Ok(None);
        }
        let region = Region::new(alloc, 1, &cut, &plan, &surface)?;
        Ok(Some(Walk { plan, cut, region }))
    }

    /// Applies the next entry, where there is one.
    pub fn step(&mut self) -> Result<bool, NoMemory> {
        self.region.prepare(1)?;
        Ok(self.region.step_one(&self.plan, &self.cut, UNTIL))
    }

    /// Takes a message of region 0, and answers how many entries it cut.
    pub fn take(&mut self, op: Op) -> Result<Option<u64>, NoMemory> {
        if self.cut.count() == 0 || self.region.id() == 0 {
            return Ok(None);
        }
        self.region.prepare(8)?;
        Ok(Some(self.region.absorb(&self.plan, &self.cut, 0, op)))
    }

    /// Whether a message of region 0 cuts so many entries, and leaves the clock and the next key at these keys.
    pub fn takes(&mut self, op: Op, cut: u64, clock: Key, next: Key) -> Result<bool, NoMemory> {
        Ok(
            self.take(op)? == Some(cut)
                && self.region.clock() == clock
                && self.region.next_key(UNTIL) == next,
        )
    }

    /// The own events below the clock.
    pub fn own(&self, alloc: Global) -> Result<Vec<Event>, NoMemory> {
        let mut own = Vec::new(alloc);
        self.region.own_below(self.region.clock(), &mut own)?;
        Ok(own)
    }

    /// Forgets the entries below the clock, and answers how many of them were received.
    pub fn commit(&mut self) -> u64 {
        self.region.commit_below(self.region.clock())
    }

    /// How many entries messages have cut so far.
    pub fn cut_so_far(&self) -> u64 {
        self.region.totals().cut
    }
}
