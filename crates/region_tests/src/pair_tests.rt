//! Two regions with rings between them.

ghost use Rattle.std.specs.Prelude.{◌≡◌, ◌<◌, ◌≤◌, ◌*◌, length, All};
ghost use Rattle.plan.specs.Products.{LeavesWithin};

use crate::walk::{A, B, UNTIL, pair_rules};
use border::ring;
use lattice::{Kind, Lattice};
use plan::Plan;
use region_run::{Region, Turn, deliver, look};
use regions::Cut;
use std::alloc::Global;
use std::marker::Model;
use std::test::Fail;
use surf_kinds::{NoMemory, Rule, SpeciesId};
use surface_state::Surface;

/// The two regions of a cut, with the plan that they were made for.
#[derive(Drop)]
struct Pair {
    plan: Plan,
    cut: Cut,
    upper: Region,
    lower: Region,
}

impl Model for Pair {
    ghost use Rattle.region_run.specs.declared.region.Region.{Region as TheRegion};
    ghost use Rattle.region_tests.specs.Pairs.{IsPair};

    ghost Value = { TheRegion × TheRegion };

    ghost view = { λ p. (p.upper, p.lower) };

    ghost invariant = { λ p. IsPair p.plan p.cut p.upper p.lower };
}

impl Pair {
    /// The two regions of a surface of these cells; or none where there is only one.
    fn new(
        alloc: Global,
        rules: &[Rule],
        lattice: Lattice,
        cells: &[SpeciesId],
    ) -> Result<Option<Pair>, NoMemory>
        requires rules { length rules.now ≤ 4096 }
        requires cells { length cells.now ≡ lattice.rows * lattice.cols }
        requires below { All (λ s. s.0 < 5) cells.now }
        requires species { All (LeavesWithin 5) rules.now }
    {
        let plan = Plan::new(alloc, rules, lattice, 0)?;
        let surface = Surface::new(alloc, lattice, cells, 5)?;
        let cut = Cut::bands(&lattice, 2);
        if cut.count() < 2 {
            return Ok(None);
        }
        let (down, from_upper) = ring(alloc, 2)?;
        let (up, from_lower) = ring(alloc, 2)?;
        let mut upper = Region::new(alloc, 0, &cut, &plan, &surface)?;
        let mut lower = Region::new(alloc, 1, &cut, &plan, &surface)?;
        upper.attach(1, down, from_lower)?;
        lower.attach(0, up, from_upper)?;
        Ok(Some(Pair {
            plan,
            cut,
            upper,
            lower,
        }))
    }

    /// Applies the next entry of the upper region, where there is one.
    fn step_upper(&mut self) -> Result<bool, NoMemory> {
        self.upper.prepare(1)?;
        Ok(self.upper.step_one(&self.plan, &self.cut, UNTIL))
    }

    /// Applies the next entry of the lower region, where there is one.
    fn step_lower(&mut self) -> Result<bool, NoMemory> {
        self.lower.prepare(1)?;
        Ok(self.lower.step_one(&self.plan, &self.cut, UNTIL))
    }

    /// Hands the first message of the upper region to the lower one, and answers whether there was one.
    fn hand_down(&mut self) -> Result<bool, NoMemory> {
        self.lower.prepare(1)?;
        look(&mut self.upper, &mut self.lower);
        Ok(deliver(&self.plan, &self.cut, &mut self.upper, &mut self.lower))
    }

    /// Applies the first entries of both regions, the lower one's first, and hands the upper one's message down. Answers
    /// whether there was all that.
    fn meet(&mut self) -> Result<bool, NoMemory> {
        Ok(self.step_lower()? && self.step_upper()? && self.hand_down()?)
    }

    /// Makes a turn of two entries of each region, the lower one first.
    fn turn_each(self) -> Result<(Turn, Turn), NoMemory> {
        let Pair {
            plan,
            cut,
            mut upper,
            mut lower,
        } = self;
        lower.prepare(2)?;
        upper.prepare(2)?;
        let below = lower.turn(&plan, &cut, 2, UNTIL);
        let above = upper.turn(&plan, &cut, 2, UNTIL);
        Ok((below, above))
    }
}

/// The two regions of two rows of one site, A and B, with A + B -> C + D on a pair and B -> E.
fn both_of_two(alloc: Global) -> Result<Pair, Fail> {
    let lattice = Lattice::new(Kind::Square, 2, 1, false)?;
    let pair = Pair::new(alloc, &pair_rules(), lattice, &[A, B])?;
    Ok(pair.ok_or("one region only")?)
}

/// Whether the lower region's turn applied what it had received, and the upper one's took a Put and a Back.
fn went_both_ways(turns: (Turn, Turn)) -> bool {
    let (lower, upper) = turns;
    let applied = Turn {
        added: 1,
        taken: 0,
        cut: 0,
        empty: true,
    };
    let took = Turn {
        added: 0,
        taken: 2,
        cut: 0,
        empty: true,
    };
    lower == applied && upper == took
}

#[test]
fn messages_go_between_two_regions(rt: HostRuntime) -> Result<(), Fail> {
    let mut pair = both_of_two(rt.alloc())?;
    assert!(rt; pair.meet()?);
    assert!(rt; went_both_ways(pair.turn_each()?));
    Ok(())
}
