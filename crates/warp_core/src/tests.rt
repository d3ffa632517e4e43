ghost use Rattle.std.specs.Prelude.{◌≡◌, ◌<◌, ◌≤◌, ◌*◌, length, All, IsTrue};
ghost use Rattle.lattice.specs.Places.{IsPlace};
ghost use Rattle.lattice.specs.Surface.{IsChannelOf};
ghost use Rattle.plan.specs.Bounds.{IsWithinBounds};
ghost use Rattle.plan.specs.Products.{LeavesWithin};
ghost use Rattle.warp_core.specs.Configs.{NamesRegions};

use super::*;
use border::Op;
use lattice::{Kind, Lattice};
use plan::{Plan, rescan};
use regions::Cut;
use std::alloc::Global;
use std::marker::Model;
use std::process::Abort;
use std::test::Fail;
use surf_kinds::{Event, Key, NoMemory, Place, Rate, Rule, SiteState, SpeciesId, rule_of_channel};
use surface_state::Surface;

const A: SpeciesId = SpeciesId(0);

const B: SpeciesId = SpeciesId(1);

const C: SpeciesId = SpeciesId(2);

const D: SpeciesId = SpeciesId(3);

const E: SpeciesId = SpeciesId(4);

// The rate at which every wait is one tick.
#[tactic(auto, using(surf_kinds::proofs::Fractions::whole_reduced))]
fn instant() -> Rate {
    Rate {
        p: 1_000_000_000,
        q: 1,
    }
}

#[tactic(auto, using(surf_kinds::proofs::Fractions::whole_reduced))]
fn slow() -> Rate {
    Rate {
        p: 200_000_000,
        q: 1,
    }
}

fn key(time: u64, place: u64) -> Key {
    Key {
        time,
        place: Place(place),
    }
}

fn event(time: u64, place: u64, channel: u16) -> Event {
    Event {
        time,
        place: Place(place),
        channel,
    }
}

/// Whether the step names regions of so many.
fn has_regions(count: u32, step: Step) -> bool
    ensures { IsTrue result → NamesRegions count step }
{
    match step {
        Step::Fire { region } => region < count,
        Step::Pass { region } => region < count,
        Step::Take { from, to } => from < count && to < count && from != to,
        Step::Commit { key } => true,
    }
}

/// A configuration with the plan that it was made for.
#[derive(Drop)]
struct Walk {
    plan: Plan,
    config: Config,
    count: u32,
}

impl Model for Walk {
    ghost use Rattle.std.specs.Prelude.{◌≡◌};
    ghost use Rattle.warp_core.specs.Simulation.{Setting};
    ghost use Rattle.warp_core.specs.Configs.{region_count, IsConfigOf};
    ghost use Rattle.warp_core.specs.declared.config.Config.{Config as TheConfig};

    ghost Value = { TheConfig };

    ghost view = { λ w. w.config };

    ghost invariant = { λ w. ((s : Setting) × IsConfigOf w.plan s w.config) × (region_count w.config ≡ w.count) };
}

impl Walk {
    ghost use Rattle.std.specs.Prelude.{◌≡◌, ◌<◌, ◌≤◌, ◌^◌, ◌*◌, length, All};
    ghost use Rattle.plan.specs.Products.{LeavesWithin};

    /// The first configuration on a surface of these cells.
    fn new(
        alloc: Global,
        lattice: Lattice,
        rules: &[Rule],
        cells: &[SpeciesId],
        workers: u32,
        until: u64,
    ) -> Result<Walk, NoMemory>
        requires rules { length rules.now ≤ 4096 }
        requires cells { length cells.now ≡ lattice.rows * lattice.cols }
        requires below { All (λ s. s.0 < 5) cells.now }
        requires species { All (LeavesWithin 5) rules.now }
        requires at_least { 1 ≤ workers }
        requires at_most { workers ≤ 64 }
        requires until { until ≤ 10 ^ 15 }
    {
        let plan = Plan::new(alloc, rules, lattice, 0)?;
        let surface = Surface::new(alloc, lattice, cells, 5)?;
        let cut = Cut::bands(&lattice, workers);
        let config = Config::new(alloc, &plan, &surface, cut, until)?;
        Ok(Walk {
            plan,
            config,
            count: cut.count(),
        })
    }

    /// Whether the step names regions, and was made.
    fn makes(&mut self, step: Step) -> Result<bool, NoMemory> {
        if !has_regions(self.count, step) {
            return Ok(false);
        }
        let did = self.config.step(&self.plan, step)?;
        Ok(did == Did::Done)
    }

    /// The clock of a region, where there is such a region.
    fn clock(&self, region: u32) -> Option<Key> {
        if region < self.count {
            Some(self.config.clock(region))
        } else {
            None
        }
    }

    /// How many messages wait from one region to another.
    fn waiting(&self, from: u32, to: u32) -> usize {
        if from < self.count && to < self.count {
            self.config.channel(from, to).len()
        } else {
            0
        }
    }

    /// The message that waits last from one region to another.
    fn last_sent(&self, from: u32, to: u32) -> Option<Op> {
        if from < self.count && to < self.count {
            self.config.channel(from, to).last().copied()
        } else {
            None
        }
    }
}

/// Numbers that look random.
#[derive(Drop)]
struct Dice {
    seed: u64,
}

impl Dice {
    ghost use Rattle.std.specs.Prelude.{◌<◌, ◌≤◌};

    /// A number below n.
    fn below(&mut self, n: u32) -> u32
        requires { 1 ≤ n }
        ensures { result < n }
    {
        self.seed = self.seed % 2_147_483_648 * 1_103_515_245 + 12_345;
        (self.seed / 65_536 % u64::from(n)) as u32
    }
}

/// Whether the states are ones that events can reach.
fn are_within(sites: &[SiteState]) -> bool
    ensures { IsTrue result → All IsWithinBounds sites.now }
{
    sites.iter().all(|s| s.version < 9_007_199_254_740_992 && s.last <= 1_000_000_000_000_000)
}

/// Rewrites the sites of an event on a surface within bounds.
fn fire_within(plan: &Plan, sites: &mut [SiteState], event: Event)
    requires place { IsPlace plan.now.lattice event.place.0 }
    requires channel { IsChannelOf plan.now.rules event.channel }
    requires surface { length sites.old ≡ plan.now.lattice.rows * plan.now.lattice.cols }
    requires within { All IsWithinBounds sites.old }
{
    rescan::fire(plan, sites, event);
}

/// The events of a surface up to a tick, each found by rescanning the surface. None where they are more than 4,096.
fn rescanned(
    alloc: Global,
    lattice: Lattice,
    rules: &[Rule],
    cells: &[SpeciesId],
    until: u64,
) -> Result<Option<Vec<Event>>, NoMemory>
    requires { length rules.now ≤ 4096 }
{
    let plan = Plan::new(alloc, rules, lattice, 0)?;
    let mut sites = Vec::new(alloc);
    for species in cells {
        sites.push(SiteState {
            species: *species,
            version: 0,
            last: 0,
        })?;
    }
    let mut events = Vec::new(alloc);
    for _ in 0..4096 {
        if !are_within(sites.as_slice()) || sites.len() != lattice.site_count() as usize {
            return Ok(None);
        }
        let Some(event) = rescan::due(&plan, until, sites.as_slice()) else {
            return Ok(Some(events));
        };
        if lattice.sites_of(event.place).is_none()
            || usize::from(rule_of_channel(event.channel)) >= rules.len()
        {
            return Ok(None);
        }
        fire_within(&plan, &mut sites, event);
        events.push(event)?;
    }
    Ok(None)
}

/// Whether these are the events of a history below a key.
fn are_below(history: &[Event], key: Key, events: &[Event]) -> bool {
    let mut i = 0;
    for event in history {
        if event.key().is_before(key) {
            if i >= events.len() || events[i] != *event {
                return false;
            }
            i += 1;
        }
    }
    i == events.len()
}

/// Cells of five species.
fn drawn(alloc: Global, count: u32, dice: &mut Dice) -> Result<Vec<SpeciesId>, NoMemory> {
    let mut cells = Vec::new(alloc);
    for _ in 0..count {
        cells.push(SpeciesId(dice.below(5) as u16))?;
    }
    Ok(cells)
}

/// Whether these are as many cells as the lattice has sites, of five species.
fn are_cells(lattice: &Lattice, cells: &[SpeciesId]) -> bool
    ensures count { IsTrue result → length cells.now ≡ lattice.now.rows * lattice.now.cols }
    ensures below { IsTrue result → All (λ s. s.0 < 5) cells.now }
{
    cells.len() == lattice.site_count() as usize && cells.iter().all(|s| s.0 < 5)
}

/// Makes random steps, and answers how many of them undid events of which the sender had been told. None where the
/// committed events were at some time other than the rescanned ones below the horizon.
fn wander(
    alloc: Global,
    lattice: Lattice,
    rules: &[Rule],
    workers: u32,
    dice: &mut Dice,
) -> Result<Option<u64>, NoMemory>
    requires rules { length rules.now ≤ 4096 }
    requires species { All (LeavesWithin 5) rules.now }
    requires at_least { 1 ≤ workers }
    requires at_most { workers ≤ 64 }
{
    let cells = drawn(alloc, lattice.site_count(), dice)?;
    if !are_cells(&lattice, cells.as_slice()) {
        return Ok(None);
    }
    let mut walk = Walk::new(alloc, lattice, rules, cells.as_slice(), workers, 20)?;
    let Some(history) = rescanned(alloc, lattice, rules, cells.as_slice(), 20)? else {
        return Ok(None);
    };
    let mut undone: u64 = 0;
    for _ in 0..400 {
        let (from, to) = (dice.below(workers), dice.below(workers));
        let step = match dice.below(4) {
            0 => Step::Fire { region: from },
            1 => Step::Pass { region: from },
            2 => Step::Take { from, to },
            _ => Step::Commit {
                key: walk.clock(from).unwrap_or(key(0, 0)),
            },
        };
        let waiting = walk.waiting(to, from);
        walk.makes(step)?;
        if matches!(step, Step::Take { .. }) && waiting < walk.waiting(to, from) {
            undone = undone.saturating_add(1);
        }
        if !are_below(
            history.as_slice(),
            walk.config.horizon(),
            walk.config.committed(),
        ) {
            return Ok(None);
        }
    }
    Ok(Some(undone))
}

/// Region 1 applies an event, and then region 0 an earlier one on the same site. Each sends the other a message.
fn both_fire<R: Abort>(rt: &R, walk: &mut Walk) -> Result<(), Fail> {
    assert!(rt; walk.makes(Step::Fire { region: 1 })?);
    assert_eq!(rt; walk.last_sent(1, 0), Some(Op::Put(event(1, 8, 2))));
    assert!(rt; walk.makes(Step::Fire { region: 0 })?);
    assert_eq!(rt; walk.last_sent(0, 1), Some(Op::Put(event(1, 2, 0))));
    Ok(())
}

/// Region 1 takes the message, undoes its event, and takes back what it sent.
fn the_later_is_undone<R: Abort>(rt: &R, walk: &mut Walk) -> Result<(), Fail> {
    assert!(rt; walk.makes(Step::Take { from: 0, to: 1 })?);
    assert_eq!(rt; walk.clock(1), Some(key(1, 2)));
    assert_eq!(rt; walk.last_sent(1, 0), Some(Op::Back(key(1, 8))));
    assert_eq!(rt; walk.waiting(1, 0), 2);
    assert_eq!(rt; walk.waiting(0, 1), 0);
    Ok(())
}

/// A commit goes as far as the horizon, and not beyond it.
fn the_earlier_is_committed<R: Abort>(rt: &R, walk: &mut Walk) -> Result<(), Fail> {
    assert!(rt; walk.makes(Step::Commit { key: key(1, 2) })?);
    assert_eq!(rt; walk.config.committed().len(), 0);
    assert!(rt; !walk.makes(Step::Commit { key: key(1, 3) })?);
    assert!(rt; walk.makes(Step::Pass { region: 1 })?);
    assert!(rt; walk.makes(Step::Commit { key: key(1, 3) })?);
    assert_eq!(rt; walk.config.committed(), [event(1, 2, 0)].as_slice());
    Ok(())
}

/// Region 0 takes both messages, and nothing else happens up to the end.
fn all_comes_to_its_end<R: Abort>(rt: &R, walk: &mut Walk) -> Result<(), Fail> {
    assert!(rt; walk.makes(Step::Take { from: 1, to: 0 })?);
    assert!(rt; walk.makes(Step::Take { from: 1, to: 0 })?);
    assert_eq!(rt; walk.waiting(1, 0), 0);
    assert!(rt; walk.makes(Step::Pass { region: 0 })?);
    assert!(rt; walk.makes(Step::Pass { region: 1 })?);
    assert!(rt; walk.makes(Step::Commit { key: key(6, 0) })?);
    assert_eq!(rt; walk.config.committed(), [event(1, 2, 0)].as_slice());
    assert_eq!(rt; walk.config.horizon(), key(6, 0));
    Ok(())
}

/// Two regions of one site, A and B, with A + B -> C + D on a pair and B -> E.
fn two_sites(alloc: Global) -> Result<Walk, Fail> {
    let rules = [
        Rule::Two {
            rate: instant(),
            a: A,
            b: B,
            c: C,
            d: D,
        },
        Rule::One {
            rate: instant(),
            a: B,
            c: E,
        },
    ];
    let lattice = Lattice::new(Kind::Square, 2, 1, false)?;
    Ok(Walk::new(alloc, lattice, &rules, &[A, B], 2, 5)?)
}

#[test]
fn a_guess_is_undone_and_the_rest_committed(rt: HostRuntime) -> Result<(), Fail> {
    let mut walk = two_sites(rt.alloc())?;
    both_fire(&rt, &mut walk)?;
    the_later_is_undone(&rt, &mut walk)?;
    the_earlier_is_committed(&rt, &mut walk)?;
    all_comes_to_its_end(&rt, &mut walk)
}

#[test]
fn random_steps_commit_what_rescanning_finds(rt: HostRuntime) -> Result<(), Fail> {
    let rules = [
        Rule::Two {
            rate: instant(),
            a: A,
            b: B,
            c: C,
            d: D,
        },
        Rule::One {
            rate: instant(),
            a: B,
            c: E,
        },
        Rule::Two {
            rate: slow(),
            a: C,
            b: E,
            c: A,
            d: B,
        },
    ];
    let mut dice = Dice { seed: 7 };
    let mut undone: u64 = 0;
    for i in 0..32 {
        let kind = if i % 2 == 0 { Kind::Square } else { Kind::Hex };
        let lattice = Lattice::new(kind, 8, 4, i / 2 % 2 == 0)?;
        let was = wander(rt.alloc(), lattice, &rules, i / 4 + 1, &mut dice)?;
        assert!(rt; was.is_some());
        undone = undone.saturating_add(was.unwrap_or(0));
    }
    assert!(rt; undone > 0);
    Ok(())
}
