//! Crews beside an engine, on generated surfaces.

ghost use Rattle.std.specs.Prelude.{◌≡◌, ◌<◌, ◌≤◌, ◌*◌, ◌^◌, All, IfOk, length};
ghost use Rattle.plan.specs.Products.{LeavesWithin};

use super::*;
use lattice::{Kind, Lattice, SizeFault};
use one_engine::Engine;
use plan::Plan;
use regions::Cut;
use std::alloc::Global;
use std::sync::atomic::{AtomicU64, Ordering};
use std::test::Fail;
use std::thread;
use std::thread::Threads;
use surf_kinds::{Event, NoMemory, Rate, Rule, SpeciesId};
use surf_outside::{Gate, OpenGate};
use surface_state::Surface;

const A: SpeciesId = SpeciesId(0);

const O: SpeciesId = SpeciesId(1);

const B: SpeciesId = SpeciesId(2);

const C: SpeciesId = SpeciesId(3);

/// A unit of time in ticks.
const UNIT: u64 = 1_000_000;

/// The manifest of number 0 runs for 20 units, and each turn adds one entry and each ring has one slot.
const SMALLEST: CrewSettings = CrewSettings {
    until: 20 * UNIT,
    quota: 1,
    slots: 1,
};

fn one_over(q: u32) -> Rate
    requires { (1 ≤ q) × (q ≤ 1000) }
{
    Rate { p: 1, q }
}

/// What becomes of C: another rule for every other surface.
fn last_rule(number: u64) -> Rule
    ensures { LeavesWithin 4 result }
{
    if number % 2 == 0 {
        Rule::One {
            rate: one_over(4),
            a: C,
            c: A,
        }
    } else {
        Rule::Two {
            rate: one_over(3),
            a: C,
            b: O,
            c: A,
            d: B,
        }
    }
}

/// A and B walk over empty sites, and two that meet become C.
fn rules_of(number: u64) -> [Rule; 4]
    ensures { All (LeavesWithin 4) result }
{
    [
        Rule::Two {
            rate: one_over(1),
            a: A,
            b: O,
            c: O,
            d: A,
        },
        Rule::Two {
            rate: one_over(1),
            a: B,
            b: O,
            c: O,
            d: B,
        },
        Rule::Two {
            rate: one_over(2),
            a: A,
            b: B,
            c: C,
            d: C,
        },
        last_rule(number),
    ]
}

/// The species in a row and a column.
fn species_in(number: u64, row: u32, col: u32) -> SpeciesId
    ensures { result.0 < 4 }
{
    match (7 * u64::from(row) + 13 * u64::from(col)).wrapping_add(number) % 5 {
        0 => A,
        1 => B,
        2 => C,
        _ => O,
    }
}

/// The species of all sites.
fn cells_on(alloc: Global, lattice: &Lattice, number: u64) -> Result<Vec<SpeciesId>, NoMemory>
    ensures count { IfOk result (λ cells. length cells.items ≡ lattice.now.rows * lattice.now.cols) }
    ensures species { IfOk result (λ cells. All (λ s. s.0 < 4) cells.items) }
{
    let cols = lattice.cols();
    let mut cells = Vec::new(alloc);
    for site in 0..lattice.site_count() {
        cells.push(species_in(number, site / cols, site % cols))?;
    }
    Ok(cells)
}

/// All that the rounds of a crew hand out. The first round that is refused memory is tried again.
fn handed_out<R: Threads + Sync, G: Gate>(
    rt: &R,
    gate: &G,
    alloc: Global,
    crew: &mut Crew,
) -> Result<Vec<Event>, NoMemory> {
    let mut all = Vec::new(alloc);
    let mut refused = false;
    for _ in 0..100_000u32 {
        if crew.finished() {
            return Ok(all);
        }
        match crew.round(rt, gate) {
            Ok(events) => all.extend_from_slice(&events)?,
            Err(_) if !refused => refused = true,
            Err(_) => return Err(NoMemory),
        }
    }
    Err(NoMemory)
}

/// Whether an engine fires these events up to a tick, and no more.
fn are_fired(engine: &mut Engine, until: u64, events: &[Event]) -> bool
    requires { until ≤ 10 ^ 15 }
{
    for event in events {
        if engine.fire(until) != Some(*event) {
            return false;
        }
    }
    engine.fire(until).is_none()
}

/// Whether a crew hands out what an engine fires, and counts it, on the surface of this number.
fn is_like_one<R: Threads + Sync, G: Gate>(
    rt: &R,
    gate: &G,
    alloc: Global,
    number: u64,
    lattice: Lattice,
    workers: u32,
    settings: CrewSettings,
) -> Result<bool, NoMemory>
    requires workers { (1 ≤ workers) × (workers ≤ 64) }
    requires until { settings.until ≤ 10 ^ 15 }
    requires quota { (1 ≤ settings.quota) × (settings.quota ≤ 65536) }
    requires slots { (1 ≤ settings.slots) × (settings.slots ≤ 65536) }
{
    let rules = rules_of(number);
    let cells = cells_on(alloc, &lattice, number)?;
    let start = Surface::new(alloc, lattice, &cells, 4)?;
    let plan = Plan::new(alloc, &rules, lattice, number)?;
    let cut = Cut::bands(&lattice, workers);
    let mut crew = Crew::new(alloc, plan, &start, cut, settings)?;
    let events = handed_out(rt, gate, alloc, &mut crew)?;
    let report = crew.report();
    let again = Plan::new(alloc, &rules, lattice, number)?;
    let mut engine = Engine::new(alloc, again, start)?;
    Ok(
        events.len() > 20
            && are_fired(&mut engine, settings.until, &events)
            && report.committed == events.len() as u64
            && report.fired == report.committed.saturating_add(report.cancelled),
    )
}

/// The lattice of a number: square or hexagonal, of 64, 144 or 256 sites, with edges or without.
fn lattice_of(number: u64) -> Result<Lattice, SizeFault> {
    let kind = if number % 2 == 0 {
        Kind::Square
    } else {
        Kind::Hex
    };
    match number % 3 {
        0 => Lattice::new(kind, 8, 8, number % 4 < 2),
        1 => Lattice::new(kind, 12, 12, number % 4 < 2),
        _ => Lattice::new(kind, 16, 16, number % 4 < 2),
    }
}

#[test]
fn a_dozen_surfaces_give_the_same_with_1_to_8_regions(rt: HostRuntime) -> Result<(), Fail> {
    for number in 0..12 {
        for workers in 1..9 {
            let lattice = lattice_of(number)?;
            let settings = CrewSettings {
                until: UNIT,
                quota: 4,
                slots: 2,
            };
            assert!(rt;
                is_like_one(
                    &rt,
                    &OpenGate,
                    rt.alloc(),
                    number,
                    lattice,
                    workers,
                    settings
                )?,
                "surface {number}, {workers} regions"
            );
        }
    }
    Ok(())
}

#[test]
fn one_entry_a_turn_and_one_slot_give_the_same(rt: HostRuntime) -> Result<(), Fail> {
    let square = Lattice::new(Kind::Square, 8, 8, true)?;
    assert!(rt; is_like_one(&rt, &OpenGate, rt.alloc(), 0, square, 8, SMALLEST)?);
    let tall = Lattice::new(Kind::Square, 64, 2, true)?;
    assert!(rt; is_like_one(&rt, &OpenGate, rt.alloc(), 0, tall, 64, SMALLEST)?);
    Ok(())
}

/// Lets no turn of region 0 begin before region 1 has entered the round too.
#[derive(Drop)]
struct Meeting {
    entered: AtomicU64,
    given_up: AtomicU64,
}

impl Gate for Meeting {
    fn enter(&self, region: u32, round: u64) {
        if region == 1 {
            self.entered
                .store(round.saturating_add(1), Ordering::SeqCst);
        }
        if region != 0 {
            return;
        }
        for _ in 0..100_000_000u64 {
            if self.entered.load(Ordering::SeqCst) > round {
                return;
            }
            thread::yield_now();
        }
        self.given_up.fetch_add(1, Ordering::SeqCst);
    }

    fn leave(&self, _region: u32, _round: u64) {}
}

#[test]
fn two_turns_overlap(rt: HostRuntime) -> Result<(), Fail> {
    let meeting = Meeting {
        entered: AtomicU64::new(0),
        given_up: AtomicU64::new(0),
    };
    let lattice = Lattice::new(Kind::Square, 8, 8, true)?;
    assert!(rt; is_like_one(&rt, &meeting, rt.alloc(), 0, lattice, 8, SMALLEST)?);
    assert_eq!(rt; meeting.given_up.load(Ordering::SeqCst), 0);
    Ok(())
}

/// Lets the turns of four regions begin in an order, each when the one before it has ended, in the rounds 0 to 4.
#[derive(Drop)]
struct Order {
    /// The place of each region in the order.
    ranks: [u64; 4],
    left: AtomicU64,
}

impl Gate for Order {
    fn enter(&self, region: u32, round: u64) {
        let Some(rank) = self.ranks.get(region as usize) else {
            return;
        };
        if round > 4 {
            return;
        }
        let before = (round * 4).saturating_add(*rank);
        for _ in 0..1_000_000u64 {
            if self.left.load(Ordering::SeqCst) >= before {
                return;
            }
            thread::yield_now();
        }
    }

    fn leave(&self, _region: u32, _round: u64) {
        self.left.fetch_add(1, Ordering::SeqCst);
    }
}

/// Whether the ranks are those of four regions in some order.
fn are_an_order(ranks: [u64; 4]) -> bool {
    let [a, b, c, d] = ranks;
    a != b && a != c && a != d && b != c && b != d && c != d
}

#[test]
fn all_orders_of_four_regions_give_the_same(rt: HostRuntime) -> Result<(), Fail> {
    let lattice = Lattice::new(Kind::Square, 8, 8, true)?;
    for i in 0..256u64 {
        let ranks = [i % 4, i / 4 % 4, i / 16 % 4, i / 64];
        if are_an_order(ranks) {
            let order = Order {
                ranks,
                left: AtomicU64::new(0),
            };
            assert!(rt;
                is_like_one(&rt, &order, rt.alloc(), 0, lattice, 4, SMALLEST)?,
                "order {i}"
            );
        }
    }
    Ok(())
}
