//! The manifest of a number.

ghost use Rattle.std.specs.Prelude.{◌≡◌, ◌≤◌, ◌<◌, ◌^◌, ◌*◌, IfOk};
ghost use Rattle.species.specs.Names.{with_name};
ghost use Rattle.manifest_read.specs.Manifest.{IsValid};
ghost use Rattle.workload.specs.Generated.{A as a, B as b, C as c, O as o, one_over, side_of, species_names, generated_rules, species_in, cells_on, manifest_on, generated_manifest};

use lattice::{Kind, Lattice};
use manifest_read::{CellList, Manifest, RuleList, Settings};
use species::Names;
use std::alloc::Global;
use surf_kinds::{NoMemory, Rate, Rule, SpeciesId};

const A: SpeciesId = SpeciesId(0);

const O: SpeciesId = SpeciesId(1);

const B: SpeciesId = SpeciesId(2);

const C: SpeciesId = SpeciesId(3);

/// 20 units of a million ticks.
const DURATION: u64 = 20_000_000;

/// One more name.
fn add_name(names: &mut Names, name: &str) -> Result<(), NoMemory>
    ensures { IfOk result (λ u. names.new ≡ with_name names.old name.now) }
{
    match names.intern(name) {
        Ok(_) => Ok(()),
        Err(_) => Err(NoMemory),
    }
}

/// The names of the species, by their numbers.
fn species_names(alloc: Global) -> Result<Names, NoMemory>
    ensures { IfOk result (λ names. names ≡ species_names) }
{
    let mut names = Names::new(alloc);
    add_name(&mut names, "A")?;
    add_name(&mut names, "O")?;
    add_name(&mut names, "B")?;
    add_name(&mut names, "C")?;
    Ok(names)
}

/// The rate 1 / q.
#[tactic(auto, using(surf_kinds::proofs::Fractions::one_over_reduced))]
fn one_over(q: u32) -> Rate
    requires at_least { 1 ≤ q }
    requires at_most { q ≤ 1000 }
    ensures { result ≡ one_over q }
{
    Rate { p: 1, q }
}

/// A and B walk over empty sites, two that meet become C, and C decays.
fn rules(alloc: Global) -> Result<RuleList, NoMemory>
    ensures { IfOk result (λ rules. rules ≡ generated_rules) }
{
    let mut rules = RuleList::new(alloc);
    rules.push(Rule::Two {
        rate: one_over(1),
        a: A,
        b: O,
        c: O,
        d: A,
    })?;
    rules.push(Rule::Two {
        rate: one_over(1),
        a: B,
        b: O,
        c: O,
        d: B,
    })?;
    rules.push(Rule::Two {
        rate: one_over(2),
        a: A,
        b: B,
        c: C,
        d: C,
    })?;
    rules.push(Rule::One {
        rate: one_over(4),
        a: C,
        c: A,
    })?;
    Ok(rules)
}

/// The species in a row and a column.
fn species_in(number: u64, row: u32, col: u32) -> SpeciesId
    requires number { number ≤ 10 ^ 9 }
    requires row { row < 64 }
    requires col { col < 64 }
    ensures { result ≡ species_in number row col }
{
    match (7 * u64::from(row) + 13 * u64::from(col) + number) % 5 {
        0 => A,
        1 => B,
        2 => C,
        _ => O,
    }
}

/// The species of all sites.
fn cells_on(alloc: Global, number: u64, side: u32) -> Result<Vec<SpeciesId>, NoMemory>
    requires number { number ≤ 10 ^ 9 }
    requires at_least { 1 ≤ side }
    requires at_most { side ≤ 64 }
    ensures { IfOk result (λ cells. cells.items ≡ cells_on number side) }
{
    let mut cells = Vec::new(alloc);
    for site in 0..side * side {
        cells.push(species_in(number, site / side, site % side))?;
    }
    Ok(cells)
}

/// The lattice without edges.
fn lattice_of(side: u32) -> Lattice
    requires at_least { 1 ≤ side }
    requires at_most { side ≤ 64 }
    ensures { result ≡ (manifest_on 0 side).lattice }
{
    match Lattice::new(Kind::Square, side, side, true) {
        Ok(lattice) => lattice,
        Err(_) => unreachable!(),
    }
}

/// The manifest of a number on so many rows and columns.
fn manifest_on(alloc: Global, number: u64, side: u32) -> Result<Manifest, NoMemory>
    requires number { number ≤ 10 ^ 9 }
    requires at_least { 1 ≤ side }
    requires at_most { side ≤ 64 }
    ensures { IfOk result (λ m. m ≡ manifest_on number side) }
{
    let names = species_names(alloc)?;
    let rules = rules(alloc)?;
    let cells = cells_on(alloc, number, side)?;
    Ok(Manifest {
        seed: number,
        until: DURATION,
        lattice: lattice_of(side),
        others: Settings::new(alloc),
        names,
        rules,
        cells: CellList::of(cells),
        colours: None,
    })
}

/// The manifest of a number. The only error is want of memory.
pub fn make(alloc: Global, number: u64) -> Result<Manifest, NoMemory>
    requires number { number ≤ 10 ^ 9 }
    ensures exact { IfOk result (λ m. m ≡ generated_manifest number) }
    ensures valid { IfOk result (λ m. IsValid m) }
{
    manifest_on(alloc, number, 8 + 8 * (number % 8) as u32)
}
