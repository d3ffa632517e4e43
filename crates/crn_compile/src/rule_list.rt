//! The rules of a compiled manifest.

ghost use Rattle.std.specs.Prelude.{◌≡◌, map, IfOk};
ghost use Rattle.crn_compile.specs.Species.{unit_rate, circuit_rules, rule_of_row};

use manifest_read::RuleList;
use std::alloc::Global;
use surf_kinds::{NoMemory, Rate, Rule, SpeciesId};

/// The rate of all rules.
#[tactic(auto, using(surf_kinds::proofs::Fractions::whole_reduced))]
fn unit_rate() -> Rate
    ensures { result ≡ unit_rate }
{
    Rate { p: 1, q: 1 }
}

/// The first reactant stays, and the second becomes another.
fn rule(a: u16, b: u16, d: u16) -> Rule
    ensures { result ≡ rule_of_row (a, b, d) }
{
    Rule::Two {
        rate: unit_rate(),
        a: SpeciesId(a),
        b: SpeciesId(b),
        c: SpeciesId(a),
        d: SpeciesId(d),
    }
}

/// Each row as a rule.
fn rules_of(alloc: Global, rows: &[(u16, u16, u16)]) -> Result<RuleList, NoMemory>
    ensures { IfOk result (λ v. v ≡ map rule_of_row rows.now) }
{
    let mut rules = RuleList::new(alloc);
    for &(a, b, d) in rows {
        rules.push(rule(a, b, d))?;
    }
    Ok(rules)
}

/// The 114 rules, in their order: of each, the reactant that stays, the other one, and what this becomes.
#[tactic(auto, unfolding(crate::specs::Species::circuit_rules))]
pub(crate) fn rules(alloc: Global) -> Result<RuleList, NoMemory>
    ensures { IfOk result (λ v. v ≡ circuit_rules) }
{
    let table = [
        // A wire fills a wire and a vertical cell; a vertical cell fills a vertical cell, a wire and the pins.
        (0, 1, 0),
        (2, 1, 2),
        (0, 3, 4),
        (2, 3, 5),
        (4, 3, 4),
        (5, 3, 5),
        (4, 1, 0),
        (5, 1, 2),
        (4, 6, 7),
        (5, 6, 8),
        (4, 9, 10),
        (5, 9, 11),
        // A wire fills the row half of a crossing.
        (0, 12, 13),
        (0, 14, 15),
        (0, 16, 17),
        (2, 12, 18),
        (2, 14, 19),
        (2, 16, 20),
        // A vertical cell fills the column half of a crossing.
        (4, 12, 14),
        (4, 13, 15),
        (4, 18, 19),
        (5, 12, 16),
        (5, 13, 17),
        (5, 18, 20),
        // The row half of a crossing fills a wire.
        (13, 1, 0),
        (15, 1, 0),
        (17, 1, 0),
        (18, 1, 2),
        (19, 1, 2),
        (20, 1, 2),
        // The column half of a crossing fills a vertical cell.
        (14, 3, 4),
        (15, 3, 4),
        (19, 3, 4),
        (16, 3, 5),
        (17, 3, 5),
        (20, 3, 5),
        // The pins fill a gate: AND.
        (7, 21, 22),
        (8, 21, 23),
        (7, 24, 25),
        (7, 26, 25),
        (8, 24, 25),
        (8, 26, 27),
        (10, 21, 24),
        (11, 21, 26),
        (10, 22, 25),
        (10, 23, 25),
        (11, 22, 25),
        (11, 23, 27),
        // OR.
        (7, 28, 29),
        (8, 28, 30),
        (7, 31, 25),
        (7, 32, 27),
        (8, 31, 27),
        (8, 32, 27),
        (10, 28, 31),
        (11, 28, 32),
        (10, 29, 25),
        (10, 30, 27),
        (11, 29, 27),
        (11, 30, 27),
        // XOR.
        (7, 33, 34),
        (8, 33, 35),
        (7, 36, 25),
        (7, 37, 27),
        (8, 36, 27),
        (8, 37, 25),
        (10, 33, 36),
        (11, 33, 37),
        (10, 34, 25),
        (10, 35, 27),
        (11, 34, 27),
        (11, 35, 25),
        // NAND.
        (7, 38, 39),
        (8, 38, 40),
        (7, 41, 27),
        (7, 42, 27),
        (8, 41, 27),
        (8, 42, 25),
        (10, 38, 41),
        (11, 38, 42),
        (10, 39, 27),
        (10, 40, 27),
        (11, 39, 27),
        (11, 40, 25),
        // NOR.
        (7, 43, 44),
        (8, 43, 45),
        (7, 46, 27),
        (7, 47, 25),
        (8, 46, 25),
        (8, 47, 25),
        (10, 43, 46),
        (11, 43, 47),
        (10, 44, 27),
        (10, 45, 25),
        (11, 44, 25),
        (11, 45, 25),
        // XNOR.
        (7, 48, 49),
        (8, 48, 50),
        (7, 51, 27),
        (7, 52, 25),
        (8, 51, 25),
        (8, 52, 27),
        (10, 48, 51),
        (11, 48, 52),
        (10, 49, 27),
        (10, 50, 25),
        (11, 49, 25),
        (11, 50, 27),
        // The first pin fills a gate with one operand: NOT and BUF.
        (7, 53, 27),
        (8, 53, 25),
        (7, 54, 25),
        (8, 54, 27),
        // A gate fills a wire.
        (25, 1, 0),
        (27, 1, 2),
    ];
    rules_of(alloc, &table)
}
