//! The numbers of the names of a rule.

ghost use Rattle.std.specs.Prelude.{◌≡◌, ◌∷◌, [], IfOk, OnOk, Err, Some, None, fold};
ghost use Rattle.species.specs.Names.{with_name, place_of};
ghost use Rattle.species.specs.declared.names.NameError.TheVariants.{TooMany};
ghost use Rattle.manifest_read.specs.declared.fault.ManifestKind.TheVariants.{TooManySpecies};
ghost use Rattle.manifest_read.specs.Manifest.{names_fault, numbered};
ghost use Rattle.manifest_read.specs.Rules.{names_of_rule};
ghost use Rattle.manifest_read.specs.Seen.{named_rule_of};
ghost use Rattle.manifest_read.specs.CollectedView.{Grows};

use crate::rules::RuleText;
use species::{NameError, Names};
use surf_kinds::{Rule, SpeciesId};

/// The number of a name, which goes last if it is new.
fn number(names: &mut Names, name: &str) -> Result<SpeciesId, NameError>
    ensures place { IfOk result (λ id. id ≡ place_of names.new name.now) }
    ensures names { OnOk result (names.new ≡ with_name names.old name.now) }
    ensures room { OnOk result (names_fault (name.now ∷ []) names.old ≡ None) }
    ensures full { result ≡ Err TooMany → names_fault (name.now ∷ []) names.old ≡ Some TooManySpecies }
    ensures grown { Grows names.old names.new }
{
    names.intern(name)
}

/// The numbers of two names; a new one goes last, in their order.
fn both(names: &mut Names, a: &str, b: &str) -> Result<(SpeciesId, SpeciesId), NameError>
    ensures first { IfOk result (λ p. p.0 ≡ place_of names.new a.now) }
    ensures second { IfOk result (λ p. p.1 ≡ place_of names.new b.now) }
    ensures names { OnOk result (names.new ≡ with_name (with_name names.old a.now) b.now) }
    ensures room { OnOk result (names_fault (a.now ∷ b.now ∷ []) names.old ≡ None) }
    ensures full { result ≡ Err TooMany → names_fault (a.now ∷ b.now ∷ []) names.old ≡ Some TooManySpecies }
    ensures grown { Grows names.old names.new }
{
    let first = match number(names, a) {
        Ok(id) => id,
        Err(error) => return Err(error),
    };
    let second = match number(names, b) {
        Ok(id) => id,
        Err(error) => return Err(error),
    };
    Ok((first, second))
}

/// A rule by the numbers of its names; new ones go last, from the left to the right.
pub(crate) fn number_rule(names: &mut Names, rule: &RuleText<'_>) -> Result<Rule, NameError>
    ensures rule { IfOk result (λ r. r ≡ numbered names.new (named_rule_of rule.now)) }
    ensures names { OnOk result (names.new ≡ fold with_name names.old (names_of_rule (named_rule_of rule.now))) }
    ensures room { OnOk result (names_fault (names_of_rule (named_rule_of rule.now)) names.old ≡ None) }
    ensures full { result ≡ Err TooMany → names_fault (names_of_rule (named_rule_of rule.now)) names.old ≡ Some TooManySpecies }
    ensures grown { Grows names.old names.new }
{
    match *rule {
        RuleText::One { rate, a, c } => {
            let (a, c) = match both(names, a, c) {
                Ok(ids) => ids,
                Err(error) => return Err(error),
            };
            Ok(Rule::One { rate, a, c })
        }
        RuleText::Two { rate, a, b, c, d } => {
            let (a, b) = match both(names, a, b) {
                Ok(ids) => ids,
                Err(error) => return Err(error),
            };
            let (c, d) = match both(names, c, d) {
                Ok(ids) => ids,
                Err(error) => return Err(error),
            };
            Ok(Rule::Two { rate, a, b, c, d })
        }
    }
}
