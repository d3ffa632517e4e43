//! The rules and rows that were read, by the numbers of their names.

ghost use Rattle.std.specs.Prelude.{◌≡◌, ◌++◌, [], map, fold, length, Err, Some, None, true, false, OnOk, IfOk};
ghost use Rattle.std.specs.List.{flat_map};
ghost use Rattle.species.specs.Names.{is_full, with_name, place_of};
ghost use Rattle.species.specs.declared.names.NameError.TheVariants.{TooMany};
ghost use Rattle.manifest_read.specs.declared.fault.ManifestKind.TheVariants.{TooManySpecies};
ghost use Rattle.manifest_read.specs.Manifest.{first_seen, numbered, names_fault};
ghost use Rattle.manifest_read.specs.Rules.{names_of_rule};
ghost use Rattle.manifest_read.specs.Seen.{named_rule_of};
ghost use Rattle.manifest_read.specs.Sound.{IsKnownRule};
ghost use Rattle.manifest_read.specs.CollectedView.{rule_with_names, with_named_rule, with_cell};

use crate::manifest::{CellList, RuleList};
use crate::numbering::number_rule;
use crate::rules::RuleText;
use species::{NameError, Names};
use std::alloc::Global;
use std::marker::Model;
use surf_kinds::{NoMemory, Rule};

/// The rules and the sites so far. Names are numbered in the order of the text.
#[derive(Drop)]
pub(crate) struct Collected {
    names: Names,
    rules: RuleList,
    cells: CellList,
}

impl Model for Collected {
    ghost use Rattle.std.specs.Prelude.{map};
    ghost use Rattle.manifest_read.specs.CollectedView.{CollectedView, rule_with_names, name_at, AreNumbered};

    ghost Value = { CollectedView };

    ghost view = { λ s. record { names = s.names; rules = map (rule_with_names s.names) s.rules; cells = map (name_at s.names) s.cells } };

    ghost invariant = { λ s. AreNumbered s.names s.rules s.cells };
}

impl Collected {
    pub(crate) fn new(alloc: Global) -> Collected
        ensures { result ≡ record { names = []; rules = []; cells = [] } }
    {
        Collected {
            names: Names::new(alloc),
            rules: RuleList::new(alloc),
            cells: CellList::new(alloc),
        }
    }

    pub(crate) fn rule_count(&self) -> usize
        ensures { result ≡ length self.now.rules }
    {
        self.rules.as_slice().len()
    }

    pub(crate) fn cell_count(&self) -> usize
        ensures { result ≡ length self.now.cells }
    {
        self.cells.as_slice().len()
    }

    /// One more rule.
    pub(crate) fn rule(&mut self, text: &RuleText<'_>) -> Result<(), NameError>
        ensures ok { OnOk result (self.new ≡ with_named_rule self.old (named_rule_of text.now)) }
        ensures room { OnOk result (names_fault (names_of_rule (named_rule_of text.now)) self.old.names ≡ None) }
        ensures full { result ≡ Err TooMany → names_fault (names_of_rule (named_rule_of text.now)) self.old.names ≡ Some TooManySpecies }
    {
        let rule = match number_rule(&mut self.names, text) {
            Ok(rule) => rule,
            Err(error) => return Err(error),
        };
        let Ok(()) = self.rules.push(rule) else {
            return Err(NameError::Memory);
        };
        Ok(())
    }

    /// The name of one more site.
    pub(crate) fn cell(&mut self, name: &str) -> Result<(), NameError>
        ensures ok { OnOk result (self.new ≡ with_cell self.old name.now) }
        ensures room { OnOk result (is_full self.old.names name.now ≡ false) }
        ensures full { result ≡ Err TooMany → is_full self.old.names name.now ≡ true }
    {
        let id = match self.names.intern(name) {
            Ok(id) => id,
            Err(error) => return Err(error),
        };
        let Ok(()) = self.cells.push(id) else {
            return Err(NameError::Memory);
        };
        Ok(())
    }
}

/// The numbers in the end: by first appearance in the rules, and then in the rows.
#[derive(Drop)]
pub(crate) struct Numbered {
    pub(crate) names: Names,
    pub(crate) rules: RuleList,
    pub(crate) cells: CellList,
}

impl Collected {
    /// A rule by its names.
    fn named_rule(&self, rule: &Rule) -> RuleText<'_>
        requires { IsKnownRule (length self.now.names) rule.now }
        ensures { named_rule_of result ≡ rule_with_names self.now.names rule.now }
    {
        match *rule {
            Rule::One { rate, a, c } => RuleText::One {
                rate,
                a: self.names.name(a),
                c: self.names.name(c),
            },
            Rule::Two { rate, a, b, c, d } => RuleText::Two {
                rate,
                a: self.names.name(a),
                b: self.names.name(b),
                c: self.names.name(c),
                d: self.names.name(d),
            },
        }
    }

    fn renumber_rules(&self, alloc: Global, names: &mut Names) -> Result<RuleList, NoMemory>
        requires { names.old ≡ [] }
        ensures rules { IfOk result (λ rules. rules ≡ map (numbered names.new) self.now.rules) }
        ensures names { OnOk result (names.new ≡ first_seen (flat_map names_of_rule self.now.rules)) }
    {
        let mut rules = RuleList::new(alloc);
        for old in self.rules.as_slice() {
            let rule = match number_rule(names, &self.named_rule(old)) {
                Ok(rule) => rule,
                Err(NameError::TooMany) => unreachable!(),
                Err(NameError::Memory) => return Err(NoMemory),
            };
            rules.push(rule)?;
        }
        Ok(rules)
    }

    fn renumber_cells(&self, alloc: Global, names: &mut Names) -> Result<CellList, NoMemory>
        requires { names.old ≡ first_seen (flat_map names_of_rule self.now.rules) }
        ensures cells { IfOk result (λ cells. cells ≡ map (place_of names.new) self.now.cells) }
        ensures names { OnOk result (names.new ≡ fold with_name names.old self.now.cells) }
    {
        let mut cells = CellList::new(alloc);
        for old in self.cells.as_slice() {
            let id = match names.intern(self.names.name(*old)) {
                Ok(id) => id,
                Err(NameError::TooMany) => unreachable!(),
                Err(NameError::Memory) => return Err(NoMemory),
            };
            cells.push(id)?;
        }
        Ok(cells)
    }

    /// The rules and the sites by the numbers in the end.
    pub(crate) fn numbered(&self, alloc: Global) -> Result<Numbered, NoMemory>
        ensures names { IfOk result (λ n. n.names ≡ first_seen (flat_map names_of_rule self.now.rules ++ self.now.cells)) }
        ensures rules { IfOk result (λ n. n.rules ≡ map (numbered n.names) self.now.rules) }
        ensures cells { IfOk result (λ n. n.cells ≡ map (place_of n.names) self.now.cells) }
    {
        let mut names = Names::new(alloc);
        let rules = self.renumber_rules(alloc, &mut names)?;
        let cells = self.renumber_cells(alloc, &mut names)?;
        Ok(Numbered {
            names,
            rules,
            cells,
        })
    }
}
