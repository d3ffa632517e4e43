//! The operands between the brackets of a gate.

ghost use Rattle.std.specs.Prelude.{◌≡◌, ◌≤◌, ◌+◌, ◌↔◌, ◌∷◌, [], length, map, IsNone, IfNone, IfSome, IfOk, true};
ghost use Rattle.std.specs.List.{list_all};
ghost use Rattle.species.specs.Texts.{is_in, index_of};
ghost use Rattle.bench_read.specs.Lines.{is_name, operands_of};

use crate::names::NameTable;
use crate::words::is_name;
use std::alloc::Global;
use std::marker::Model;
use surf_kinds::NoMemory;
use surf_text::{cut, trim};

/// The operands that were not taken yet. Its value is the list of them.
#[derive(Drop)]
pub(crate) struct Operands<'a> {
    rest: Option<&'a [u8]>,
}

impl<'a> Model for Operands<'a> {
    ghost use Rattle.std.specs.Prelude.{ℕ, List};
    ghost use Rattle.std.specs.Option.{option_map};
    ghost use Rattle.bench_read.specs.Readings.{unread_operands};

    ghost Value = { List (List ℕ) };

    ghost view = { λ o. unread_operands (option_map (λ t. t.now) o.rest) };
}

impl<'a> Operands<'a> {
    /// The operands of a text.
    pub(crate) fn new(inside: &'a [u8]) -> Operands<'a>
        ensures { result ≡ operands_of inside.now }
    {
        Operands { rest: Some(inside) }
    }

    /// The next operand; `None` exactly where every one was taken.
    pub(crate) fn next_operand(&mut self) -> Option<&'a [u8]>
        ensures none { IsNone result ↔ (self.old ≡ []) }
        ensures unchanged { IsNone result → self.new ≡ self.old }
        ensures operand { IfSome result (λ operand. self.old ≡ operand.now ∷ self.new) }
    {
        let text = self.rest?;
        match cut(text, b',') {
            Some((first, rest)) => {
                self.rest = Some(rest);
                Some(trim(first))
            }
            None => {
                self.rest = None;
                Some(trim(text))
            }
        }
    }
}

/// Whether each operand is a name.
pub(crate) fn are_names(inside: &[u8]) -> bool
    ensures { result ≡ list_all is_name (operands_of inside.now) }
{
    let mut operands = Operands::new(inside);
    while let Some(operand) = operands.next_operand() {
        if !is_name(operand) {
            return false;
        }
    }
    true
}

/// How many operands there are.
#[tactic(auto, using(crate::proofs::Pieces::operands_few))]
pub(crate) fn operand_count(inside: &[u8]) -> usize
    ensures count { result ≡ length (operands_of inside.now) }
    ensures at_most { result ≤ length inside.now + 1 }
{
    let mut operands = Operands::new(inside);
    let mut count = 0;
    while let Some(_) = operands.next_operand() {
        count += 1;
    }
    count
}

/// Whether each operand is in the list.
pub(crate) fn are_known(names: &NameTable<'_>, inside: &[u8]) -> bool
    ensures { result ≡ list_all (is_in names.now) (operands_of inside.now) }
{
    let mut operands = Operands::new(inside);
    while let Some(operand) = operands.next_operand() {
        if !names.has(operand) {
            return false;
        }
    }
    true
}

/// The numbers of operands that are in the list.
pub(crate) fn operand_numbers(
    alloc: Global,
    names: &NameTable<'_>,
    inside: &[u8],
) -> Result<Vec<u32>, NoMemory>
    requires few { length names.now ≤ 65536 }
    requires known { list_all (is_in names.now) (operands_of inside.now) ≡ true }
    ensures { IfOk result (λ v. v.items ≡ map (index_of names.now) (operands_of inside.now)) }
{
    let mut numbers = Vec::new(alloc);
    let mut operands = Operands::new(inside);
    while let Some(operand) = operands.next_operand() {
        numbers.push(names.number(operand))?;
    }
    Ok(numbers)
}
