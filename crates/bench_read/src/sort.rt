//! What a line is, by itself.

ghost use Rattle.std.specs.Prelude.{◌≡◌, ◌≤◌, Some, None, length, IfSome};
ghost use Rattle.std.specs.Option.{option_map};
ghost use Rattle.circuit_text.specs.Values.{has_two};
ghost use Rattle.circuit_text.specs.Lines.{bare_line};
ghost use Rattle.bench_read.specs.Lines.{op_of, fits, call_of, closed, declared_as, gate_of, gate_by, operands_of, sort_of};
ghost use Rattle.surf_text.specs.Cuts.{cut_at};
ghost use Rattle.bench_read.specs.Readings.{seen};

use crate::operands::{are_names, operand_count};
use crate::words::{is_name, spells};
use circuit_text::GateOp;
use surf_text::{cut, trim};

/// What a line is. The operands of a gate are what stands between the brackets.
#[derive(Clone, Copy)]
pub(crate) enum Sort<'a> {
    Blank,
    Input(&'a [u8]),
    Output(&'a [u8]),
    Gate {
        name: &'a [u8],
        op: GateOp,
        operands: &'a [u8],
    },
    Flop,
    Formless,
}

fn op_of(word: &[u8]) -> Option<GateOp>
    ensures { result ≡ op_of word.now }
{
    if spells(word, "AND") {
        Some(GateOp::And)
    } else if spells(word, "OR") {
        Some(GateOp::Or)
    } else if spells(word, "XOR") {
        Some(GateOp::Xor)
    } else if spells(word, "NAND") {
        Some(GateOp::Nand)
    } else if spells(word, "NOR") {
        Some(GateOp::Nor)
    } else if spells(word, "XNOR") {
        Some(GateOp::Xnor)
    } else if spells(word, "NOT") {
        Some(GateOp::Not)
    } else if spells(word, "BUF") {
        Some(GateOp::Buf)
    } else if spells(word, "BUFF") {
        Some(GateOp::Buf)
    } else {
        None
    }
}

const MOST_OPERANDS: usize = 64;

/// Whether an operation has so many operands.
fn fits(op: GateOp, count: usize) -> bool
    ensures { result ≡ fits op count }
{
    match op {
        GateOp::Not | GateOp::Buf => count == 1,
        _ => 2 <= count && count <= MOST_OPERANDS,
    }
}

/// What stands before the first closing bracket, where nothing but blanks stands behind it.
fn closed(text: &[u8]) -> Option<&[u8]>
    ensures inside { option_map (λ t. t.now) result ≡ closed (cut_at 41 text.now) }
{
    let Some((inside, behind)) = cut(text, b')') else {
        return None;
    };
    if trim(behind).is_empty() {
        Some(inside)
    } else {
        None
    }
}

/// The word before the brackets, and what stands between them.
fn call_of(text: &[u8]) -> Option<(&[u8], &[u8])>
    ensures parts { option_map (λ p. (p.0.now, p.1.now)) result ≡ call_of text.now }
{
    let Some((word, rest)) = cut(text, b'(') else {
        return None;
    };
    let Some(inside) = closed(rest) else {
        return None;
    };
    Some((trim(word), inside))
}

/// A line without a `=`.
fn declared(text: &[u8]) -> Sort<'_>
    ensures { seen result ≡ declared_as (call_of text.now) }
{
    let Some((word, inside)) = call_of(text) else {
        return Sort::Formless;
    };
    let name = trim(inside);
    if !is_name(name) {
        Sort::Formless
    } else if spells(word, "INPUT") {
        Sort::Input(name)
    } else if spells(word, "OUTPUT") {
        Sort::Output(name)
    } else {
        Sort::Formless
    }
}

/// The gate of a name, an operation and the text of its operands.
fn gate_by<'a>(name: &'a [u8], op: Option<GateOp>, operands: &'a [u8]) -> Sort<'a>
    ensures { seen result ≡ gate_by name.now op (operands_of operands.now) }
{
    let Some(op) = op else {
        return Sort::Formless;
    };
    if are_names(operands) && fits(op, operand_count(operands)) {
        Sort::Gate { name, op, operands }
    } else {
        Sort::Formless
    }
}

/// A line by the name before its first `=` and the text behind it.
fn gate<'a>(name: &'a [u8], text: &'a [u8]) -> Sort<'a>
    ensures { seen result ≡ gate_of name.now (call_of text.now) }
{
    let Some((word, inside)) = call_of(text) else {
        return Sort::Formless;
    };
    if !is_name(name) {
        Sort::Formless
    } else if spells(word, "DFF") {
        Sort::Flop
    } else {
        gate_by(name, op_of(word), inside)
    }
}

/// A line without its comment and without blanks at the ends.
fn bare_line(line: &[u8]) -> &[u8]
    ensures { result.now ≡ bare_line line.now }
{
    match cut(line, b'#') {
        Some((front, _)) => trim(front),
        None => trim(line),
    }
}

/// What a line is.
pub(crate) fn sort_line(line: &[u8]) -> Sort<'_>
    ensures { seen result ≡ sort_of line.now }
{
    let text = bare_line(line);
    if text.is_empty() {
        return Sort::Blank;
    }
    match cut(text, b'=') {
        Some((name, rest)) => gate(trim(name), rest),
        None => declared(text),
    }
}
