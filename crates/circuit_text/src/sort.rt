//! What a line is, by itself.

ghost use Rattle.std.specs.Prelude.{◌≡◌, not, Some, None, codes, if◌then◌else◌};
ghost use Rattle.std.specs.Str.{bytes_eq};
ghost use Rattle.surf_text.specs.Cuts.{words_of};
ghost use Rattle.circuit_text.specs.Values.{has_two};
ghost use Rattle.circuit_text.specs.Lines.{op_of, one_operand, two_operands, gate_of, plain_of, bare_line, sort_of};
ghost use Rattle.circuit_text.specs.Seen.{seen};
ghost use Rattle.circuit_text.specs.Formed.{IsFormed};

use crate::kinds::GateOp;
use crate::words::{are_names, is_word, name_text};
use surf_text::{Words, cut, trim};

/// What a line is. The names of inputs and outputs are the words of a text.
#[derive(Clone, Copy)]
pub(crate) enum Sort<'a> {
    Blank,
    Inputs(&'a [u8]),
    Outputs(&'a [u8]),
    One {
        name: &'a str,
        op: GateOp,
        a: &'a str,
    },
    Two {
        name: &'a str,
        op: GateOp,
        a: &'a str,
        b: &'a str,
    },
    Formless,
}

fn op_of(word: &[u8]) -> Option<GateOp>
    ensures { result ≡ op_of word.now }
{
    if is_word(word, "AND") {
        Some(GateOp::And)
    } else if is_word(word, "OR") {
        Some(GateOp::Or)
    } else if is_word(word, "XOR") {
        Some(GateOp::Xor)
    } else if is_word(word, "NAND") {
        Some(GateOp::Nand)
    } else if is_word(word, "NOR") {
        Some(GateOp::Nor)
    } else if is_word(word, "XNOR") {
        Some(GateOp::Xnor)
    } else if is_word(word, "NOT") {
        Some(GateOp::Not)
    } else if is_word(word, "BUF") {
        Some(GateOp::Buf)
    } else {
        None
    }
}

fn has_two(op: GateOp) -> bool
    ensures { result ≡ has_two op }
{
    !matches!(op, GateOp::Not | GateOp::Buf)
}

fn one<'a>(name: &'a [u8], op: Option<GateOp>, a: &'a [u8]) -> Sort<'a>
    ensures { seen result ≡ one_operand name.now op a.now }
{
    let Some(op) = op else {
        return Sort::Formless;
    };
    let Some(name) = name_text(name) else {
        return Sort::Formless;
    };
    let Some(a) = name_text(a) else {
        return Sort::Formless;
    };
    if has_two(op) {
        return Sort::Formless;
    }
    Sort::One { name, op, a }
}

fn two<'a>(name: &'a [u8], op: Option<GateOp>, a: &'a [u8], b: &'a [u8]) -> Sort<'a>
    ensures { seen result ≡ two_operands name.now op a.now b.now }
{
    let Some(op) = op else {
        return Sort::Formless;
    };
    let Some(name) = name_text(name) else {
        return Sort::Formless;
    };
    let Some(a) = name_text(a) else {
        return Sort::Formless;
    };
    let Some(b) = name_text(b) else {
        return Sort::Formless;
    };
    if !has_two(op) {
        return Sort::Formless;
    }
    Sort::Two { name, op, a, b }
}

fn gate<'a>(name: &'a [u8], text: &'a [u8]) -> Sort<'a>
    ensures { seen result ≡ gate_of name.now (words_of text.now) }
{
    let mut words = Words::new(text);
    let Some(op) = words.next_word() else {
        return Sort::Formless;
    };
    let Some(a) = words.next_word() else {
        return Sort::Formless;
    };
    let Some(b) = words.next_word() else {
        return one(name, op_of(op), a);
    };
    if words.next_word().is_some() {
        return Sort::Formless;
    }
    two(name, op_of(op), a, b)
}

fn plain(text: &[u8]) -> Sort<'_>
    ensures { seen result ≡ plain_of (words_of text.now) }
{
    let mut words = Words::new(text);
    let Some(word) = words.next_word() else {
        return Sort::Blank;
    };
    let names = words.rest();
    if is_word(word, "input") {
        if are_names(names) {
            Sort::Inputs(names)
        } else {
            Sort::Formless
        }
    } else if is_word(word, "output") {
        if are_names(names) {
            Sort::Outputs(names)
        } else {
            Sort::Formless
        }
    } else {
        Sort::Formless
    }
}

/// A line without its comment and without blanks at the ends.
fn bare_line(line: &[u8]) -> &[u8]
    ensures { result.now ≡ bare_line line.now }
{
    match cut(line, b'#') {
        Some((front, _)) => trim(front),
        None => trim(line),
    }
}

/// What a line is.
#[tactic(auto, using(crate::proofs::FormedLines::line_formed))]
pub(crate) fn sort_line(line: &[u8]) -> Sort<'_>
    ensures sort { seen result ≡ sort_of line.now }
    ensures formed { IsFormed (seen result) }
{
    let text = bare_line(line);
    match cut(text, b'=') {
        Some((name, rest)) => gate(trim(name), rest),
        None => plain(text),
    }
}
