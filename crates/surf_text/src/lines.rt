//! The lines of a text.

ghost use Rattle.std.specs.Prelude.{◌≡◌, ◌+◌, ◌<◌, ◌↔◌, ◌∷◌, [], length, IsNone, IfNone, IfSome, OnSome};
ghost use Rattle.surf_text.specs.Lines.{lines_of, is_blank, trimmed};

use crate::cuts::cut;
use std::marker::Model;

const EMPTY: &[u8] = &[];

/// A line of a text.
#[derive(Clone, Copy, Debug, PartialEq, Eq)]
pub struct Line<'a> {
    /// From 1.
    pub number: u64,
    /// Without the line feed.
    pub bytes: &'a [u8],
}

/// A reader of the lines of a text. Its value is the lines that were not read yet, and the number of the first of
/// them.
#[derive(Drop)]
pub struct Cursor<'a> {
    number: u64,
    rest: &'a [u8],
}

impl<'a> Model for Cursor<'a> {
    ghost use Rattle.std.specs.Prelude.{◌+◌, ◌<◌, ◌^◌, length};
    ghost use Rattle.surf_text.specs.Lines.{RemainingLines, lines_of};

    ghost Value = { RemainingLines };

    ghost view = { λ c. record { number = c.number; lines = lines_of c.rest.now } };

    ghost invariant = { λ c. c.number + length c.rest.now < 2 ^ 64 };
}

/// The first line, and what stands after it.
fn first_line(text: &[u8]) -> (&[u8], &[u8])
    requires { 0 < length text.now }
    ensures line { lines_of text.now ≡ result.0.now ∷ lines_of result.1.now }
    ensures shorter { length result.1.now < length text.now }
{
    match cut(text, b'\n') {
        Some(parts) => parts,
        None => (text, EMPTY),
    }
}

impl<'a> Cursor<'a> {
    /// Before the first line of a text.
    pub fn new(text: &'a [u8]) -> Cursor<'a>
        ensures { result ≡ record { number = 1; lines = lines_of text.now } }
    {
        Cursor {
            number: 1,
            rest: text,
        }
    }

    /// The next line; `None` exactly where every line was read.
    pub fn next_line(&mut self) -> Option<Line<'a>>
        ensures none { IsNone result ↔ (self.old.lines ≡ []) }
        ensures unchanged { IfNone result (self.new ≡ self.old) }
        ensures line { IfSome result (λ line. self.old.lines ≡ line.bytes.now ∷ self.new.lines) }
        ensures number { IfSome result (λ line. line.number ≡ self.old.number) }
        ensures counted { OnSome result (self.new.number ≡ self.old.number + 1) }
    {
        if self.rest.is_empty() {
            return None;
        }
        let (bytes, rest) = first_line(self.rest);
        let number = self.number;
        self.number = number + 1;
        self.rest = rest;
        Some(Line { number, bytes })
    }
}

pub(crate) fn is_blank(c: u8) -> bool
    ensures { result ≡ is_blank c }
{
    c == b' ' || c == b'\t' || c == b'\r'
}

/// The text without the blanks at its ends. A blank is a space, a tab or a carriage return.
pub fn trim(text: &[u8]) -> &[u8]
    ensures { result.now ≡ trimmed text.now }
{
    let mut rest = text;
    while let Some((first, others)) = rest.split_first()
        && is_blank(*first)
    {
        rest = others;
    }
    while let Some((last, others)) = rest.split_last()
        && is_blank(*last)
    {
        rest = others;
    }
    rest
}
