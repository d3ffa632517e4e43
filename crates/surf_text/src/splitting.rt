//! The words of a text, one after the other.

ghost use Rattle.std.specs.Prelude.{◌≡◌, ◌==◌, ◌↔◌, ◌<◌, ◌∷◌, [], length, IsNone, IfSome, MatchOption, map, IfOk};
ghost use Rattle.std.specs.Option.{option_map};
ghost use Rattle.surf_text.specs.Lines.{is_blank};
ghost use Rattle.surf_text.specs.Cuts.{cut_where, words_of};

use crate::cuts::cut_blank_bytes;
use crate::texts::cut_blank;
use std::alloc::{AllocError, Global};
use std::marker::Model;

/// A text whose words can be taken: bytes, or a text in UTF-8, whose words are in UTF-8 too.
pub trait Text: Copy {
    ghost use Rattle.std.specs.Prelude.{ℕ, List};

    ghost bytes: { Self → List ℕ };

    /// The text without any bytes.
    fn empty() -> Self
        ensures { bytes result ≡ [] };

    /// Whether there are no bytes.
    fn is_empty(self) -> bool
        ensures { result ≡ (length (bytes self) == 0) };

    /// What stands before the first blank, and what stands after it; `None` where there is no blank.
    fn cut_blank(self) -> Option<(Self, Self)>
        ensures parts { option_map (λ p. (bytes p.0, bytes p.1)) result ≡ cut_where is_blank (bytes self) }
        ensures shorter { IfSome result (λ p. length (bytes p.1) < length (bytes self)) };
}

impl<'a> Text for &'a [u8] {
    ghost bytes = { λ text. text.now };

    fn empty() -> &'a [u8] {
        &[]
    }

    fn is_empty(self) -> bool {
        self.len() == 0
    }

    fn cut_blank(self) -> Option<(&'a [u8], &'a [u8])> {
        cut_blank_bytes(self)
    }
}

impl<'a> Text for &'a str {
    ghost bytes = { λ text. text.now };

    fn empty() -> &'a str {
        ""
    }

    fn is_empty(self) -> bool {
        self.len() == 0
    }

    fn cut_blank(self) -> Option<(&'a str, &'a str)> {
        cut_blank(self)
    }
}

/// The first word of a text, and what stands after it; `None` exactly where there is no word.
fn first_word<T: Text>(text: T) -> Option<(T, T)>
    ensures { MatchOption result (words_of (T.bytes text) ≡ []) (λ p. words_of (T.bytes text) ≡ T.bytes p.0 ∷ words_of (T.bytes p.1)) }
{
    let mut rest = text;
    while let Some(parts) = rest.cut_blank() {
        if !parts.0.is_empty() {
            return Some(parts);
        }
        rest = parts.1;
    }
    if rest.is_empty() {
        return None;
    }
    Some((rest, T::empty()))
}

/// The words of a text, of which blanks stand between two. Its value is the list of the words that were not taken yet.
#[derive(Drop)]
pub struct Words<T: Text> {
    rest: T,
}

impl<T: Text> Model for Words<T> {
    ghost use Rattle.std.specs.Prelude.{ℕ, List};
    ghost use Rattle.surf_text.specs.Cuts.{words_of};

    ghost Value = { List (List ℕ) };

    ghost view = { λ w. words_of (T.bytes w.rest) };
}

impl<T: Text> Words<T> {
    /// The words of a text.
    pub fn new(text: T) -> Words<T>
        ensures { result ≡ words_of (T.bytes text) }
    {
        Words { rest: text }
    }

    /// What stands after the words that were taken.
    pub fn rest(&self) -> T
        ensures { words_of (T.bytes result) ≡ self.now }
    {
        self.rest
    }

    /// The next word; `None` exactly where every word was taken.
    pub fn next_word(&mut self) -> Option<T>
        ensures none { IsNone result ↔ (self.old ≡ []) }
        ensures unchanged { IsNone result → self.new ≡ self.old }
        ensures word { IfSome result (λ word. self.old ≡ T.bytes word ∷ self.new) }
    {
        let (word, rest) = first_word(self.rest)?;
        self.rest = rest;
        Some(word)
    }
}

/// The words between blanks, in their order. The only error is want of memory.
pub fn word_list(alloc: Global, text: &str) -> Result<Vec<&str>, AllocError>
    ensures { IfOk result (λ found. map (λ w. w.now) found.items ≡ words_of text.now) }
{
    let mut found = Vec::new(alloc);
    let mut rest = Words::new(text);
    while let Some(word) = rest.next_word() {
        found.push(word)?;
    }
    Ok(found)
}
