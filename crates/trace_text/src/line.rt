//! A line on the stack.

ghost use Rattle.std.specs.Prelude.{◌≡◌, ◌+◌, ◌≤◌, ◌++◌, ◌∷◌, [], length, decimal, codes};

use itoa::write_digits;
use std::marker::Model;

const ROOM: usize = 128;

/// The bytes of a line, which is made from its end to its start: the digits of a number come out last first, so that
/// they are written where they stay.
#[derive(Drop)]
pub(crate) struct Line {
    bytes: [u8; ROOM],
    start: usize,
}

impl Model for Line {
    ghost use Rattle.std.specs.Prelude.{ℕ, List, drop, ◌≤◌};

    ghost Value = { List ℕ };

    ghost view = { λ l. drop l.start l.bytes };

    ghost invariant = { λ l. l.start ≤ 128 };
}

impl Line {
    #[inline]
    pub fn new() -> Line
        ensures { result ≡ [] }
    {
        Line {
            bytes: [0; ROOM],
            start: ROOM,
        }
    }

    /// A word and two numbers, with a line feed.
    pub fn pair(word: &[u8], first: u64, second: u64) -> Line
        requires { length word.now ≤ 20 }
        ensures { result ≡ word.now ++ decimal first ++ codes " " ++ decimal second ++ 10 ∷ [] }
    {
        let mut line = Line::new();
        line.text(b"\n");
        line.number(second);
        line.text(b" ");
        line.number(first);
        line.text(word);
        line
    }

    /// Puts a text before what stands there.
    #[inline]
    pub fn text(&mut self, text: &[u8])
        requires { length text.now + length self.old ≤ 128 }
        ensures line { self.new ≡ text.now ++ self.old }
        ensures long { length self.new ≡ length text.now + length self.old }
    {
        let end = self.start;
        self.start = end - text.len();
        self.bytes[self.start..end].copy_from_slice(text);
    }

    /// Puts the digits of a number before what stands there.
    #[inline]
    pub fn number(&mut self, number: u64)
        requires { 20 + length self.old ≤ 128 }
        ensures line { self.new ≡ decimal number ++ self.old }
        ensures long { length self.new ≤ 20 + length self.old }
    {
        self.start = write_digits(number, &mut self.bytes, self.start);
    }

    #[inline]
    pub fn bytes(&self) -> &[u8]
        ensures { result.now ≡ self.now }
    {
        &self.bytes[self.start..]
    }
}
