//! The decimal text of a number.

ghost use Rattle.std.specs.Prelude.{◌≡◌, decimal};

use itoa::Buffer;
use std::marker::Model;

/// The decimal text of a number, without leading zeros. It stands on the stack.
#[derive(Drop)]
pub struct Digits {
    text: [u8; 20],
    count: usize,
}

impl Model for Digits {
    ghost use Rattle.std.specs.Prelude.{ℕ, List, take, ◌≤◌};

    ghost Value = { List ℕ };

    ghost view = { λ d. take d.count d.text };

    ghost invariant = { λ d. d.count ≤ 20 };
}

impl Digits {
    /// The digits of a number.
    pub fn of(n: u64) -> Digits
        ensures { result ≡ decimal n }
    {
        let mut buffer = Buffer::new();
        let digits = buffer.format(n).as_bytes();
        let count = digits.len();
        let mut text = [0; 20];
        text[..count].copy_from_slice(digits);
        Digits { text, count }
    }

    /// The text.
    pub fn bytes(&self) -> &[u8]
        ensures { result.now ≡ self.now }
    {
        &self.text[..self.count]
    }
}
