//! A text cut in two at a byte.

ghost use Rattle.std.specs.Prelude.{◌≡◌, ◌+◌, ◌<◌, ◌==◌, take, drop, position, length, IfSome};
ghost use Rattle.std.specs.Option.{option_map};
ghost use Rattle.surf_text.specs.Lines.{is_blank};
ghost use Rattle.surf_text.specs.Cuts.{cut_at, cut_where};

use crate::lines::is_blank;

pub(crate) fn first_place(text: &[u8], byte: u8) -> Option<usize>
    ensures { result ≡ position (λ c. c == byte) text.now }
{
    text.iter().position(|c| *c == byte)
}

/// What stands before a byte, and what stands after it.
pub(crate) fn around(text: &[u8], index: usize) -> (&[u8], &[u8])
    requires { index < length text.now }
    ensures front { result.0.now ≡ take index text.now }
    ensures back { result.1.now ≡ drop (index + 1) text.now }
{
    (&text[..index], &text[index + 1..])
}

/// What stands before the first such byte, and what stands after it; `None` where there is no such byte.
pub fn cut(text: &[u8], byte: u8) -> Option<(&[u8], &[u8])>
    ensures { option_map (λ p. (p.0.now, p.1.now)) result ≡ cut_at byte text.now }
{
    match first_place(text, byte) {
        Some(index) => Some(around(text, index)),
        None => None,
    }
}

pub(crate) fn first_blank(text: &[u8]) -> Option<usize>
    ensures { result ≡ position is_blank text.now }
{
    text.iter().position(|c| is_blank(*c))
}

/// What stands before the first blank, and what stands after it; `None` where there is no blank.
pub(crate) fn cut_blank_bytes(text: &[u8]) -> Option<(&[u8], &[u8])>
    ensures parts { option_map (λ p. (p.0.now, p.1.now)) result ≡ cut_where is_blank text.now }
    ensures shorter { IfSome result (λ p. length p.1.now < length text.now) }
{
    match first_blank(text) {
        Some(index) => Some(around(text, index)),
        None => None,
    }
}
