//! Cuts, lines, blanks and words of texts in UTF-8, whose parts are such texts again.

ghost use Rattle.std.specs.Prelude.{◌≡◌, ◌<◌, ◌∷◌, ◌+◌, length, take, drop, slice_index, IfSome};
ghost use Rattle.std.specs.Option.{option_map};
ghost use Rattle.surf_text.specs.Lines.{lines_of, is_blank, trimmed};
ghost use Rattle.surf_text.specs.Cuts.{cut_at, cut_where};

use crate::cuts::{first_blank, first_place};
use crate::lines::is_blank;

/// What stands before a byte of ASCII, and what stands after it.
fn around(text: &str, index: usize) -> (&str, &str)
    requires within { index < length text.now }
    requires ascii { slice_index text.now index < 128 }
    ensures front { result.0.now ≡ take index text.now }
    ensures back { result.1.now ≡ drop (index + 1) text.now }
{
    (&text[..index], &text[index + 1..])
}

/// What stands before the first such byte of ASCII, and what stands after it; `None` where there is no such byte.
pub fn cut_text(text: &str, byte: u8) -> Option<(&str, &str)>
    requires { byte < 128 }
    ensures { option_map (λ p. (p.0.now, p.1.now)) result ≡ cut_at byte text.now }
{
    match first_place(text.as_bytes(), byte) {
        Some(index) => Some(around(text, index)),
        None => None,
    }
}

/// What stands before the first blank, and what stands after it; `None` where there is no blank. A blank is a
/// space, a tab or a carriage return.
pub(crate) fn cut_blank(text: &str) -> Option<(&str, &str)>
    ensures parts { option_map (λ p. (p.0.now, p.1.now)) result ≡ cut_where is_blank text.now }
    ensures shorter { IfSome result (λ p. length p.1.now < length text.now) }
{
    match first_blank(text.as_bytes()) {
        Some(index) => Some(around(text, index)),
        None => None,
    }
}

/// The first line of a text that isn't empty, and what stands after it.
pub fn first_text_line(text: &str) -> (&str, &str)
    requires { 0 < length text.now }
    ensures line { lines_of text.now ≡ result.0.now ∷ lines_of result.1.now }
    ensures shorter { length result.1.now < length text.now }
{
    match cut_text(text, b'\n') {
        Some(parts) => parts,
        None => (text, ""),
    }
}

/// The text without the blanks at its ends.
pub fn trim_text(text: &str) -> &str
    ensures { result.now ≡ trimmed text.now }
{
    let mut rest = text;
    while let Some(first) = rest.as_bytes().first()
        && is_blank(*first)
    {
        rest = around(rest, 0).1;
    }
    while let Some((last, _)) = rest.as_bytes().split_last()
        && is_blank(*last)
    {
        rest = around(rest, rest.len() - 1).0;
    }
    rest
}
