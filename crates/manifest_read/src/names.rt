//! Names, and arrows in a text.

ghost use Rattle.std.specs.Prelude.{◌≡◌, length};
ghost use Rattle.std.specs.List.{list_all};
ghost use Rattle.std.specs.Option.{option_map};
ghost use Rattle.surf_text.specs.Cuts.{words_of};
ghost use Rattle.manifest_read.specs.Names.{cut_arrow, is_name_byte, is_name_front, is_name};

use surf_text::Words;

/// What stands before the first arrow, and what stands after it; `None` where there is no arrow.
pub(crate) fn cut_arrow(text: &str) -> Option<(&str, &str)>
    ensures { option_map (λ p. (p.0.now, p.1.now)) result ≡ cut_arrow text.now }
{
    text.split_once("->")
}

fn is_name_byte(c: u8) -> bool
    ensures { result ≡ is_name_byte c }
{
    !(c == b' ' || c == b'\t' || c == b'\r' || c == b'#' || c == b'+')
}

fn is_name_front(text: &[u8]) -> bool
    ensures { result ≡ is_name_front text.now }
{
    match text.split_first() {
        None => false,
        Some((first, _)) => !(*first == b'!' || *first == b'('),
    }
}

fn has_name_bytes(text: &[u8]) -> bool
    ensures { result ≡ list_all is_name_byte text.now }
{
    text.iter().all(|c| is_name_byte(*c))
}

/// Whether a text is a name of a species.
pub(crate) fn is_name(text: &str) -> bool
    ensures { result ≡ is_name text.now }
{
    if !is_name_front(text.as_bytes()) {
        return false;
    }
    if !has_name_bytes(text.as_bytes()) {
        return false;
    }
    cut_arrow(text).is_none()
}

/// How many words there are.
pub(crate) fn count_words(text: &str) -> usize
    ensures { result ≡ length (words_of text.now) }
{
    let mut words = Words::new(text);
    let mut count = 0;
    while let Some(_) = words.next_word() {
        count += 1;
    }
    count
}
