//! Words that are names.

ghost use Rattle.std.specs.Prelude.{◌≡◌, ◌==◌, not, [], Some, None, length, if◌then◌else◌};
ghost use Rattle.std.specs.List.{list_all};
ghost use Rattle.std.specs.Option.{option_map};
ghost use Rattle.std.specs.Str.{bytes_eq};
ghost use Rattle.surf_text.specs.Cuts.{words_of};
ghost use Rattle.circuit_text.specs.Names.{is_name_byte, is_name, are_names};

use surf_text::Words;

/// Whether a word is this one.
pub(crate) fn is_word(word: &[u8], other: &str) -> bool
    ensures { result ≡ bytes_eq word.now other.now }
{
    word == other.as_bytes()
}

fn is_name_byte(c: u8) -> bool
    ensures { result ≡ is_name_byte c }
{
    c.is_ascii_alphanumeric() || c == b'_'
}

fn has_name_bytes(word: &[u8]) -> bool
    ensures { result ≡ list_all is_name_byte word.now }
{
    word.iter().all(|c| is_name_byte(*c))
}

pub(crate) fn is_name(word: &[u8]) -> bool
    ensures { result ≡ is_name word.now }
{
    !word.is_empty() && has_name_bytes(word)
}

/// The text of a word that is a name; `None` where it is none.
pub(crate) fn name_text(word: &[u8]) -> Option<&str>
    ensures { option_map (λ text. text.now) result ≡ (if is_name word.now then Some word.now else None) }
{
    if !is_name(word) {
        return None;
    }
    match str::from_utf8(word) {
        Ok(text) => Some(text),
        Err(_) => None,
    }
}

fn has_only_names(text: &[u8]) -> bool
    ensures { result ≡ list_all is_name (words_of text.now) }
{
    let mut words = Words::new(text);
    while let Some(word) = words.next_word() {
        if !is_name(word) {
            return false;
        }
    }
    true
}

fn has_word(text: &[u8]) -> bool
    ensures { result ≡ not (length (words_of text.now) == 0) }
{
    let mut words = Words::new(text);
    words.next_word().is_some()
}

/// Whether the words are one or more names.
pub(crate) fn are_names(text: &[u8]) -> bool
    ensures { result ≡ are_names (words_of text.now) }
{
    has_word(text) && has_only_names(text)
}
