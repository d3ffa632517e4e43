//! Words and names.

ghost use Rattle.std.specs.Prelude.{◌≡◌};
ghost use Rattle.std.specs.List.{list_all};
ghost use Rattle.surf_text.specs.Lines.{is_blank as is_blank_of};
ghost use Rattle.bench_read.specs.Lines.{is_name_byte, is_name, spells};

/// Whether two words are the same in any mixture of cases.
pub(crate) fn spells(word: &[u8], text: &str) -> bool
    ensures { result ≡ spells word.now text.now }
{
    word.eq_ignore_ascii_case(text.as_bytes())
}

fn is_blank(c: u8) -> bool
    ensures { result ≡ is_blank_of c }
{
    c == b' ' || c == b'\t' || c == b'\r'
}

fn is_name_byte(c: u8) -> bool
    ensures { result ≡ is_name_byte c }
{
    !(is_blank(c) || c == b'#' || c == b'(' || c == b')' || c == b',' || c == b'=')
}

fn are_name_bytes(bytes: &[u8]) -> bool
    ensures { result ≡ list_all is_name_byte bytes.now }
{
    bytes.iter().all(|c| is_name_byte(*c))
}

/// Whether a word is a name: it has bytes, and none is a blank, a bracket, a comma, `=` or `#`.
pub(crate) fn is_name(word: &[u8]) -> bool
    ensures { result ≡ is_name word.now }
{
    !word.is_empty() && are_name_bytes(word)
}
