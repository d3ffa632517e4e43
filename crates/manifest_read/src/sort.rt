//! What a line is, by itself.

ghost use Rattle.std.specs.Prelude.{◌≡◌};
ghost use Rattle.manifest_read.specs.Seen.{seen};
ghost use Rattle.manifest_read.specs.Sorts.{bare, section_line, sort_of};

use crate::section::Section;
use surf_text::{cut_text, trim_text};

/// What a line is.
#[derive(Clone, Copy)]
pub(crate) enum Sort<'a> {
    Starts(Section),
    Ends(Section),
    /// Another section line.
    Unknown,
    /// The line without its comment, and the whole line; both are trimmed.
    Plain { bare: &'a str, whole: &'a str },
}

/// The line without its comment, trimmed.
fn bare(line: &str) -> &str
    ensures { result.now ≡ bare line.now }
{
    match cut_text(line, b'#') {
        Some((front, _)) => trim_text(front),
        None => trim_text(line),
    }
}

fn section_line(text: &str) -> Sort<'_>
    ensures { seen result ≡ section_line text.now }
{
    if text == "!START_TRANSITION_RULES" {
        Sort::Starts(Section::Rules)
    } else if text == "!END_TRANSITION_RULES" {
        Sort::Ends(Section::Rules)
    } else if text == "!START_INIT_STATE" {
        Sort::Starts(Section::Surface)
    } else if text == "!END_INIT_STATE" {
        Sort::Ends(Section::Surface)
    } else if text == "!START_COLORMAP" {
        Sort::Starts(Section::Colours)
    } else if text == "!END_COLORMAP" {
        Sort::Ends(Section::Colours)
    } else {
        Sort::Unknown
    }
}

/// What a line is.
pub(crate) fn sort_line(line: &str) -> Sort<'_>
    ensures { seen result ≡ sort_of line.now }
{
    let bare = bare(line);
    match bare.as_bytes().split_first() {
        Some((b'!', _)) => section_line(bare),
        _ => Sort::Plain {
            bare,
            whole: trim_text(line),
        },
    }
}
