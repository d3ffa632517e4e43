//! Reading a manifest.

ghost use Rattle.std.specs.Prelude.{◌≡◌, ◌≤◌, Ok, Err, IfOk, length, []};
ghost use Rattle.surf_text.specs.Lines.{lines_of};
ghost use Rattle.manifest_read.specs.declared.fault.ManifestFault.{ManifestFault as FaultData};
ghost use Rattle.manifest_read.specs.declared.fault.ManifestError.TheVariants.{Fault};
ghost use Rattle.manifest_read.specs.Manifest.{manifest_of, unmarked, outcome};
ghost use Rattle.manifest_read.specs.Sound.{IsSound};
ghost use Rattle.manifest_read.specs.Views.{Gives};

use crate::fault::{ManifestError, ManifestFault, ManifestKind};
use crate::manifest::Manifest;
use crate::state::State;
use std::alloc::Global;
use surf_text::first_text_line;

/// The text without the mark of the byte order.
fn unmarked(text: &str) -> &str
    ensures { result.now ≡ unmarked text.now }
{
    match text.strip_prefix("\u{feff}") {
        Some(rest) => rest,
        None => text,
    }
}

fn read_lines(alloc: Global, text: &str) -> Result<Manifest, ManifestError>
    requires { length text.now ≤ 67108864 }
    ensures { Gives result (outcome (lines_of text.now) []) }
{
    let mut state = State::new(alloc);
    let mut rest = text;
    while !rest.is_empty() {
        let (line, after) = first_text_line(rest);
        match state.take(alloc, line) {
            Ok(()) => {}
            Err(error) => return Err(error),
        }
        rest = after;
    }
    state.end(alloc)
}

fn read_text(alloc: Global, text: &[u8]) -> Result<Manifest, ManifestError>
    requires { length text.now ≤ 67108864 }
    ensures { Gives result (manifest_of text.now) }
{
    match str::from_utf8(text) {
        Ok(lines) => read_lines(alloc, unmarked(lines)),
        Err(error) => Err(ManifestError::Fault(ManifestFault {
            kind: ManifestKind::NotUtf8,
            at: error.valid_up_to() as u64,
        })),
    }
}

/// The manifest of a text of at most 64 MiB.
///
/// A manifest has settings, and up to three sections in any order: rules between `!START_TRANSITION_RULES` and
/// `!END_TRANSITION_RULES`, the rows of the surface between `!START_INIT_STATE` and `!END_INIT_STATE`, and lines on
/// colours between `!START_COLORMAP` and `!END_COLORMAP`. A comment runs from `#` to the end of its line. The species
/// are numbered by first appearance in the rules, and then in the rows.
///
/// The error `Fault` comes exactly where the text is no manifest, with the kind of its first fault and where it is.
/// The only other error is want of memory.
pub fn read_manifest(alloc: Global, text: &[u8]) -> Result<Manifest, ManifestError>
    requires size { length text.now ≤ 67108864 }
    ensures ok { IfOk result (λ m. manifest_of text.now ≡ Ok m) }
    ensures fault { (f : FaultData) → result ≡ Err (Fault f) → manifest_of text.now ≡ Err f }
    ensures sound { IfOk result IsSound }
{
    read_text(alloc, text)
}
