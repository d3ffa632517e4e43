//! What the canonical text is for.

ghost use Rattle.std.specs.Prelude.{◌≡◌, Ok};
ghost use Rattle.manifest_read.specs.declared.manifest.Manifest.{Manifest};
ghost use Rattle.manifest_read.specs.Manifest.{IsValid, manifest_of};
ghost use Rattle.manifest_write.specs.Canon.{canonical_text};
ghost use Rattle.manifest_write.specs.Made.{IsMade};

/// The canonical text of a manifest is read as that manifest.
pub fn read_again()
    ensures { (m : Manifest) → IsValid m → manifest_of (canonical_text m) ≡ Ok m }
{}

/// No two manifests have the same canonical text.
pub fn one_spelling()
    ensures { (m n : Manifest) → IsValid m → IsValid n → canonical_text m ≡ canonical_text n → m ≡ n }
{}

/// The canonical text of a manifest that a program puts together is read as that manifest, if its counts are within the
/// limits, its rates are in lowest terms, and its species are numbered by the first appearance of their names.
pub fn made_is_read()
    ensures { (m : Manifest) → IsMade m → manifest_of (canonical_text m) ≡ Ok m }
{}
