//! What is wrong with a manifest.

ghost use Rattle.std.specs.Prelude.{◌≡◌};
ghost use Rattle.manifest_read.specs.Faults.{manifest_kind_text, unit_text};

/// The kinds of faults.
#[derive(Clone, Copy, Debug, PartialEq, Eq)]
pub enum ManifestKind {
    /// The text isn't UTF-8.
    NotUtf8,
    /// A section line that names no section, or one that isn't open.
    UnknownSection,
    /// The section was there before.
    SectionTwice,
    /// The section that the line opened is still open at another start, or at the end of the text.
    SectionOpen,
    /// There is no initial surface.
    SectionMissing,
    /// A setting without `=` or without a name.
    BadSetting,
    /// A setting of this name was there before.
    SettingTwice,
    /// `rng_seed` is no number of 1 to 20 digits below 2^64.
    BadSeed,
    /// `max_duration` is no decimal, or is above 10^9 units.
    BadDuration,
    /// `lattice` is neither `square` nor `hex`.
    BadLattice,
    /// `wrap` is none of `true`, `True`, `false` and `False`.
    BadWrap,
    /// The rate of a rule isn't closed, or is no rate.
    BadRate,
    /// A rule without an arrow, or with a piece that is no name.
    BadRule,
    /// The two sides of a rule don't have one name each, or two each.
    BadArity,
    /// A row has another number of names than the first one.
    RaggedRow,
    /// A word of a row that is no name.
    BadName,
    /// The initial surface has no rows.
    NoSites,
    /// More than 2^20 sites.
    TooManySites,
    /// More than 4,096 rules.
    TooManyRules,
    /// More than 4,096 species.
    TooManySpecies,
}

impl ManifestKind {
    /// The name of the kind, as messages have it.
    pub fn name(self) -> &'static str
        ensures { result.now ≡ manifest_kind_text self }
    {
        match self {
            ManifestKind::NotUtf8 => "NotUtf8",
            ManifestKind::UnknownSection => "UnknownSection",
            ManifestKind::SectionTwice => "SectionTwice",
            ManifestKind::SectionOpen => "SectionOpen",
            ManifestKind::SectionMissing => "SectionMissing",
            ManifestKind::BadSetting => "BadSetting",
            ManifestKind::SettingTwice => "SettingTwice",
            ManifestKind::BadSeed => "BadSeed",
            ManifestKind::BadDuration => "BadDuration",
            ManifestKind::BadLattice => "BadLattice",
            ManifestKind::BadWrap => "BadWrap",
            ManifestKind::BadRate => "BadRate",
            ManifestKind::BadRule => "BadRule",
            ManifestKind::BadArity => "BadArity",
            ManifestKind::RaggedRow => "RaggedRow",
            ManifestKind::BadName => "BadName",
            ManifestKind::NoSites => "NoSites",
            ManifestKind::TooManySites => "TooManySites",
            ManifestKind::TooManyRules => "TooManyRules",
            ManifestKind::TooManySpecies => "TooManySpecies",
        }
    }

    /// What the number of a fault of this kind counts.
    pub fn unit(self) -> &'static str
        ensures { result.now ≡ unit_text self }
    {
        match self {
            ManifestKind::NotUtf8 => "byte",
            _ => "line",
        }
    }
}

/// The first fault of a manifest.
#[derive(Clone, Copy, Debug, PartialEq, Eq)]
pub struct ManifestFault {
    pub kind: ManifestKind,
    /// The number of the line, from 1; of `SectionOpen` that of the line that opened the section. Of `NotUtf8` it is
    /// how many bytes of the text are the longest part of its front that is UTF-8.
    pub at: u64,
}

/// Why a manifest was not read.
#[derive(Clone, Copy, Debug, PartialEq, Eq)]
pub enum ManifestError {
    /// The text is no manifest.
    Fault(ManifestFault),
    /// Memory ran out.
    Memory,
}
