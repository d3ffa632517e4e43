//! Sites and what stands at them.

/// The number of a site: `row * columns + column`, with rows and columns from 0.
#[derive(Clone, Copy, Debug, PartialEq, Eq, PartialOrd, Ord, Hash)]
pub struct SiteId(pub u32);

/// The number of a species, from 0.
#[derive(Clone, Copy, Debug, PartialEq, Eq, PartialOrd, Ord, Hash)]
pub struct SpeciesId(pub u16);

/// What a site keeps.
#[derive(Clone, Copy, Debug, PartialEq, Eq)]
pub struct SiteState {
    /// The species that stands there.
    pub species: SpeciesId,
    /// How often the site was rewritten.
    pub version: u64,
    /// The tick of the last rewriting; 0 before the first.
    pub last: u64,
}

/// The sites of a place: one, or two neighbours.
#[derive(Clone, Copy, Debug, PartialEq, Eq)]
pub struct Sites {
    pub first: SiteId,
    pub second: Option<SiteId>,
}
