//! What an event changed.

use surf_kinds::{Event, SiteState};

/// An event, with what stood at the sites of its place before it.
#[derive(Clone, Copy, Debug, PartialEq, Eq)]
pub struct Before {
    pub event: Event,
    pub first: SiteState,
    /// The second site's, where the place is a pair.
    pub second: Option<SiteState>,
}

/// How often a site was rewritten, and the tick of the last time.
#[derive(Clone, Copy, Debug, PartialEq, Eq)]
pub(crate) struct Mark {
    pub version: u64,
    pub last: u64,
}
