//! One event that was applied.

ghost use Rattle.std.specs.Prelude.{◌≡◌};

use surf_kinds::Key;
use surface_state::Before;

/// An event with what stood at its sites before it.
#[derive(Clone, Copy, Debug, PartialEq, Eq)]
pub struct Entry {
    pub before: Before,
    /// Whether the event is the region's own; the others were received.
    pub own: bool,
}

impl Entry {
    ghost use Rattle.timeline.specs.TimelineView.{entry_key};

    /// The key of the entry's event.
    #[inline]
    pub fn key(&self) -> Key
        ensures { result ≡ entry_key self.now }
    {
        self.before.event.key()
    }
}
