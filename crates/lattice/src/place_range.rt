//! A range of places.

ghost use Rattle.std.specs.Prelude.{◌≡◌};
ghost use Rattle.lattice.specs.Ranges.{is_in_range};

use surf_kinds::Place;

/// The places from `first` up to, and not with, `end`. Not each number of a range is a place.
#[derive(Clone, Copy, Debug, PartialEq, Eq)]
pub struct PlaceRange {
    pub first: u64,
    pub end: u64,
}

impl PlaceRange {
    /// Whether the place is one of the range.
    #[inline]
    pub fn has(self, place: Place) -> bool
        ensures { result ≡ is_in_range self place.0 }
    {
        self.first <= place.0 && place.0 < self.end
    }
}
