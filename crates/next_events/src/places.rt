//! The places whose next events a queue has.

ghost use Rattle.std.specs.Prelude.{◌≡◌, ℕ, Bool, true};
ghost use Rattle.lattice.specs.Ranges.{is_in_range};

use lattice::PlaceRange;
use surf_kinds::Place;

/// Some of the places of a lattice.
pub trait Places: Copy {
    ghost has: { Self → ℕ → Bool };

    /// Whether the place is one of them.
    fn has(self, place: Place) -> bool
        ensures { result ≡ has self place.0 };
}

/// All of them.
#[derive(Clone, Copy, Debug, PartialEq, Eq)]
pub struct EveryPlace;

impl Places for EveryPlace {
    ghost has = { λ _ _. true };

    #[inline]
    fn has(self, _place: Place) -> bool {
        true
    }
}

impl Places for PlaceRange {
    ghost has = { is_in_range };

    #[inline]
    fn has(self, place: Place) -> bool {
        PlaceRange::has(self, place)
    }
}
