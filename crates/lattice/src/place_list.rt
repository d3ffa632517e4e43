//! A short list of places.

ghost use Rattle.std.specs.Prelude.{◌≡◌, ◌<◌, ◌≤◌, ◌+◌, ◌⊎◌, ◌↔◌, ℕ, length};
ghost use Rattle.lattice.specs.Rising.{Rise, IsListed, IsPairOf};

use surf_kinds::{Place, SiteId, Step};

/// Up to seven places: the first `count` of the list. The others mean nothing.
#[derive(Clone, Copy, Debug, PartialEq, Eq)]
pub struct PlaceList {
    pub count: u8,
    pub list: [Place; 7],
}

impl PlaceList {
    #[inline]
    pub(crate) fn new() -> PlaceList
        ensures { result.count ≡ 0 }
    {
        PlaceList {
            count: 0,
            list: [Place(0); 7],
        }
    }

    /// Puts a place between the lower ones and the higher ones.
    #[inline]
    pub(crate) fn insert(&mut self, place: Place)
        requires room { self.old.count < 7 }
        requires rising { Rise self.old.list self.old.count }
        requires absent { IsListed self.old.list self.old.count place.0 → ⊥ }
        ensures count { self.new.count ≡ self.old.count + 1 }
        ensures seven { length self.new.list ≡ 7 }
        ensures rising { Rise self.new.list self.new.count }
        ensures listed { (q : ℕ) → IsListed self.new.list self.new.count q ↔ (IsListed self.old.list self.old.count q ⊎ (q ≡ place.0)) }
    {
        let mut at = usize::from(self.count);
        while at > 0 && self.list[at - 1].0 > place.0 {
            self.list[at] = self.list[at - 1];
            at -= 1;
        }
        self.list[at] = place;
        self.count += 1;
    }

    /// Puts the site's place by this step in, where there is a site.
    #[inline]
    pub(crate) fn add(&mut self, site: Option<SiteId>, step: Step)
        requires room { self.old.count < 7 }
        requires rising { Rise self.old.list self.old.count }
        requires absent { (q : ℕ) → IsPairOf site step q → IsListed self.old.list self.old.count q → ⊥ }
        ensures count { self.new.count ≤ self.old.count + 1 }
        ensures seven { length self.new.list ≡ 7 }
        ensures rising { Rise self.new.list self.new.count }
        ensures listed { (q : ℕ) → IsListed self.new.list self.new.count q ↔ (IsListed self.old.list self.old.count q ⊎ IsPairOf site step q) }
    {
        if let Some(site) = site {
            self.insert(Place::at(site, step));
        }
    }
}
