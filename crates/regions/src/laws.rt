//! Laws of a cut, over its definitions alone.

ghost use Rattle.std.specs.Prelude.{◌≡◌, ◌≢◌, ◌/◌, ◌<◌, ◌⊎◌, ◌↔◌, ℕ, IsTrue, Some, true, false};
ghost use Rattle.surf_kinds.specs.declared.site.Sites.{Sites};
ghost use Rattle.lattice.specs.Places.{sites_of, HasSite, IsPlace};
ghost use Rattle.regions.specs.Bands.{Bands, IsCut, first_row, has_row, owner_of};
ghost use Rattle.regions.specs.Neighbours.{region_before, region_after, IsNeighbour, Meeting};
ghost use Rattle.regions.specs.Ranges.{range_of, IsRangeOf};
ghost use Rattle.regions.specs.Seen.{sees, is_told, Sees, IsTold};

/// Every row of the lattice belongs to exactly one region, every row of a region is a row of the lattice, and each
/// region has a row: its first one.
pub fn rows_are_parted()
    ensures one { (b : Bands) (row : ℕ) → IsCut b → row < b.lattice.rows → (region : ℕ) × (region < b.count) × IsTrue (has_row b region row) }
    ensures only_one { (b : Bands) (i j row : ℕ) → IsCut b → IsTrue (has_row b i row) → IsTrue (has_row b j row) → i ≡ j }
    ensures within { (b : Bands) (region row : ℕ) → IsCut b → region < b.count → IsTrue (has_row b region row) → row < b.lattice.rows }
    ensures none_is_empty { (b : Bands) (region : ℕ) → IsCut b → region < b.count → IsTrue (has_row b region (first_row b region)) }
{}

/// Every place has exactly one owner: the region that has the row of the place's first site.
pub fn places_have_one_owner()
    ensures below { (b : Bands) (place : ℕ) → IsCut b → owner_of b place < b.count }
    ensures has { (b : Bands) (place : ℕ) (p : Sites) → IsCut b → sites_of b.lattice place ≡ Some p → IsTrue (has_row b (owner_of b place) (p.first.0 / b.lattice.cols)) }
    ensures no_other { (b : Bands) (place region : ℕ) (p : Sites) → IsCut b → sites_of b.lattice place ≡ Some p → IsTrue (has_row b region (p.first.0 / b.lattice.cols)) → region ≡ owner_of b place }
{}

/// A region sees a site exactly where some place of the region has it. So it sees the sites of its own places.
pub fn own_sites_are_seen()
    ensures sees { (b : Bands) (region site : ℕ) → IsTrue (sees b region site) ↔ Sees b region site }
    ensures own { (b : Bands) (place site : ℕ) → HasSite b.lattice place site → IsTrue (sees b (owner_of b place) site) }
{}

/// A region is told of the events at a place exactly where the place is another region's and it sees one of the
/// sites. Of three regions that are told two are the same, and a region that is told nothing of another's place sees
/// none of its sites.
pub fn at_most_two_are_told()
    ensures told { (b : Bands) (region place : ℕ) → IsTrue (is_told b region place) ↔ IsTold b region place }
    ensures two { (b : Bands) (place i j k : ℕ) → IsTrue (is_told b i place) → IsTrue (is_told b j place) → IsTrue (is_told b k place) → (i ≡ j) ⊎ ((j ≡ k) ⊎ (i ≡ k)) }
    ensures unseen { (b : Bands) (region place site : ℕ) → owner_of b place ≢ region → is_told b region place ≡ false → HasSite b.lattice place site → sees b region site ≡ false }
    ensures itself { (b : Bands) (place : ℕ) → is_told b (owner_of b place) place ≡ false }
    ensures below { (b : Bands) (region place : ℕ) → IsCut b → IsTrue (is_told b region place) → region < b.count }
{}

/// The places of a region are those of a range of numbers.
pub fn own_places_are_a_range()
    ensures { (b : Bands) (region : ℕ) → IsCut b → region < b.count → IsRangeOf b region (range_of b region) }
{}

/// The events of a region are told to no other region than the one before it and the one after it.
pub fn neighbours_alone()
    ensures { (b : Bands) (region place : ℕ) → IsCut b → IsPlace b.lattice place → is_told b region place ≡ true → (region_before b (owner_of b place) ≡ Some region) ⊎ (region_after b (owner_of b place) ≡ Some region) }
{}

/// A region that is told of another's events is a neighbour, and each neighbour is told of some. Neighbours are regions,
/// and each is one of the other.
pub fn neighbours_are_told()
    ensures told { (b : Bands) (region place : ℕ) → IsCut b → is_told b region place ≡ true → IsNeighbour b (owner_of b place) region }
    ensures each { (b : Bands) (region other : ℕ) → IsCut b → region < b.count → IsNeighbour b region other → Meeting b region other }
    ensures below { (b : Bands) (region other : ℕ) → IsCut b → region < b.count → IsNeighbour b region other → other < b.count }
    ensures both { (b : Bands) (region other : ℕ) → IsCut b → region < b.count → IsNeighbour b region other → IsNeighbour b other region }
{}
