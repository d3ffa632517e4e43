//! The cut of a lattice into bands of rows.

ghost use Rattle.std.specs.Prelude.{◌≡◌, ◌≢◌, ℕ, ◌*◌, ◌/◌, ◌<◌, ◌≤◌, ◌↔◌, Some, take};
ghost use Rattle.std.specs.Option.{option_map};
ghost use Rattle.lattice.specs.Places.{IsPlace, wraps as wraps_at, forward, back};
ghost use Rattle.lattice.specs.Rows.{row_of_place, goes_down};
ghost use Rattle.regions.specs.Bands.{IsCut, cut_for, region_of as region_of_row, owner_of};
ghost use Rattle.regions.specs.Neighbours.{region_before, region_after, AreNeighbours};
ghost use Rattle.regions.specs.Ranges.{first_place, range_of, IsRangeOf};
ghost use Rattle.regions.specs.Seen.{sees as sees_site, is_told, AreTold};

use crate::neighbours::Neighbours;
use crate::region_list::RegionList;
use lattice::{Lattice, PlaceRange};
use std::marker::Model;
use surf_kinds::{Event, Place, SiteId, Step};

/// A lattice cut into bands of rows, one for each region.
///
/// A place belongs to the region that has the row of its first site, and a region sees the sites of its own places.
/// An event is told to each other region that sees one of its sites: the one above, and for a pair that leads to
/// the next row the one below.
#[derive(Clone, Copy, Debug, PartialEq, Eq)]
pub struct Cut {
    lattice: Lattice,
    count: u32,
}

impl Model for Cut {
    ghost use Rattle.regions.specs.Bands.{Bands, IsCut};

    ghost Value = { Bands };

    ghost view = { λ c. record { lattice = c.lattice; count = c.count } };

    ghost invariant = { λ c. IsCut (record { lattice = c.lattice; count = c.count }) };

    ghost inverse = { λ b. record { lattice = b.lattice; count = b.count } };
}

impl Cut {
    /// Cuts a lattice for 1 to 64 workers: into a region for each, or for each row where there are fewer rows.
    pub fn bands(lattice: &Lattice, n: u32) -> Cut
        requires at_least { 1 ≤ n }
        requires at_most { n ≤ 64 }
        ensures cut { result ≡ cut_for lattice.now n }
    {
        // With a column there are at most as many rows as sites.
        prove!(lattice.cols() >= 1);
        Cut {
            lattice: *lattice,
            count: n.min(lattice.rows()),
        }
    }

    /// The number of regions. They are numbered from 0, from the first row on.
    #[inline]
    pub fn count(&self) -> u32
        ensures count { result ≡ self.now.count }
        ensures cut { IsCut self.now }
    {
        self.count
    }

    /// The lattice that is cut.
    #[inline]
    pub fn lattice(&self) -> &Lattice
        ensures { result.now ≡ self.now.lattice }
    {
        &self.lattice
    }

    /// The region that a place belongs to.
    #[inline]
    pub fn owner(&self, place: Place) -> u32
        requires { IsPlace self.now.lattice place.0 }
        ensures owner { result ≡ owner_of self.now place.0 }
        ensures below { result < self.now.count }
    {
        self.region_of(self.row_of(place))
    }

    /// The places of a region: those of its rows.
    #[inline]
    pub fn places(&self, region: u32) -> PlaceRange
        requires { region < self.now.count }
        ensures range { result ≡ range_of self.now region }
        ensures own { IsRangeOf self.now region result }
    {
        // So the number after the region's is one too.
        prove!(self.count() <= 64);
        PlaceRange {
            first: self.first_place(region),
            end: self.first_place(region + 1),
        }
    }

    /// Whether a region sees a site: whether one of the region's places has it.
    #[inline]
    pub fn sees(&self, region: u32, site: SiteId) -> bool
        requires region { region < self.now.count }
        requires site { site.0 < self.now.lattice.rows * self.now.lattice.cols }
        ensures { result ≡ sees_site self.now region site.0 }
    {
        let row = site.0 / self.lattice.cols();
        // The sites of a place stand in the row of its first site, or in the next one.
        self.region_of(row) == region || self.region_above(row) == Some(region)
    }

    /// The other regions that an event at a place of the lattice is told to, rising: those that see one of its sites.
    #[inline]
    pub fn told(&self, event: &Event) -> RegionList
        requires { IsPlace self.now.lattice event.now.place.0 }
        ensures told { AreTold self.now event.now.place.0 (take result.count result.list) }
        ensures at_most { result.count ≤ 2 }
    {
        self.told_at(event.place)
    }

    /// Whether a region is told of the events at a place of the lattice.
    #[inline]
    pub fn tells(&self, place: Place, region: u32) -> bool
        requires { IsPlace self.now.lattice place.0 }
        ensures { result ≡ is_told self.now region place.0 }
    {
        self.told_at(place).has(region)
    }

    /// The neighbours of a region.
    pub fn neighbours(&self, region: u32) -> Neighbours
        requires { region < self.now.count }
        ensures { AreNeighbours self.now region result.first result.second }
    {
        let first = other(self.region_before(region), region);
        let second = other(self.region_after(region), region);
        Neighbours {
            first,
            second: unless(second, first),
        }
    }

    /// The regions that the events at a place are told to.
    #[inline]
    fn told_at(&self, place: Place) -> RegionList
        requires { IsPlace self.now.lattice place.0 }
        ensures told { AreTold self.now place.0 (take result.count result.list) }
        ensures at_most { result.count ≤ 2 }
    {
        let row = self.row_of(place);
        let owner = self.region_of(row);
        let above = other(self.region_above(row), owner);
        let below = if goes_down(place) {
            other(self.region_below(row), owner)
        } else {
            None
        };
        RegionList::of(above, below)
    }

    /// The first place of a region's first row. Of the region after the last one it is the end of all places.
    #[inline]
    fn first_place(&self, region: u32) -> u64
        requires { region ≤ self.now.count }
        ensures { result ≡ first_place self.now region }
    {
        let row = region * self.lattice.rows() / self.count;
        Place::at(SiteId(row * self.lattice.cols()), Step::Alone).0
    }

    /// The region before one, where there is one.
    fn region_before(&self, region: u32) -> Option<u32>
        ensures { result ≡ region_before self.now region }
    {
        if region > 0 {
            Some(region - 1)
        } else if self.wraps() {
            Some(self.count - 1)
        } else {
            None
        }
    }

    /// The region after one, where there is one.
    fn region_after(&self, region: u32) -> Option<u32>
        requires { region < self.now.count }
        ensures { result ≡ region_after self.now region }
    {
        let count = self.count();
        if region + 1 < count {
            Some(region + 1)
        } else if self.wraps() {
            Some(0)
        } else {
            None
        }
    }

    /// The row of a place's first site.
    #[inline]
    fn row_of(&self, place: Place) -> u32
        requires { IsPlace self.now.lattice place.0 }
        ensures row { result ≡ row_of_place self.now.lattice place.0 }
        ensures within { result < self.now.lattice.rows }
    {
        let cols = self.lattice.cols();
        place.site() as u32 / cols
    }

    /// The region that has a row.
    #[inline]
    fn region_of(&self, row: u32) -> u32
        requires { row < self.now.lattice.rows }
        ensures region { result ≡ region_of_row self.now row }
        ensures below { result < self.now.count }
    {
        let rows = self.lattice.rows();
        // The last region whose first row, `region * rows / count`, is at most this one.
        ((row + 1) * self.count - 1) / rows
    }

    /// The region that has the row above, where there is one.
    #[inline]
    fn region_above(&self, row: u32) -> Option<u32>
        requires { row < self.now.lattice.rows }
        ensures { result ≡ option_map (region_of_row self.now) (back self.now.lattice.wrap self.now.lattice.rows row) }
    {
        if row > 0 {
            Some(self.region_of(row - 1))
        } else if self.wraps() {
            Some(self.region_of(self.lattice.rows() - 1))
        } else {
            None
        }
    }

    /// The region that has the row below, where there is one.
    #[inline]
    fn region_below(&self, row: u32) -> Option<u32>
        requires { row < self.now.lattice.rows }
        ensures { result ≡ option_map (region_of_row self.now) (forward self.now.lattice.wrap self.now.lattice.rows row) }
    {
        let rows = self.lattice.rows();
        if row + 1 < rows {
            Some(self.region_of(row + 1))
        } else if self.wraps() {
            Some(self.region_of(0))
        } else {
            None
        }
    }

    /// Whether a step past the last row comes in at the first one.
    #[inline]
    fn wraps(&self) -> bool
        ensures { result ≡ wraps_at self.now.lattice.wrap self.now.lattice.rows }
    {
        self.lattice.wrap() && self.lattice.rows() >= 3
    }
}

/// Whether a place's second site is in the row after that of its first.
#[inline]
fn goes_down(place: Place) -> bool
    ensures { result ≡ goes_down place.0 }
{
    match place.step() {
        Some(Step::South) => true,
        Some(Step::SouthWest) => true,
        _ => false,
    }
}

/// The region, where it is another than this one.
#[inline]
fn other(region: Option<u32>, than: u32) -> Option<u32>
    ensures { (r : ℕ) → (result ≡ Some r) ↔ ((region ≡ Some r) × (than ≢ r)) }
{
    match region {
        Some(region) if region != than => Some(region),
        _ => None,
    }
}

/// The second of two regions, where it is not the first.
fn unless(second: Option<u32>, first: Option<u32>) -> Option<u32>
    ensures { (r : ℕ) → (result ≡ Some r) ↔ ((second ≡ Some r) × (first ≢ Some r)) }
{
    if second == first { None } else { second }
}
