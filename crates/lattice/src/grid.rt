//! The lattice and its sites.

ghost use Rattle.std.specs.Prelude.{◌≡◌, ◌≤◌, ◌<◌, ◌*◌, ◌%◌, ◌^◌, ◌⊎◌, ◌↔◌, IfOk, Err, Some, take};
ghost use Rattle.lattice.specs.Places.{ArePlacesOf, HasSite, behind, beside, neighbour, wraps as wraps_at, sites_of as sites_of_place};
ghost use Rattle.surf_kinds.specs.declared.place.Step.TheVariants.{East, South, SouthWest};
ghost use Rattle.lattice.specs.declared.grid.SizeFault.TheVariants.{NoSites, TooManySites};

use crate::place_list::PlaceList;
use std::marker::Model;
use surf_kinds::{Place, SiteId, Sites, Step};

/// What the neighbours of a site are: four on the square lattice, six on the hexagonal one.
#[derive(Clone, Copy, Debug, PartialEq, Eq)]
pub enum Kind {
    Square,
    Hex,
}

/// Why there is no lattice of a size.
#[derive(Clone, Copy, Debug, PartialEq, Eq)]
pub enum SizeFault {
    NoSites,
    TooManySites,
}

const MOST_SITES: u64 = 1_048_576;

/// A lattice of 1 to 2^20 sites.
///
/// Sites are numbered row by row. On the hexagonal lattice the neighbours of a site stand to its east, west,
/// south, north, south-west and north-east. With wrapping, a step past an edge goes to the other edge, in each
/// dimension that has at least 3 sites.
#[derive(Clone, Copy, Debug, PartialEq, Eq)]
pub struct Lattice {
    kind: Kind,
    rows: u32,
    cols: u32,
    wrap: bool,
}

impl Model for Lattice {
    ghost use Rattle.lattice.specs.Shape.{Shape, IsSize};

    ghost Value = { Shape };

    ghost view = { λ l. record { kind = l.kind; rows = l.rows; cols = l.cols; wrap = l.wrap } };

    ghost invariant = { λ l. IsSize l.rows l.cols };

    ghost inverse = { λ s. record { kind = s.kind; rows = s.rows; cols = s.cols; wrap = s.wrap } };
}

impl Lattice {
    /// A lattice of this kind and size.
    pub fn new(kind: Kind, rows: u32, cols: u32, wrap: bool) -> Result<Lattice, SizeFault>
        ensures ok { IfOk result (λ l. l ≡ record { kind = kind; rows = rows; cols = cols; wrap = wrap }) }
        ensures no_sites { (result ≡ Err NoSites) ↔ ((rows ≡ 0) ⊎ (cols ≡ 0)) }
        ensures too_many { (result ≡ Err TooManySites) ↔ (2 ^ 20 < rows * cols) }
    {
        if rows == 0 || cols == 0 {
            return Err(SizeFault::NoSites);
        }
        if u64::from(rows) * u64::from(cols) > MOST_SITES {
            return Err(SizeFault::TooManySites);
        }
        Ok(Lattice {
            kind,
            rows,
            cols,
            wrap,
        })
    }

    pub fn kind(&self) -> Kind
        ensures { result ≡ self.now.kind }
    {
        self.kind
    }

    /// Whether it wraps around its edges.
    pub fn wrap(&self) -> bool
        ensures { result ≡ self.now.wrap }
    {
        self.wrap
    }

    #[inline]
    pub fn rows(&self) -> u32
        ensures rows { result ≡ self.now.rows }
        ensures at_least { 1 ≤ result }
        ensures sites { self.now.rows * self.now.cols ≤ 2 ^ 20 }
    {
        self.rows
    }

    #[inline]
    pub fn cols(&self) -> u32
        ensures cols { result ≡ self.now.cols }
        ensures at_least { 1 ≤ result }
        ensures sites { self.now.rows * self.now.cols ≤ 2 ^ 20 }
    {
        self.cols
    }

    /// The number of sites.
    #[inline]
    pub fn site_count(&self) -> u32
        ensures count { result ≡ self.now.rows * self.now.cols }
        ensures at_least { 1 ≤ result }
        ensures at_most { result ≤ 2 ^ 20 }
    {
        self.rows * self.cols
    }

    /// The sites of a place, or `None` where the number is no place.
    #[inline]
    #[tactic(auto, unfolding(crate::specs::Places::sites_of))]
    pub fn sites_of(&self, place: Place) -> Option<Sites>
        ensures { result ≡ sites_of_place self.now place.0 }
    {
        let number = place.site();
        if number >= u64::from(self.site_count()) {
            return None;
        }
        let site = number as u32;
        let first = SiteId(site);
        match place.step() {
            Some(Step::Alone) => Some(Sites {
                first,
                second: None,
            }),
            step => match self.beside(site, step) {
                None => None,
                second => Some(Sites { first, second }),
            },
        }
    }

    /// The sites of a place that is known to have this site. As `sites_of`, with less to do.
    #[inline]
    pub fn sites_with(&self, place: Place, site: SiteId) -> Sites
        requires { HasSite self.now place.0 site.0 }
        ensures { Some result ≡ sites_of_place self.now place.0 }
    {
        prove!(self.rows >= 1);
        let first = place.site() as u32;
        let second = if first == site.0 {
            self.beside(first, place.step())
        } else {
            Some(site)
        };
        Sites {
            first: SiteId(first),
            second,
        }
    }

    /// Every place that has the site, rising.
    #[inline]
    pub fn places_of(&self, site: SiteId) -> PlaceList
        requires { site.0 < self.now.rows * self.now.cols }
        ensures places { ArePlacesOf self.now site.0 (take result.count result.list) }
        ensures at_least { 1 ≤ result.count }
        ensures at_most { result.count ≤ 7 }
    {
        let at = site.0;
        let col = at % self.cols;
        let mut places = PlaceList::new();
        places.add(self.north(at), Step::South);
        places.add(self.north_east(at, col), Step::SouthWest);
        places.add(self.west(at, col), Step::East);
        places.add(Some(site), Step::Alone);
        places.add(self.east(at, col).and(Some(site)), Step::East);
        places.add(self.south(at).and(Some(site)), Step::South);
        places.add(self.south_west(at, col).and(Some(site)), Step::SouthWest);
        places
    }

    /// Whether a step past an edge comes in at the other one, in a dimension of this size.
    #[inline]
    fn wraps(&self, size: u32) -> bool
        ensures { result ≡ wraps_at self.now.wrap size }
    {
        self.wrap && size >= 3
    }

    /// The neighbour to which a place's step leads.
    #[inline]
    fn beside(&self, site: u32, step: Option<Step>) -> Option<SiteId>
        requires { site < self.now.rows * self.now.cols }
        ensures { result ≡ beside self.now site step }
    {
        match step {
            None => None,
            Some(Step::Alone) => None,
            Some(Step::East) => self.east(site, site % self.cols),
            Some(Step::South) => self.south(site),
            Some(Step::SouthWest) => self.south_west(site, site % self.cols),
        }
    }

    #[inline]
    fn east(&self, site: u32, col: u32) -> Option<SiteId>
        requires site { site < self.now.rows * self.now.cols }
        requires col { col ≡ site % self.now.cols }
        ensures { result ≡ neighbour self.now site East }
    {
        let last = self.cols - 1;
        if col < last {
            Some(SiteId(site + 1))
        } else if self.wraps(self.cols) {
            Some(SiteId(site - col))
        } else {
            None
        }
    }

    // A row is `cols` sites, so this needs no division.
    #[inline]
    fn south(&self, site: u32) -> Option<SiteId>
        requires site { site < self.now.rows * self.now.cols }
        ensures { result ≡ neighbour self.now site South }
    {
        let all = self.site_count();
        if site + self.cols < all {
            Some(SiteId(site + self.cols))
        } else if self.wraps(self.rows) {
            Some(SiteId(site + self.cols - all))
        } else {
            None
        }
    }

    #[inline]
    fn west(&self, site: u32, col: u32) -> Option<SiteId>
        requires site { site < self.now.rows * self.now.cols }
        requires col { col ≡ site % self.now.cols }
        ensures { result ≡ behind self.now site East }
    {
        if col > 0 {
            Some(SiteId(site - 1))
        } else if self.wraps(self.cols) {
            Some(SiteId(site + self.cols - 1))
        } else {
            None
        }
    }

    #[inline]
    fn south_west(&self, site: u32, col: u32) -> Option<SiteId>
        requires site { site < self.now.rows * self.now.cols }
        requires col { col ≡ site % self.now.cols }
        ensures { result ≡ neighbour self.now site SouthWest }
    {
        match self.kind {
            Kind::Square => None,
            Kind::Hex => match self.west(site, col) {
                None => None,
                Some(west) => self.south(west.0),
            },
        }
    }

    #[inline]
    fn north(&self, site: u32) -> Option<SiteId>
        requires site { site < self.now.rows * self.now.cols }
        ensures { result ≡ behind self.now site South }
    {
        if site >= self.cols {
            Some(SiteId(site - self.cols))
        } else if self.wraps(self.rows) {
            Some(SiteId(site + self.site_count() - self.cols))
        } else {
            None
        }
    }

    #[inline]
    fn north_east(&self, site: u32, col: u32) -> Option<SiteId>
        requires site { site < self.now.rows * self.now.cols }
        requires col { col ≡ site % self.now.cols }
        ensures { result ≡ behind self.now site SouthWest }
    {
        match self.kind {
            Kind::Square => None,
            Kind::Hex => match self.north(site) {
                None => None,
                Some(north) => self.east(north.0, col),
            },
        }
    }
}
