//! Places: sites, and pairs of neighbours.

ghost use Rattle.std.specs.Prelude.{◌≡◌, ◌*◌, ◌<◌, ◌^◌};
ghost use Rattle.surf_kinds.specs.Steps.{site_of_place, step_of_place, step_number, place_at};

use crate::site::SiteId;

/// The number of a place. Place `8 * s` is site `s` alone; `8 * s + 1`, `8 * s + 2` and `8 * s + 3` are its
/// pairs with the neighbours to the east, the south and the south-west.
#[derive(Clone, Copy, Debug, PartialEq, Eq, PartialOrd, Ord, Hash)]
pub struct Place(pub u64);

/// How a place goes on from its first site.
#[derive(Clone, Copy, Debug, PartialEq, Eq)]
pub enum Step {
    /// The site alone.
    Alone,
    /// To the neighbour in the next column.
    East,
    /// To the neighbour in the next row.
    South,
    /// To the neighbour in the next row and the column before, on the hexagonal lattice.
    SouthWest,
}

impl Step {
    /// The step's number within the places of a site.
    #[inline]
    fn number(self) -> u64
        ensures { result ≡ step_number self }
    {
        match self {
            Step::Alone => 0,
            Step::East => 1,
            Step::South => 2,
            Step::SouthWest => 3,
        }
    }
}

impl Place {
    /// The place of a site and a step.
    #[inline]
    pub fn at(site: SiteId, step: Step) -> Place
        ensures { result ≡ place_at site.0 step }
    {
        Place(8 * u64::from(site.0) + step.number())
    }

    /// The number of the first site.
    #[inline]
    pub fn site(self) -> u64
        ensures { result ≡ site_of_place self.0 }
    {
        self.0 / 8
    }

    /// How the place goes on from its first site; none where the number is no place of any lattice.
    #[inline]
    pub fn step(self) -> Option<Step>
        ensures { result ≡ step_of_place self.0 }
    {
        match self.0 % 8 {
            0 => Some(Step::Alone),
            1 => Some(Step::East),
            2 => Some(Step::South),
            3 => Some(Step::SouthWest),
            _ => None,
        }
    }
}
