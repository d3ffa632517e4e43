//! The surface: what stands at the sites of a lattice.

ghost use Rattle.std.specs.Prelude.{◌≡◌, ◌+◌, ◌-◌, ◌*◌, ◌^◌, ◌<◌, ◌≤◌, ◌==◌, length, All, IfOk, IfSome, Some, map, slice_get, slice_set, count_by};
ghost use Rattle.lattice.specs.Places.{IsPlace};
ghost use Rattle.lattice.specs.Surface.{first_surface, rewrite as rewrite_by, HasRoom};
ghost use Rattle.surface_state.specs.Changes.{applied, undone, IsBefore, IsLeft, IsSecondOf, AreBelow, IsBelow};

use crate::before::{Before, Mark};
use crate::counts::{count_moved, counts_of};
use lattice::Lattice;
use std::alloc::Global;
use std::marker::Model;
use surf_kinds::{Event, NoMemory, SiteId, SiteState, SpeciesId};

/// A lattice with the state of each site. The species have the numbers below `species_count`, and the counts say how many
/// sites have each. Only `new` and `copy` take memory.
// The species stand in a column of their own: of a surface of a million sites it stays in cache, while version
// and last are read only at the sites that an event may change.
#[derive(Drop)]
pub struct Surface {
    lattice: Lattice,
    species: Vec<SpeciesId>,
    marks: Vec<Mark>,
    counts: Vec<u32>,
}

impl Model for Surface {
    ghost use Rattle.std.specs.Prelude.{length};
    ghost use Rattle.surface_state.specs.SurfaceView.{SurfaceView};
    ghost use Rattle.surface_state.specs.Columns.{states, AreColumns};

    ghost Value = { SurfaceView };

    ghost view = { λ s. record { lattice = s.lattice; species_count = length s.counts.items; sites = states s.species.items s.marks.items } };

    ghost invariant = { λ s. AreColumns s.lattice s.species.items s.marks.items s.counts.items };
}

impl Surface {
    /// The surface of these cells, on which no site was rewritten yet.
    pub fn new(
        alloc: Global,
        lattice: Lattice,
        cells: &[SpeciesId],
        species_count: u32,
    ) -> Result<Surface, NoMemory>
        requires cells { length cells.now ≡ lattice.rows * lattice.cols }
        requires species { All (λ s. s.0 < species_count) cells.now }
        requires species_count { species_count ≤ 4096 }
        ensures { IfOk result (λ s. s ≡ record { lattice = lattice; species_count = species_count; sites = first_surface cells.now }) }
    {
        let sites = lattice.site_count() as usize;
        let counts = counts_of(alloc, cells, species_count)?;
        let species = cells.to_vec(alloc)?;
        let fresh = Mark {
            version: 0,
            last: 0,
        };
        let marks = vec![in alloc; fresh; sites]?;
        Ok(Surface {
            lattice,
            species,
            marks,
            counts,
        })
    }

    /// An equal surface, in memory of its own.
    pub fn copy(&self) -> Result<Surface, NoMemory>
        ensures { IfOk result (λ s. s ≡ self.now) }
    {
        Ok(Surface {
            lattice: self.lattice,
            species: self.species.clone()?,
            marks: self.marks.clone()?,
            counts: self.counts.clone()?,
        })
    }

    pub fn lattice(&self) -> &Lattice
        ensures lattice { result.now ≡ self.now.lattice }
        ensures sites { length self.now.sites ≡ self.now.lattice.rows * self.now.lattice.cols }
    {
        &self.lattice
    }

    /// The number of species, at most 4,096.
    pub fn species_count(&self) -> u32
        ensures species_count { result ≡ self.now.species_count }
        ensures at_most { result ≤ 4096 }
        ensures below { All (λ s. s.species.0 < result) self.now.sites }
    {
        self.counts.len() as u32
    }

    /// The species at each site, row by row.
    pub fn cells(&self) -> &[SpeciesId]
        ensures cells { result.now ≡ map (λ s. s.species) self.now.sites }
        ensures sites { length result.now ≡ self.now.lattice.rows * self.now.lattice.cols }
        ensures below { All (λ s. s.0 < self.now.species_count) result.now }
    {
        &self.species
    }

    /// What stands at a site.
    pub fn state(&self, site: SiteId) -> SiteState
        requires { site.0 < self.now.lattice.rows * self.now.lattice.cols }
        ensures state { slice_get self.now.sites site.0 ≡ Some result }
        ensures below { result.species.0 < self.now.species_count }
    {
        let at = site.0 as usize;
        let mark = self.marks[at];
        SiteState {
            species: self.species[at],
            version: mark.version,
            last: mark.last,
        }
    }

    /// How many sites have the species.
    pub fn count(&self, species: SpeciesId) -> u32
        requires { species.0 < self.now.species_count }
        ensures { result ≡ count_by (λ s. s.species.0 == species.0) self.now.sites }
    {
        self.counts[usize::from(species.0)]
    }

    /// Rewrites the sites of the event's place: the first to the first species and, where the place is a pair, the
    /// second to the second. Each gets one more version, and the event's time as its last. Gives what stood there.
    pub fn apply(&mut self, event: Event, to: (SpeciesId, Option<SpeciesId>)) -> Before
        requires place { IsPlace self.old.lattice event.place.0 }
        requires pair { IsSecondOf self.old.lattice event.place.0 to.1 }
        requires species { AreBelow self.old.species_count to.0 to.1 }
        requires room { HasRoom self.old.lattice self.old.sites event.place.0 }
        ensures surface { self.new ≡ applied self.old event to }
        ensures event { result.event ≡ event }
        ensures stood { IsBefore self.old result }
        ensures pair { IsSecondOf self.old.lattice event.place.0 result.second }
        ensures below { IsBelow self.old.species_count result }
    {
        let place = self.lattice.sites_of(event.place).unwrap();
        let first = self.rewrite(place.first, to.0, event.time);
        let second = match (place.second, to.1) {
            (Some(site), Some(species)) => Some(self.rewrite(site, species, event.time)),
            _ => None,
        };
        Before {
            event,
            first,
            second,
        }
    }

    /// Takes an event back: what stood at the sites of its place before it stands there again, version and last
    /// with it. What the event left has to stand there still.
    pub fn undo(&mut self, before: Before)
        requires place { IsPlace self.old.lattice before.event.place.0 }
        requires pair { IsSecondOf self.old.lattice before.event.place.0 before.second }
        requires species { IsBelow self.old.species_count before }
        requires left { IsLeft self.old before }
        ensures { self.new ≡ undone self.old before }
    {
        let place = self.lattice.sites_of(before.event.place).unwrap();
        self.put(place.first, before.first);
        if let (Some(site), Some(state)) = (place.second, before.second) {
            self.put(site, state);
        }
    }

    /// Rewrites a site, also where it keeps its species. Gives what stood there.
    fn rewrite(&mut self, site: SiteId, species: SpeciesId, time: u64) -> SiteState
        requires site { site.0 < self.old.lattice.rows * self.old.lattice.cols }
        requires species { species.0 < self.old.species_count }
        requires room { IfSome (slice_get self.old.sites site.0) (λ s. s.version < 2 ^ 64 - 1) }
        ensures surface { self.new ≡ record self.old { sites = rewrite_by (λ _. species) time site.0 (slice_get self.old.sites site.0) self.old.sites } }
        ensures stood { slice_get self.old.sites site.0 ≡ Some result }
        ensures below { result.species.0 < self.old.species_count }
    {
        let old = self.state(site);
        let new = SiteState {
            species,
            version: old.version + 1,
            last: time,
        };
        self.put(site, new);
        old
    }

    /// Puts a state at a site, and counts again.
    fn put(&mut self, site: SiteId, state: SiteState)
        requires site { site.0 < self.old.lattice.rows * self.old.lattice.cols }
        requires species { state.species.0 < self.old.species_count }
        ensures { self.new ≡ record self.old { sites = slice_set self.old.sites site.0 state } }
    {
        let at = site.0 as usize;
        count_moved(&mut self.counts, self.species[at], state.species);
        self.species[at] = state.species;
        self.marks[at] = Mark {
            version: state.version,
            last: state.last,
        };
    }
}
