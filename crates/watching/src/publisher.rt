//! The changes of a run's events, published round by round.

ghost use Rattle.std.specs.Prelude.{◌≡◌, ℕ, ◌+◌, ◌-◌, ◌*◌, ◌^◌, ◌<◌, ◌≤◌, ◌++◌, ◌∷◌, [], List, All, length, vec_len, true, slice_set, IfOk, IfSome, OnOk};
ghost use Rattle.surf_kinds.specs.declared.event.Event.{Event as TheEvent};
ghost use Rattle.surf_kinds.specs.declared.site.SiteState.{SiteState as TheSite};
ghost use Rattle.lattice.specs.Surface.{after};
ghost use Rattle.plan.specs.Network.{Network};
ghost use Rattle.plan.specs.Products.{LeavesWithin, fits_place};
ghost use Rattle.plan.specs.History.{AreNext};
ghost use Rattle.trace_text.specs.Lines.{cells_of, count_of, counts_of};
ghost use Rattle.watching.specs.Changes.{species_at, second_change, second_cells, change_of as the_change_of};
ghost use Rattle.watching.specs.Published.{HasAdded, HasPublished};

use crate::observer::Observer;
use frames::{Change, FrameReader, FrameWriter, frames};
use plan::Plan;
use std::alloc::Global;
use std::sync::Wait;
use surf_kinds::{Event, NoMemory, SiteId, SpeciesId};
use surface_state::Surface;

/// The writer of a run's frames, with the species at each site. It can't be dropped: [`Publisher::end`] uses it up.
pub struct Publisher {
    pub(crate) writer: FrameWriter,
    pub(crate) cells: Vec<SpeciesId>,
}

/// How many sites of a surface have a species.
fn count_at(surface: &Surface, species: u32) -> u64
    requires { species < surface.now.species_count }
    ensures { result ≡ count_of surface.now.sites species }
{
    prove!(surface.species_count() <= 4096);
    u64::from(surface.count(SpeciesId(species as u16)))
}

/// How many sites of a surface have each species.
fn counts_of_surface(alloc: Global, surface: &Surface) -> Result<Vec<u64>, NoMemory>
    ensures { IfOk result (λ counts. counts.items ≡ counts_of surface.now.sites surface.now.species_count) }
{
    let mut counts = Vec::new(alloc);
    for species in 0..surface.species_count() {
        counts.push(count_at(surface, species))?;
    }
    Ok(counts)
}

/// Puts another species at a site, and answers the old one.
fn put(cells: &mut [SpeciesId], site: SiteId, species: SpeciesId) -> SpeciesId
    requires { site.0 < length cells.old }
    ensures old { result ≡ species_at cells.old site.0 }
    ensures new { cells.new ≡ slice_set cells.old site.0 species }
{
    let at = site.0 as usize;
    let old = cells[at];
    cells[at] = species;
    old
}

/// Puts another species at the second site of a place, where there is one, and answers the old one and the new one.
fn put_second(
    cells: &mut [SpeciesId],
    site: Option<SiteId>,
    species: Option<SpeciesId>,
) -> Option<(SpeciesId, SpeciesId)>
    requires { IfSome site (λ s. s.0 < length cells.old) }
    ensures change { result ≡ second_change cells.old site species }
    ensures cells { cells.new ≡ second_cells cells.old site species }
{
    match (site, species) {
        (Some(site), Some(species)) => Some((put(cells, site, species), species)),
        _ => None,
    }
}

/// What an event does, which happens at the sites of a surface of which these are the species.
fn happen(plan: &Plan, cells: &mut [SpeciesId], event: Event) -> Change
    requires fits { fits_place plan.now event.place.0 event.channel ≡ true }
    requires long { length cells.old ≡ plan.now.lattice.rows * plan.now.lattice.cols }
    ensures change { (sites : List TheSite) → cells.old ≡ cells_of sites → result ≡ the_change_of plan.now.lattice plan.now.rules sites event }
    ensures cells { (sites : List TheSite) → cells.old ≡ cells_of sites → cells.new ≡ cells_of (after plan.now.lattice plan.now.rules sites event) }
{
    let place = plan.lattice().sites_of(event.place).unwrap();
    let to = plan.products(event.channel);
    let old = put(cells, place.first, to.0);
    let second = put_second(cells, place.second, to.1);
    Change {
        time: event.time,
        out1: old,
        in1: to.0,
        second,
    }
}

impl Publisher {
    /// A publisher that has published the counts of a surface, and readers of it.
    pub fn open<R: Wait>(
        rt: &R,
        alloc: Global,
        surface: &Surface,
        viewers: u32,
    ) -> Result<(Publisher, Vec<FrameReader>), NoMemory>
        requires at_least { 1 ≤ viewers }
        requires at_most { viewers ≤ 16 }
        ensures published { IfOk result (λ ends. (n : Network) → n.lattice ≡ surface.now.lattice → All (LeavesWithin surface.now.species_count) n.rules → HasPublished n surface.now.sites [] ends.0) }
        ensures kinds { IfOk result (λ ends. length ends.0.writer.name.start ≡ surface.now.species_count) }
        ensures number { IfOk result (λ ends. vec_len ends.1 ≡ viewers) }
        ensures readers { IfOk result (λ ends. All (λ r. r ≡ record { writer = ends.0.writer.name; longest = [] }) ends.1.items) }
    {
        prove!(surface.lattice().site_count() >= 1);
        let cells = surface.cells().to_vec(alloc)?;
        let counts = counts_of_surface(alloc, surface)?;
        let (writer, readers) = frames(rt, alloc, counts.as_slice(), viewers)?;
        Ok((Publisher { writer, cells }, readers))
    }

    /// Adds the change of the next event.
    fn add(&mut self, plan: &Plan, event: Event) -> Result<(), NoMemory>
        requires next { (until : ℕ) × (first : List TheSite) × (es : List TheEvent) × HasAdded plan.now first es self.old × AreNext plan.now until first (es ++ event ∷ []) × (length es < 2 ^ 64 - 1) }
        ensures name { self.new.writer.name ≡ self.old.writer.name }
        ensures published { self.new.writer.published ≡ self.old.writer.published }
        ensures added { OnOk result ((until : ℕ) (first : List TheSite) (es : List TheEvent) → HasAdded plan.now first es self.old → AreNext plan.now until first (es ++ event ∷ []) → HasAdded plan.now first (es ++ event ∷ []) self.new) }
    {
        let change = happen(plan, &mut self.cells, event);
        self.writer.add(change)
    }

    /// Adds the changes of the next events.
    fn add_all(&mut self, plan: &Plan, events: &[Event]) -> Result<(), NoMemory>
        requires next { (until : ℕ) × (first : List TheSite) × (es : List TheEvent) × HasAdded plan.now first es self.old × AreNext plan.now until first (es ++ events.now) × (length es + length events.now < 2 ^ 64 - 1) }
        ensures name { self.new.writer.name ≡ self.old.writer.name }
        ensures added { OnOk result ((until : ℕ) (first : List TheSite) (es : List TheEvent) → HasAdded plan.now first es self.old → AreNext plan.now until first (es ++ events.now) → HasAdded plan.now first (es ++ events.now) self.new) }
    {
        for event in events {
            self.add(plan, *event)?;
        }
        Ok(())
    }

    /// Ends the writer. It waits for readers, and takes no memory.
    pub fn end<R: Wait>(self, rt: &R) {
        let Publisher {
            writer,
            cells: _cells,
        } = self;
        writer.end(rt);
    }
}

impl<R: Wait> Observer<R> for Publisher {
    ghost use Rattle.frames.specs.Ends.{WriterName};
    ghost use Rattle.watching.specs.Published.{HasPublished};

    ghost has_seen = { λ p n first es. HasPublished n first es p };

    ghost Mark = { WriterName };

    ghost mark = { λ p. p.writer.name };

    fn saw(&mut self, rt: &R, plan: &Plan, events: &[Event]) -> Result<(), NoMemory> {
        self.add_all(plan, events)?;
        self.writer.publish(rt);
        Ok(())
    }
}
