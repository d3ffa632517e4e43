//! Laws of the counts of a surface.

ghost use Rattle.std.specs.Prelude.{◌≡◌, ◌*◌, ◌<◌, ℕ, List, All, length, sum};
ghost use Rattle.surf_kinds.specs.declared.site.SiteState.{SiteState};
ghost use Rattle.trace_text.specs.Lines.{cells_of, counts_of};

use surface_state::Surface;

/// Where each site has one of n species, the counts of the n species sum to the number of sites.
pub fn each_site_is_counted_once()
    ensures { (n : ℕ) (sites : List SiteState) → All (λ s. s.0 < n) (cells_of sites) → sum (counts_of sites n) ≡ length sites }
{}

/// So the counts in the text of a surface sum to the number of its sites.
pub fn counts_are_whole(surface: &Surface)
    ensures { sum (counts_of surface.now.sites surface.now.species_count) ≡ surface.now.lattice.rows * surface.now.lattice.cols }
{
    // What `cells` promises is all that this needs.
    let _cells = surface.cells();
}
