//! Laws of what firings reach, over the definitions alone.

ghost use Rattle.std.specs.Prelude.{◌≡◌, ◌≤◌, ◌+◌, ◌*◌, ℕ, List, None, take, map};
ghost use Rattle.surf_kinds.specs.declared.site.SiteState.{SiteState};
ghost use Rattle.surf_kinds.specs.declared.site.SpeciesId.{SpeciesId};
ghost use Rattle.lattice.specs.Surface.{after_all};
ghost use Rattle.plan.specs.Network.{Network};
ghost use Rattle.plan.specs.Next.{least};
ghost use Rattle.plan.specs.History.{history};
ghost use Rattle.reach.specs.Reach.{Reaches, IsAtRest, species_in, firing_of};
ghost use Rattle.reach.specs.Bounds.{AreLastBy, HaveRateOne};
ghost use Rattle.reach.specs.Counting.{CountsDown, UsesUp};

/// The species of the surface after the first events of a history are reached by the firings of these events.
pub fn prefixes_are_reached()
    ensures { (n : Network) (until k : ℕ) (sites : List SiteState)
        → Reaches n.lattice n.rules (species_in sites) (map firing_of (take k (history n until sites))) (species_in (after_all n.lattice n.rules sites (take k (history n until sites)))) }
{}

/// On a surface without a next event nothing can fire.
pub fn nothing_fires_at_the_end()
    ensures { (n : Network) (sites : List SiteState) → least n sites ≡ None → IsAtRest n.lattice n.rules (species_in sites) }
{}

/// Where all rates are 1 and each firing lowers a number by one until nothing can fire, a history has as many events as
/// that number, if its duration has room for as many of the longest waits.
pub fn work_is_used_up()
    ensures { (n : Network) (until time : ℕ) (work : List SpeciesId → ℕ) (sites : List SiteState)
        → CountsDown n.lattice n.rules (species_in sites) work → HaveRateOne n.rules → AreLastBy time sites
        → time + 44361420 * work (species_in sites) ≤ until
        → UsesUp n.lattice n.rules work sites (history n until sites) }
{}
