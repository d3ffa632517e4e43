//! Laws of regions and their runs, over their definitions alone.

ghost use Rattle.std.specs.Prelude.{◌≡◌, ◌<◌, ◌++◌, ℕ, List};
ghost use Rattle.surf_kinds.specs.declared.event.Key.{Key};
ghost use Rattle.surf_kinds.specs.declared.site.SiteState.{SiteState};
ghost use Rattle.surf_kinds.specs.Keys.{below, from, ◌is_upto◌};
ghost use Rattle.plan.specs.Network.{Network};
ghost use Rattle.regions.specs.Bands.{Bands};
ghost use Rattle.border.specs.declared.op.Op.{Op as Message};
ghost use Rattle.warp_core.specs.World.{IsWorld, Agree, after_all};
ghost use Rattle.warp_core.specs.Cores.{Core, IsConsistent, base_of};
ghost use Rattle.warp_core.specs.Parts.{PartStep, IsSound, MayRun, part_run, run_puts, run_takes};
ghost use Rattle.region_run.specs.declared.region.Region.{Region as TheRegion};
ghost use Rattle.region_run.specs.Regions.{Base, world_at, part_of, IsRegion};

use crate::region::Region;

/// The part of a region is sound for every base that agrees with its own at the sites that the region sees. Where its
/// floor moves up to a key that is at most its clock, and the entries below the key are forgotten, it is sound for the
/// surface after these.
pub fn a_base_may_move()
    ensures agree { (n : Network) (b : Bands) (until : ℕ) (x : Base) (r : TheRegion) → IsRegion n b until x r → (base : List SiteState) → Agree (world_at n b until x) r.id x.surface.sites base → IsSound (world_at n b until x) base x.floor r.id (part_of r) }
    ensures raised { (n : Network) (b : Bands) (until : ℕ) (x : Base) (r : TheRegion) (key : Key) → IsRegion n b until x r → x.floor is_upto key → key is_upto r.clock
        → IsSound (world_at n b until x) (after_all (world_at n b until x) x.surface.sites (below key (part_of r).timeline)) key r.id (record (part_of r) { timeline = from key (part_of r).timeline }) }
{}

/// Where each region makes a run over its own base, which agrees with the common one at the sites that it sees, and
/// for every pair the channel before with what was put is what was taken with the channel after, a consistent
/// configuration is consistent again.
pub fn runs_join()
    ensures { (n : Network) (b : Bands) (until : ℕ) (x : Base) → IsWorld (world_at n b until x) → (c : Core) (own_base : ℕ → List SiteState) (steps : ℕ → List PartStep) (channel : ℕ → ℕ → List Message)
        → IsConsistent (world_at n b until x) c
        → ((i : ℕ) → i < b.count → Agree (world_at n b until x) i (own_base i) (base_of (world_at n b until x) c))
        → ((i : ℕ) → i < b.count → MayRun (world_at n b until x) (own_base i) c.horizon i (c.part i) (steps i))
        → ((j i : ℕ) → j < b.count → i < b.count → c.channel j i ++ run_puts (world_at n b until x) c.horizon j (c.part j) (steps j) i ≡ run_takes (steps i) j ++ channel j i)
        → IsConsistent (world_at n b until x) (record c { part = λ i. part_run (world_at n b until x) c.horizon i (c.part i) (steps i); channel = channel }) }
{}

/// A value that may go to another thread.
fn needs_send<T: Send>(value: T) -> T
    ensures { result ≡ value }
{
    value
}

/// A region may go to another thread.
pub fn a_region_is_sent(region: Region) -> Region
    ensures { result ≡ region }
{
    needs_send(region)
}
