//! Laws of crews, over their definitions alone.

ghost use Rattle.std.specs.Prelude.{◌≡◌, ◌<◌, ◌⊎◌, ℕ, List, [], IsPermutation};
ghost use Rattle.surf_kinds.specs.declared.event.Key.{Key};
ghost use Rattle.surf_kinds.specs.Keys.{below, from, RiseStrictly};
ghost use Rattle.ordered_commit.specs.Merge.{all_events, AreMergeable};
ghost use Rattle.warp_core.specs.Cores.{Core, IsConsistent};
ghost use Rattle.crew.specs.Crews.{CrewView, IsCrew, world_in, core_in, base_at};
ghost use Rattle.crew.specs.Rounds.{AreFirst, Worked, AllWorked, IsOne, IsTwo, Stepped, AllCommitted, AreOwnLists, IsLeastOf};
ghost use Rattle.warp_core.specs.Parts.{PartStep, step_takes};
ghost use Rattle.warp_core.specs.Steps.{StepOf, MayCommit};
ghost use Rattle.warp_core.specs.declared.step.Step.{Step};
ghost use Rattle.warp_core.specs.Settling.{StepsOne, IsSettled, IsLeastClock};
ghost use Rattle.surf_kinds.specs.declared.event.Event.{Event};
ghost use Rattle.surface_state.specs.SurfaceView.{SurfaceView};
ghost use Rattle.region_run.specs.declared.region.Region.{Region};
ghost use Rattle.region_run.specs.declared.totals.Turn.{Turn};
ghost use Rattle.region_run.specs.Regions.{Base};
ghost use Rattle.region_run.specs.Turns.{IsTurn};
ghost use Rattle.region_run.specs.Deliveries.{IsSame, IsDelivery, IsNoDelivery};
ghost use Rattle.plan.specs.Network.{Network};
ghost use Rattle.regions.specs.Bands.{Bands};

use crate::crew::Crew;

/// At the start it is a crew, and consistent.
pub fn crews_begin()
    ensures crew { (v : CrewView) → AreFirst v → IsCrew v (λ _. []) (λ _. v.start) }
    ensures consistent { (v : CrewView) → AreFirst v → IsConsistent (world_in v) (core_in v) }
{}

/// A turn is work: steps of the core, of which the Takes took what the rings handed out.
pub fn a_turn_is_work()
    ensures { (n : Network) (b : Bands) (until : ℕ) (x : Base) (quota : ℕ) (r t : Region) (turn : Turn) → IsTurn n b until x quota r t turn → Worked n b until x r t }
{}

/// Where all regions worked side by side and then the rings between them were looked at, it is a crew again, and
/// consistent.
pub fn turns_join()
    ensures crew { (v : CrewView) (past : ℕ → List Event) (base : ℕ → SurfaceView) (rs : List Region) → IsCrew v past base → AllWorked v past base rs → IsCrew (record v { regions = rs }) past base }
    ensures consistent { (v : CrewView) (past : ℕ → List Event) (base : ℕ → SurfaceView) (rs : List Region) → IsCrew v past base → AllWorked v past base rs
        → IsConsistent (world_in v) (core_in v) → IsConsistent (world_in v) (core_in (record v { regions = rs })) }
{}

/// A step of one region that takes no message is one of the core; and where a region has another room only, the
/// configuration is the same.
pub fn a_step_is_one_of_the_core()
    ensures one { (v : CrewView) (past : ℕ → List Event) (base : ℕ → SurfaceView) (rs : List Region) (i : ℕ) (r t : Region) (step : PartStep) → IsCrew v past base → IsOne v.regions rs i r t → i < v.bands.count
        → Stepped v.network v.bands v.until (base_at v past base i) r step t → ((l : ℕ) → step_takes step l ≡ []) → StepsOne (world_in v) (core_in v) i (core_in (record v { regions = rs })) }
    ensures crew { (v : CrewView) (past : ℕ → List Event) (base : ℕ → SurfaceView) (rs : List Region) (i : ℕ) (r t : Region) (step : PartStep) → IsCrew v past base → IsOne v.regions rs i r t
        → Stepped v.network v.bands v.until (base_at v past base i) r step t → IsCrew (record v { regions = rs }) past base }
    ensures same { (v : CrewView) (past : ℕ → List Event) (base : ℕ → SurfaceView) (rs : List Region) (i : ℕ) (r t : Region) → IsCrew v past base → IsOne v.regions rs i r t → IsSame r t → core_in (record v { regions = rs }) ≡ core_in v }
    ensures same_crew { (v : CrewView) (past : ℕ → List Event) (base : ℕ → SurfaceView) (rs : List Region) (i : ℕ) (r t : Region) → IsCrew v past base → IsOne v.regions rs i r t → IsSame r t → IsCrew (record v { regions = rs }) past base }
{}

/// A delivery is a Take of the core; where there was no message, the configuration is the same and the channel empty.
pub fn a_delivery_is_a_take()
    ensures take { (v : CrewView) (past : ℕ → List Event) (base : ℕ → SurfaceView) (rs : List Region) (j i : ℕ) (f t g u : Region) → IsCrew v past base → IsTwo v.regions rs j i f t g u
        → IsDelivery v.network v.bands v.until (base_at v past base i) f t g u → j < v.bands.count → i < v.bands.count → StepOf (world_in v) (core_in v) (Step.Take j i) (core_in (record v { regions = rs })) }
    ensures crew { (v : CrewView) (past : ℕ → List Event) (base : ℕ → SurfaceView) (rs : List Region) (j i : ℕ) (f t g u : Region) → IsCrew v past base → IsTwo v.regions rs j i f t g u
        → IsDelivery v.network v.bands v.until (base_at v past base i) f t g u → IsCrew (record v { regions = rs }) past base }
    ensures none { (v : CrewView) (past : ℕ → List Event) (base : ℕ → SurfaceView) (rs : List Region) (j i : ℕ) (f t g u : Region) → IsCrew v past base → IsTwo v.regions rs j i f t g u
        → IsNoDelivery f t g u → core_in (record v { regions = rs }) ≡ core_in v }
    ensures empty { (v : CrewView) (past : ℕ → List Event) (base : ℕ → SurfaceView) (rs : List Region) (j i : ℕ) (f t g u : Region) → IsCrew v past base → IsTwo v.regions rs j i f t g u
        → IsNoDelivery f t g u → (core_in v).channel j i ≡ [] }
    ensures none_crew { (v : CrewView) (past : ℕ → List Event) (base : ℕ → SurfaceView) (rs : List Region) (j i : ℕ) (f t g u : Region) → IsCrew v past base → IsTwo v.regions rs j i f t g u
        → IsNoDelivery f t g u → IsCrew (record v { regions = rs }) past base }
{}

/// At a key that may be committed, which the least of the clocks is once the crew is settled, the regions' lists can be
/// merged, and merged they are the history's events from the horizon on and below the key. Once all regions forgot the
/// entries below the key, it is a crew again at that horizon, and consistent.
pub fn a_commit_hands_out_the_history()
    ensures least { (v : CrewView) (past : ℕ → List Event) (base : ℕ → SurfaceView) (k : Key) → IsCrew v past base → IsLeastOf v.regions k → IsLeastClock (world_in v) (core_in v) k }
    ensures mergeable { (v : CrewView) (past : ℕ → List Event) (base : ℕ → SurfaceView) (k : Key) (lists : List (List Event)) → IsCrew v past base → IsConsistent (world_in v) (core_in v) → MayCommit (world_in v) (core_in v) k
        → AreOwnLists v k lists → AreMergeable lists }
    ensures handed { (v : CrewView) (past : ℕ → List Event) (base : ℕ → SurfaceView) (k : Key) (lists : List (List Event)) (events : List Event) → IsCrew v past base → IsConsistent (world_in v) (core_in v) → MayCommit (world_in v) (core_in v) k
        → AreOwnLists v k lists → IsPermutation (all_events lists) events → RiseStrictly events → events ≡ from v.horizon (below k (world_in v).history) }
    ensures consistent { (v : CrewView) (past : ℕ → List Event) (base : ℕ → SurfaceView) (k : Key) (rs : List Region) → IsCrew v past base → IsConsistent (world_in v) (core_in v) → MayCommit (world_in v) (core_in v) k
        → AllCommitted v past base k rs → IsConsistent (world_in v) (core_in (record v { horizon = k; regions = rs })) }
    ensures crew { (v : CrewView) (past : ℕ → List Event) (base : ℕ → SurfaceView) (k : Key) (rs : List Region) → IsCrew v past base → IsConsistent (world_in v) (core_in v) → MayCommit (world_in v) (core_in v) k
        → AllCommitted v past base k rs → (past_then : ℕ → List Event) × (base_then : ℕ → SurfaceView) × IsCrew (record v { horizon = k; regions = rs }) past_then base_then }
{}

/// A value that may go to another thread.
fn needs_send<T: Send>(value: T) -> T
    ensures { result ≡ value }
{
    value
}

/// A crew may go to another thread.
pub fn a_crew_is_sent(crew: Crew) -> Crew
    ensures { result ≡ crew }
{
    needs_send(crew)
}
