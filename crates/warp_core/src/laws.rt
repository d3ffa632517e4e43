//! Laws of the core, over its definitions alone, for every world that meets the laws of a simulation.

ghost use Rattle.std.specs.Prelude.{◌≡◌, ◌<◌, ◌≤◌, ◌+◌, ◌^◌, ◌++◌, ◌⊎◌, ℕ, List, [], Option, Bool, Some, length, slice_index_or, IsPermutation};
ghost use Rattle.ordered_commit.specs.Merge.{AreMergeable, all_events};
ghost use Rattle.surf_kinds.specs.declared.event.Event.{Event};
ghost use Rattle.surf_kinds.specs.declared.event.Key.{Key};
ghost use Rattle.surf_kinds.specs.declared.site.SiteState.{SiteState};
ghost use Rattle.surf_kinds.specs.Keys.{RiseStrictly, key_of, keep, below, from, ◌is_below◌, ◌is_upto◌};
ghost use Rattle.border.specs.declared.op.Op.{Op as Message};
ghost use Rattle.border.specs.Messages.{IsLawful};
ghost use Rattle.warp_core.specs.Messages.{partition_of};
ghost use Rattle.plan.specs.Network.{Network};
ghost use Rattle.regions.specs.Bands.{Bands, IsCut};
ghost use Rattle.warp_core.specs.World.{World, IsWorld, IsMonotone, Agree, is_own, after_all, end_key};
ghost use Rattle.warp_core.specs.Simulation.{world_of};
ghost use Rattle.warp_core.specs.Timelines.{IsLocal};
ghost use Rattle.warp_core.specs.Parts.{Part, PartStep, IsSound, IsNextEntry, HasNoEntry, MayRun, IsRun, after_take, take_puts, part_run, run_puts, run_takes};
ghost use Rattle.warp_core.specs.Cores.{Core, IsConsistent, base_of, first_core};
ghost use Rattle.warp_core.specs.declared.step.Step.{Step};
ghost use Rattle.warp_core.specs.Steps.{StepOf, StepsOf, IsPrefixOf, MayCommit, own_events_below, after_commit};
ghost use Rattle.warp_core.specs.Settling.{load, lag, AreTakes, AreEmpty, ArePast, TakesTo, IsLeastNext, IsLeastClock, IsPass, IsSettling, IsSettled};

/// At most one timeline is local: for given places, base surface, floor, incoming events and clock.
pub fn one_timeline_is_local()
    ensures { (w : World) (mine : Key → Bool) (base : List SiteState) (floor : Key) (ins : Key → Option Event) (clock : Key) (xs ys : List Event)
        → IsLocal w mine base floor ins clock xs → IsLocal w mine base floor ins clock ys → xs ≡ ys }
{}

/// A local timeline cut at a key is local below that key, also where other events come in from that key on.
pub fn a_cut_timeline_is_local()
    ensures { (w : World) (mine : Key → Bool) (base : List SiteState) (floor : Key) (ins other : Key → Option Event) (clock key : Key) (es : List Event)
        → IsLocal w mine base floor ins clock es → key is_upto clock → ((k : Key) → k is_below key → ins k ≡ other k) → IsLocal w mine base floor other key (below key es) }
{}

/// The first configuration is consistent.
pub fn the_first_is_consistent()
    ensures { (w : World) → IsConsistent w first_core }
{}

/// Fire keeps a configuration consistent.
pub fn fire_keeps_consistency()
    ensures { (w : World) → IsWorld w → (old new : Core) (i : ℕ) → IsConsistent w old → StepOf w old (Step.Fire i) new → IsConsistent w new }
{}

/// Pass keeps a configuration consistent.
pub fn pass_keeps_consistency()
    ensures { (w : World) → IsWorld w → (old new : Core) (i : ℕ) → IsConsistent w old → StepOf w old (Step.Pass i) new → IsConsistent w new }
{}

/// Take keeps a configuration consistent.
pub fn take_keeps_consistency()
    ensures { (w : World) → IsWorld w → (old new : Core) (j i : ℕ) → IsConsistent w old → StepOf w old (Step.Take j i) new → IsConsistent w new }
{}

/// Commit keeps a configuration consistent.
pub fn commit_keeps_consistency()
    ensures { (w : World) → IsWorld w → (old new : Core) (key : Key) → IsConsistent w old → StepOf w old (Step.Commit key) new → IsConsistent w new }
{}

/// After every list of steps from the first configuration the core is consistent.
pub fn every_list_of_steps()
    ensures { (w : World) → IsWorld w → (steps : List Step) (new : Core) → StepsOf w first_core steps new → IsConsistent w new }
{}

/// After every list of steps the committed events are the history below the horizon, and they only grow.
pub fn the_history_is_committed()
    ensures history { (w : World) → IsWorld w → (steps : List Step) (new : Core) → StepsOf w first_core steps new → new.committed ≡ below new.horizon w.history }
    ensures grows { (w : World) (old new : Core) (steps : List Step) → StepsOf w old steps new → IsPrefixOf old.committed new.committed }
{}

/// A region passes over a Put that isn't lawful for it, and puts nothing then. A Back below the floor acts as one at the
/// floor.
pub fn messages_are_tested()
    ensures passed_over { (w : World) (floor : Key) (i j : ℕ) (p : Part) (e : Event) → (IsLawful (partition_of w) j i floor e → ⊥) → after_take w floor i p j (Message.Put e) ≡ p }
    ensures nothing_put { (w : World) (floor : Key) (i j l : ℕ) (p : Part) (e : Event) → (IsLawful (partition_of w) j i floor e → ⊥) → take_puts w floor i p j (Message.Put e) l ≡ [] }
    ensures at_floor { (w : World) (floor key : Key) (i j : ℕ) (p : Part) → key is_below floor → after_take w floor i p j (Message.Back key) ≡ after_take w floor i p j (Message.Back floor) }
{}

/// A run of Fire, Pass and Take of one region, from a sound part, has four facts that need nothing of the other
/// regions: what it made of the stacks, that the part is sound, what it told, and that all of that was lawful.
pub fn a_run_keeps_a_part_sound()
    ensures { (w : World) → IsWorld w → (base : List SiteState) (floor : Key) (i : ℕ) (p : Part) (steps : List PartStep)
        → IsSound w base floor i p → MayRun w base floor i p steps
        → IsRun w base floor i p (part_run w floor i p steps) (run_takes steps) (run_puts w floor i p steps) }
{}

/// Where each region makes a run, and for every pair the channel before with what was put is what was taken with the
/// channel after, a consistent configuration is consistent again.
pub fn runs_join()
    ensures { (w : World) → IsWorld w → (c : Core) (steps : ℕ → List PartStep) (channel : ℕ → ℕ → List Message) → IsConsistent w c
        → ((i : ℕ) → i < w.regions → MayRun w (base_of w c) c.horizon i (c.part i) (steps i))
        → ((j i : ℕ) → j < w.regions → i < w.regions → c.channel j i ++ run_puts w c.horizon j (c.part j) (steps j) i ≡ run_takes (steps i) j ++ channel j i)
        → IsConsistent w (record c { part = λ i. part_run w c.horizon i (c.part i) (steps i); channel = channel }) }
{}

/// A part that is sound for one base is sound for every base that agrees with it at the sites that the region sees, has
/// the same next entry, and may make the same runs. A part whose floor moves up to a key that is at most its clock, and
/// that forgets the entries below the key, is sound for the surface after these.
pub fn a_base_may_move()
    ensures agree { (w : World) → IsWorld w → (i : ℕ) (a b : List SiteState) (floor : Key) (p : Part) → Agree w i a b → IsSound w a floor i p → IsSound w b floor i p }
    ensures next { (w : World) → IsWorld w → (i : ℕ) (a b : List SiteState) (p : Part) (e : Event) → Agree w i a b → IsNextEntry w a i p e → IsNextEntry w b i p e }
    ensures none { (w : World) → IsWorld w → (i : ℕ) (a b : List SiteState) (p : Part) → Agree w i a b → HasNoEntry w a i p → HasNoEntry w b i p }
    ensures run { (w : World) → IsWorld w → (a b : List SiteState) (floor : Key) (i : ℕ) (p : Part) (steps : List PartStep) → Agree w i a b → MayRun w a floor i p steps → MayRun w b floor i p steps }
    ensures raised { (w : World) (i : ℕ) (base : List SiteState) (floor key : Key) (p : Part) → floor is_upto key → key is_upto p.clock
        → IsSound w base floor i p → IsSound w (after_all w base (below key p.timeline)) key i (record p { timeline = from key p.timeline }) }
    ensures committed { (w : World) → IsWorld w → (c : Core) (key : Key) → IsConsistent w c → MayCommit w c key → (i : ℕ) → i < w.regions → (a : List SiteState) → Agree w i a (base_of w c)
        → Agree w i (after_all w a (below key (c.part i).timeline)) (base_of w (after_commit w c key)) }
{}

/// In a consistent configuration no place of a region offers an event before the region's clock. So a region may ask for
/// the first of all that its places offer, wherever its clock is.
pub fn offers_come_late()
    ensures { (w : World) → IsWorld w → IsMonotone w → (c : Core) (i : ℕ) → IsConsistent w c → i < w.regions
        → (p : ℕ) (e : Event) → w.owner p ≡ i → w.next p (after_all w (base_of w c) (c.part i).timeline) ≡ Some e → (c.part i).clock is_upto key_of e }
{}

/// The simulation on a lattice that is cut into regions is a world of the core, and its times rise.
pub fn the_simulation_is_a_world()
    ensures world { (n : Network) (b : Bands) (until : ℕ) (start : List SiteState) → IsCut b → b.lattice ≡ n.lattice → until ≤ 10 ^ 15 → IsWorld (world_of n b until start) }
    ensures monotone { (n : Network) (b : Bands) (until : ℕ) (start : List SiteState) → IsMonotone (world_of n b until start) }
{}

/// Each message that is taken makes the load less: the messages on their way, and the events of which other regions
/// were told. So there are no more Takes one after another than the load at first, and deliveries end.
pub fn deliveries_end()
    ensures falls { (w : World) (old new : Core) (j i : ℕ) → StepOf w old (Step.Take j i) new → load w new < load w old }
    ensures all { (w : World) (old new : Core) (steps : List Step) → AreTakes steps → StepsOf w old steps new → length steps + load w new ≤ load w old }
{}

/// Catching up ends. With all messages delivered let m be the least next key, below the end key. In a pass each region
/// that isn't past m makes one step; then all messages are delivered again. This makes the lag less as long as some
/// region isn't past m, and after two passes all are.
pub fn catching_up_ends()
    ensures begins { (w : World) → IsWorld w → (c : Core) (m : Key) → IsConsistent w c → AreEmpty w c → IsLeastNext w c w.regions m → m is_below end_key w → IsSettling w c c m }
    ensures goes_on { (w : World) → IsWorld w → (old start mid new : Core) (m : Key) → IsSettling w old start m → IsPass w m w.regions start mid → TakesTo w mid new → AreEmpty w new → IsSettling w old new m }
    ensures falls { (w : World) → IsWorld w → (old start mid new : Core) (m : Key) (i : ℕ) → IsSettling w old start m → IsPass w m w.regions start mid → TakesTo w mid new
        → i < w.regions → (start.part i).clock is_upto m → lag w new m < lag w start m }
    ensures two_passes { (w : World) → IsWorld w → (old start first next second new : Core) (m : Key) → IsSettling w old start m → IsPass w m w.regions start first → TakesTo w first next → AreEmpty w next
        → IsPass w m w.regions next second → TakesTo w second new → ArePast new m w.regions }
    ensures settled { (w : World) (old new : Core) (m : Key) → IsSettling w old new m → ArePast new m w.regions → IsSettled w old new }
{}

/// Once the core is settled, the least clock may be committed. What that hands out is the history's events from the
/// old horizon on and below the clock. It is at least one event, unless the clock is the end key; and the horizon
/// moves, unless it was there already.
pub fn a_settled_round_commits()
    ensures may { (w : World) (old new : Core) (k : Key) → IsSettled w old new → IsLeastClock w new k → MayCommit w new k }
    ensures handed { (w : World) → IsWorld w → (c : Core) (k : Key) → IsConsistent w c → MayCommit w c k → own_events_below w c k w.regions ≡ from c.horizon (below k w.history) }
    ensures some { (w : World) → IsWorld w → (old new : Core) (k : Key) → IsSettled w old new → IsLeastClock w new k → (k ≡ end_key w) ⊎ (own_events_below w new k w.regions ≡ [] → ⊥) }
    ensures moves { (w : World) (old new : Core) (k : Key) → IsSettled w old new → IsLeastClock w new k → new.horizon is_below end_key w → new.horizon is_below k }
{}

/// Lists with the own events of the regions below a key that may be committed, one list for each region, can be merged;
/// and merged they are what the core commits.
pub fn merged_lists_are_committed()
    ensures mergeable { (w : World) → IsWorld w → (c : Core) → IsConsistent w c → (k : Key) → MayCommit w c k → (lists : List (List Event)) → length lists ≡ w.regions
        → ((i : ℕ) → i < w.regions → slice_index_or lists i [] ≡ keep (is_own w i) (below k (c.part i).timeline)) → AreMergeable lists }
    ensures merged { (w : World) → IsWorld w → (c : Core) → IsConsistent w c → (k : Key) → MayCommit w c k → (lists : List (List Event)) → length lists ≡ w.regions
        → ((i : ℕ) → i < w.regions → slice_index_or lists i [] ≡ keep (is_own w i) (below k (c.part i).timeline))
        → (events : List Event) → IsPermutation (all_events lists) events → RiseStrictly events → events ≡ own_events_below w c k w.regions }
{}

/// The stacks of a consistent configuration may forget what lies below the horizon.
pub fn stacks_may_forget()
    ensures { (w : World) (c : Core) → IsConsistent w c
        → IsConsistent w (record c { part = λ i. record { timeline = (c.part i).timeline; clock = (c.part i).clock; stack = λ j. from c.horizon ((c.part i).stack j) } }) }
{}
