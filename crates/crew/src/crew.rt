//! The regions of a surface together.

ghost use Rattle.std.specs.Prelude.{ℕ, List};
ghost use Rattle.region_run.specs.declared.totals.Turn.{Turn as TheTurn};
ghost use Rattle.crew.specs.Crews.{CrewView, no_own_channel};

use crate::commit::{forget_all, gather, least_clock};
use crate::machine::Machine;
use crate::making::regions_of;
use crate::members::{deliver_in, make_room_in, step_in};
use crate::report::Sums;
use crate::settings::{CrewSettings, Report};
use crate::settling::settle;
use crate::turns::{look_at_all, prepare_all, turn_all};
use plan::Plan;
use region_run::Region;
use regions::laws::neighbours_are_told;
use regions::{Cut, Neighbours};
use std::alloc::Global;
use std::marker::Model;
use std::thread::Threads;
use surf_kinds::{Event, Key, NoMemory, Place};
use surf_outside::Gate;
use surface_state::Surface;

/// A plan, a cut and a start, with a region for each band.
#[derive(Drop)]
pub struct Crew {
    plan: Plan,
    cut: Cut,
    start: Surface,
    settings: CrewSettings,
    horizon: Key,
    rounds: u64,
    committed: u64,
    regions: Vec<Region>,
}

impl Model for Crew {
    ghost use Rattle.crew.specs.Crews.{CrewView, IsReady};

    ghost Value = { CrewView };

    ghost view = { λ c. record { network = c.plan; bands = c.cut; start = c.start; until = c.settings.until; quota = c.settings.quota; slots = c.settings.slots; horizon = c.horizon; rounds = c.rounds; committed = c.committed; regions = c.regions.items } };

    ghost invariant = { λ c. IsReady (record { network = c.plan; bands = c.cut; start = c.start; until = c.settings.until; quota = c.settings.quota; slots = c.settings.slots; horizon = c.horizon; rounds = c.rounds; committed = c.committed; regions = c.regions.items }) };
}

impl Machine for Crew {
    ghost use Rattle.std.specs.Prelude.{ℕ, List};
    ghost use Rattle.region_run.specs.declared.totals.Turn.{Turn};
    ghost use Rattle.crew.specs.Crews.{CrewView, world_in, core_in, rest_of};

    ghost world = { world_in };

    ghost core = { core_in };

    ghost Rest = { CrewView × List (ℕ × Turn) };

    ghost rest = { rest_of };

    fn regions(&self) -> u32 {
        self.cut.count()
    }

    fn neighbours(&self, region: u32) -> Neighbours {
        neighbours_are_told();
        self.cut.neighbours(region)
    }

    fn clock(&self, region: u32) -> Key {
        self.regions[region as usize].clock()
    }

    fn next_key(&self, region: u32) -> Key {
        self.regions[region as usize].next_key(self.settings.until)
    }

    fn end(&self) -> Key {
        Key {
            time: self.settings.until + 1,
            place: Place(0),
        }
    }

    fn deliver(&mut self, from: u32, to: u32) -> Result<bool, NoMemory> {
        self.make_room(to)?;
        Ok(self.give(from, to))
    }

    fn step_one(&mut self, region: u32) -> Result<(), NoMemory> {
        self.make_room(region)?;
        self.step(region);
        Ok(())
    }

    ghost apart = { no_own_channel };
}

impl Crew {
    ghost use Rattle.std.specs.Prelude.{All, ◌+◌, ◌≡◌, ◌≢◌, ◌<◌, ◌≤◌, ◌*◌, ◌^◌, ℕ, true, false, [], Some, length, slice_get, slice_index_or, OnOk, OnErr, IfOk};
    ghost use Rattle.surf_kinds.specs.Keys.{origin, from, below, ◌is_below◌};
    ghost use Rattle.plan.specs.Products.{LeavesWithin};
    ghost use Rattle.warp_core.specs.Configs.{IsFresh};
    ghost use Rattle.warp_core.specs.World.{end_key, IsWorld};
    ghost use Rattle.warp_core.specs.Cores.{Core, IsConsistent};
    ghost use Rattle.warp_core.specs.Steps.{StepOf};
    ghost use Rattle.warp_core.specs.declared.step.Step.{Step};
    ghost use Rattle.warp_core.specs.Settling.{IsSettled, IsUnderWay, AreEmpty, StepsOne};
    ghost use Rattle.region_run.specs.declared.region.Region.{Region as TheRegion};
    ghost use Rattle.region_run.specs.Runs.{HasSpare};
    ghost use Rattle.region_run.specs.Sides.{raised};
    ghost use Rattle.crew.specs.Crews.{world_in, core_in, rest_of, turns_of};
    ghost use Rattle.crew.specs.Rounds.{AreFirstRegions, HaveWorked};
    ghost use Rattle.crew.specs.Rings.{AreRinged};
    ghost use Rattle.crew.specs.Reports.{report_of};

    /// A crew at its start, over a surface that no event changed: a region for each band of the cut, and between
    /// neighbours a ring of so many slots each way. It keeps a copy of the start.
    pub fn new(
        alloc: Global,
        plan: Plan,
        start: &Surface,
        cut: Cut,
        settings: CrewSettings,
    ) -> Result<Crew, NoMemory>
        requires cut { cut.lattice ≡ plan.lattice }
        requires lattice { start.now.lattice ≡ plan.lattice }
        requires species { All (LeavesWithin start.now.species_count) plan.rules }
        requires fresh { All IsFresh start.now.sites }
        requires until { settings.until ≤ 10 ^ 15 }
        requires quota { (1 ≤ settings.quota) × (settings.quota ≤ 65536) }
        requires slots { (1 ≤ settings.slots) × (settings.slots ≤ 65536) }
        ensures given { IfOk result (λ c. c ≡ record { network = plan; bands = cut; start = start.now; until = settings.until; quota = settings.quota; slots = settings.slots; horizon = origin; rounds = 0; committed = 0; regions = c.regions }) }
        ensures first { IfOk result (λ c. AreFirstRegions plan cut start.now c.regions) }
        ensures rings { IfOk result (λ c. AreRinged cut settings.slots c.regions) }
    {
        prove!(cut.count() >= 1);
        let copy = start.copy()?;
        let regions = regions_of(alloc, &plan, &cut, start, settings.slots)?;
        Ok(Crew {
            plan,
            cut,
            start: copy,
            settings,
            horizon: Key {
                time: 0,
                place: Place(0),
            },
            rounds: 0,
            committed: 0,
            regions,
        })
    }

    /// Makes room in one of the regions for an entry and a message.
    fn make_room(&mut self, region: u32) -> Result<(), NoMemory>
        requires inside { region < self.old.bands.count }
        ensures same { core_in self.new ≡ core_in self.old }
        ensures rest { rest_of self.new ≡ rest_of self.old }
        ensures ok { OnOk result ((d : TheRegion) → HasSpare 1 (slice_index_or self.new.regions region d)) }
    {
        make_room_in(&mut self.regions, region, 1)
    }

    /// Delivers the first message of a channel, if there is one.
    fn give(&mut self, from: u32, to: u32) -> bool
        requires inside { (from < self.old.bands.count) × (to < self.old.bands.count) × (from ≢ to) }
        requires spare { (d : TheRegion) → HasSpare 1 (slice_index_or self.old.regions to d) }
        ensures rest { rest_of self.new ≡ rest_of self.old }
        ensures done { result ≡ true → StepOf (world_in self.old) (core_in self.old) (Step.Take from to) (core_in self.new) }
        ensures not_now { result ≡ false → (core_in self.new ≡ core_in self.old) × ((core_in self.old).channel from to ≡ []) }
    {
        deliver_in(&self.plan, &self.cut, &mut self.regions, from, to)
    }

    /// One step of a region.
    fn step(&mut self, region: u32)
        requires inside { region < self.old.bands.count }
        requires spare { (d : TheRegion) → HasSpare 1 (slice_index_or self.old.regions region d) }
        ensures rest { rest_of self.new ≡ rest_of self.old }
        ensures one { StepsOne (world_in self.old) (core_in self.old) region (core_in self.new) }
    {
        step_in(
            &self.plan,
            &self.cut,
            self.settings.until,
            &mut self.regions,
            region,
        );
    }

    /// The laws of the crew's world, and that it is consistent.
    fn is_a_world(&self)
        ensures world { IsWorld (world_in self.now) }
        ensures good { IsConsistent (world_in self.now) (core_in self.now) }
    {
        prove!(self.cut.count() >= 1);
    }

    /// Delivers every message; then the regions at or behind the least next key catch up. After NoMemory the horizon
    /// stays, and the crew may be used again.
    pub fn settle(&mut self) -> Result<(), NoMemory>
        ensures rest { rest_of self.new ≡ rest_of self.old }
        ensures settled { OnOk result (IsSettled (world_in self.old) (core_in self.old) (core_in self.new)) }
        ensures under_way { IsUnderWay (world_in self.old) (core_in self.old) (core_in self.new) }
    {
        self.is_a_world();
        settle(self)
    }

    /// Makes room in every region for a turn.
    fn prepare(&mut self) -> Result<(), NoMemory>
        ensures rest { rest_of self.new ≡ rest_of self.old }
        ensures same { core_in self.new ≡ core_in self.old }
        ensures ok { OnOk result ((i : ℕ) (d : TheRegion) → i < length self.new.regions → HasSpare (2 * self.new.quota) (slice_index_or self.new.regions i d)) }
    {
        prepare_all(&mut self.regions, self.settings.quota)
    }

    /// Lends each region to a worker for one turn, and looks at the rings once all have ended.
    fn work<R: Threads + Sync, G: Gate>(&mut self, rt: &R, gate: &G)
        requires spare { (i : ℕ) (d : TheRegion) → i < length self.old.regions → HasSpare (2 * self.old.quota) (slice_index_or self.old.regions i d) }
        ensures same { self.new ≡ record self.old { regions = self.new.regions } }
        ensures worked { HaveWorked self.old.quota self.old.regions self.new.regions }
    {
        turn_all(
            rt,
            gate,
            &self.plan,
            &self.cut,
            self.settings.quota,
            self.settings.until,
            self.rounds,
            &mut self.regions,
        );
        look_at_all(&mut self.regions);
    }

    /// Moves the horizon of a crew that is settled to the least clock, and hands out the events between.
    fn commit(&mut self) -> Result<Vec<Event>, NoMemory>
        requires settled { (c : Core) × IsSettled (world_in self.old) c (core_in self.old) }
        requires unfinished { self.old.horizon ≢ end_key (world_in self.old) }
        ensures handed { IfOk result (λ events. events.items ≡ from self.old.horizon (below self.new.horizon (world_in self.old).history)) }
        ensures some { IfOk result (λ events. events.items ≡ [] → self.new.horizon ≡ end_key (world_in self.old)) }
        ensures later { OnOk result (self.old.horizon is_below end_key (world_in self.old) → self.old.horizon is_below self.new.horizon) }
        ensures empty { OnOk result (AreEmpty (world_in self.new) (core_in self.new)) }
        ensures counted { IfOk result (λ events. rest_of self.new ≡ rest_of (record self.old { horizon = self.new.horizon; rounds = raised self.old.rounds 1; committed = raised self.old.committed (length events.items) })) }
        ensures err { OnErr result (self.new ≡ self.old) }
    {
        let key = least_clock(&self.regions);
        let events = gather(*self.regions.allocator(), &self.regions, key)?;
        forget_all(&mut self.regions, key);
        self.horizon = key;
        self.rounds = self.rounds.saturating_add(1);
        self.committed = self.committed.saturating_add(events.len() as u64);
        Ok(events)
    }

    /// Whether the horizon is the end key, `(until + 1, 0)`.
    pub fn finished(&self) -> bool
        ensures yes { result ≡ true → self.now.horizon ≡ end_key (world_in self.now) }
        ensures no { result ≡ false → self.now.horizon ≢ end_key (world_in self.now) }
    {
        self.horizon == self.end()
    }

    /// The key below which all events were handed out.
    pub fn horizon(&self) -> Key
        ensures { result ≡ self.now.horizon }
    {
        self.horizon
    }

    /// What the crew did so far. When it is finished, `committed` is the number of events of the whole history, and each
    /// entry that was fired was committed or cancelled.
    pub fn report(&self) -> Report
        ensures counts { result ≡ report_of self.now }
        ensures few { result.rounds ≤ result.committed + 1 }
        ensures all { self.now.horizon ≡ end_key (world_in self.now) → result.committed ≡ raised 0 (length (world_in self.now).history) }
        ensures balanced { self.now.horizon ≡ end_key (world_in self.now) → result.fired < 18446744073709551615 → result.fired ≡ result.committed + result.cancelled }
    {
        let sums = Sums::of(&self.regions);
        Report {
            regions: self.cut.count(),
            rounds: self.rounds,
            fired: sums.fired(),
            committed: self.committed,
            cancelled: sums.cut,
        }
    }

    /// One round of a crew that isn't finished: each region takes a turn on a worker of its own, then all settle, and the
    /// history's events from the old horizon on and below the new one are handed out. After NoMemory no event is, the
    /// horizon stays, and `round` may be called again.
    pub fn round<R: Threads + Sync, G: Gate>(
        &mut self,
        rt: &R,
        gate: &G,
    ) -> Result<Vec<Event>, NoMemory>
        requires unfinished { self.old.horizon ≢ end_key (world_in self.old) }
        ensures events { IfOk result (λ events. events.items ≡ from self.old.horizon (below self.new.horizon (world_in self.old).history)) }
        ensures some { IfOk result (λ events. events.items ≡ [] → self.new.horizon ≡ end_key (world_in self.old)) }
        ensures later { OnOk result (self.old.horizon is_below self.new.horizon) }
        ensures empty { OnOk result (AreEmpty (world_in self.new) (core_in self.new)) }
        ensures turns { OnOk result (HaveWorked self.old.quota self.old.regions self.new.regions) }
        ensures counted { IfOk result (λ events. self.new ≡ record self.old { horizon = self.new.horizon; rounds = raised self.old.rounds 1; committed = raised self.old.committed (length events.items); regions = self.new.regions }) }
        ensures err { OnErr result (self.new ≡ record self.old { regions = self.new.regions }) }
        ensures consistent { IsConsistent (world_in self.new) (core_in self.new) }
    {
        self.is_a_world();
        self.prepare()?;
        self.work(rt, gate);
        self.settle()?;
        let events = self.commit()?;
        self.is_a_world();
        Ok(events)
    }
}
