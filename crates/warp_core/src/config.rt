//! A configuration of the core: the regions, the horizon, and what is committed.

ghost use Rattle.std.specs.Prelude.{◌≡◌};

use crate::commit::{forget_all, may_commit, own_lists};
use crate::next::next_entry;
use crate::region::{Region, first_regions};
use crate::step::{Did, Step};
use border::Op;
use ordered_commit::merge;
use plan::Plan;
use regions::Cut;
use std::alloc::Global;
use surf_kinds::{Event, Key, NoMemory, Place};
use surface_state::Surface;

/// Regions that run ahead of one another, and the events that are final.
#[derive(Drop)]
pub struct Config {
    alloc: Global,
    cut: Cut,
    until: u64,
    horizon: Key,
    committed: Vec<Event>,
    regions: Vec<Region>,
}

impl Config {
    ghost use Rattle.std.specs.Prelude.{◌≡◌, ◌≢◌, ◌^◌, ◌<◌, ◌≤◌, ℕ, All, IfOk, OnErr, IfSome, IfNone, take};
    ghost use Rattle.surf_kinds.specs.Keys.{below};
    ghost use Rattle.plan.specs.Network.{Network};
    ghost use Rattle.plan.specs.History.{history};
    ghost use Rattle.lattice.specs.Surface.{first_surface};
    ghost use Rattle.warp_core.specs.Simulation.{Setting, world_in};
    ghost use Rattle.warp_core.specs.Parts.{IsNextEntry, HasNoEntry};
    ghost use Rattle.warp_core.specs.Cores.{base_of, first_core};
    ghost use Rattle.warp_core.specs.Steps.{IsPrefixOf};
    ghost use Rattle.plan.specs.Products.{LeavesWithin};
    ghost use Rattle.warp_core.specs.declared.step.Step.TheVariants.{Fire, Pass, Take, Commit};
    ghost use Rattle.warp_core.specs.Configs.{core_of, region_count, setting_of, IsFresh, IsConfigOf, NamesRegions, Makes, Tries};

    /// The first configuration: no events, no messages, and all clocks at the first key.
    pub fn new(
        alloc: Global,
        plan: &Plan,
        start: &Surface,
        cut: Cut,
        until: u64,
    ) -> Result<Config, NoMemory>
        requires lattice { start.now.lattice ≡ plan.now.lattice }
        requires cut { cut.lattice ≡ plan.now.lattice }
        requires species { All (LeavesWithin start.now.species_count) plan.now.rules }
        requires fresh { All IsFresh start.now.sites }
        requires until { until ≤ 10 ^ 15 }
        ensures first { IfOk result (λ c. core_of c ≡ first_core) }
        ensures config { IfOk result (IsConfigOf plan.now (setting_of cut until start.now)) }
        ensures count { IfOk result (λ c. region_count c ≡ cut.count) }
    {
        let regions = first_regions(alloc, start, cut.count())?;
        Ok(Config {
            alloc,
            cut,
            until,
            horizon: Key {
                time: 0,
                place: Place(0),
            },
            committed: Vec::new(alloc),
            regions,
        })
    }

    /// Makes a step, where its condition holds. After NotNow and after an error the configuration is as it was.
    pub fn step(&mut self, plan: &Plan, step: Step) -> Result<Did, NoMemory>
        requires config { (s : Setting) × IsConfigOf plan.now s self.old }
        requires regions { NamesRegions (region_count self.old) step }
        ensures made { (s : Setting) → IsConfigOf plan.now s self.old → Makes (world_in plan.now s) (core_of self.old) step result (core_of self.new) }
        ensures kept { (s : Setting) → IsConfigOf plan.now s self.old → IsConfigOf plan.now s self.new }
        ensures grows { IsPrefixOf (core_of self.old).committed (core_of self.new).committed }
        ensures count { region_count self.new ≡ region_count self.old }
    {
        match step {
            Step::Fire { region } => self.fire(plan, region),
            Step::Pass { region } => self.pass(plan, region),
            Step::Take { from, to } => self.take(plan, from, to),
            Step::Commit { key } => self.commit(key),
        }
    }

    /// Makes steps one after the other, and answers how many were Done. After an error the steps before one of them
    /// have been tried.
    pub fn run_steps(&mut self, plan: &Plan, steps: &[Step]) -> Result<u64, NoMemory>
        requires config { (s : Setting) × IsConfigOf plan.now s self.old }
        requires regions { All (NamesRegions (region_count self.old)) steps.now }
        ensures tried { (s : Setting) → IsConfigOf plan.now s self.old → IfOk result (λ done. Tries (world_in plan.now s) (core_of self.old) steps.now done (core_of self.new)) }
        ensures err { (s : Setting) → IsConfigOf plan.now s self.old → OnErr result ((taken : ℕ) × (done : ℕ) × Tries (world_in plan.now s) (core_of self.old) (take taken steps.now) done (core_of self.new)) }
        ensures kept { (s : Setting) → IsConfigOf plan.now s self.old → IsConfigOf plan.now s self.new }
        ensures grows { IsPrefixOf (core_of self.old).committed (core_of self.new).committed }
        ensures count { region_count self.new ≡ region_count self.old }
    {
        let mut done = 0;
        for step in steps {
            let did = self.step(plan, *step)?;
            done += did.count();
        }
        Ok(done)
    }

    /// The events that are final, in the order of their keys: the history below the horizon.
    pub fn committed(&self) -> &[Event]
        ensures events { result.now ≡ (core_of self.now).committed }
        ensures history { (n : Network) (s : Setting) → IsConfigOf n s self.now → result.now ≡ below (core_of self.now).horizon (history n s.until (first_surface s.cells)) }
    {
        &self.committed
    }

    /// The key below which all events are committed.
    pub fn horizon(&self) -> Key
        ensures { result ≡ (core_of self.now).horizon }
    {
        self.horizon
    }

    /// The clock of a region.
    pub fn clock(&self, region: u32) -> Key
        requires { region < region_count self.now }
        ensures { result ≡ ((core_of self.now).part region).clock }
    {
        self.regions[region as usize].clock
    }

    /// The messages on their way from one region to another, the first one first.
    pub fn channel(&self, from: u32, to: u32) -> &[Op]
        requires from { from < region_count self.now }
        requires to { to < region_count self.now }
        requires config { (n : Network) × (s : Setting) × IsConfigOf n s self.now }
        ensures { result.now ≡ (core_of self.now).channel from to }
    {
        self.regions[from as usize].outboxes[to as usize].as_slice()
    }

    /// The next entry of a region.
    fn next_entry(&self, plan: &Plan, region: u32) -> Option<Event>
        requires config { (s : Setting) × IsConfigOf plan.now s self.now }
        requires region { region < region_count self.now }
        ensures some { (s : Setting) → IsConfigOf plan.now s self.now → IfSome result (IsNextEntry (world_in plan.now s) (base_of (world_in plan.now s) (core_of self.now)) region ((core_of self.now).part region)) }
        ensures none { (s : Setting) → IsConfigOf plan.now s self.now → IfNone result (HasNoEntry (world_in plan.now s) (base_of (world_in plan.now s) (core_of self.now)) region ((core_of self.now).part region)) }
    {
        let here = &self.regions[region as usize];
        next_entry(
            plan,
            &self.cut,
            region,
            &here.surface,
            &here.stacks,
            here.clock,
            self.until,
        )
    }

    /// A region fires: applies its next entry, where that is an own event, and tells the others.
    fn fire(&mut self, plan: &Plan, region: u32) -> Result<Did, NoMemory>
        requires config { (s : Setting) × IsConfigOf plan.now s self.old }
        requires region { region < region_count self.old }
        ensures made { (s : Setting) → IsConfigOf plan.now s self.old → Makes (world_in plan.now s) (core_of self.old) (Fire region) result (core_of self.new) }
        ensures kept { (s : Setting) → IsConfigOf plan.now s self.old → IsConfigOf plan.now s self.new }
    {
        match self.next_entry(plan, region) {
            None => Ok(Did::NotNow),
            Some(event) => self.fire_entry(plan, region, event),
        }
    }

    /// A region passes: applies its next entry, where that is a received event, or goes to the end.
    fn pass(&mut self, plan: &Plan, region: u32) -> Result<Did, NoMemory>
        requires config { (s : Setting) × IsConfigOf plan.now s self.old }
        requires region { region < region_count self.old }
        ensures made { (s : Setting) → IsConfigOf plan.now s self.old → Makes (world_in plan.now s) (core_of self.old) (Pass region) result (core_of self.new) }
        ensures kept { (s : Setting) → IsConfigOf plan.now s self.old → IsConfigOf plan.now s self.new }
    {
        match self.next_entry(plan, region) {
            None => {
                self.regions[region as usize].clock = Key {
                    time: self.until + 1,
                    place: Place(0),
                };
                Ok(Did::Done)
            }
            Some(event) => self.pass_entry(plan, region, event),
        }
    }

    /// Applies the next entry of a region, where it is an own event, and tells the others.
    fn fire_entry(&mut self, plan: &Plan, region: u32, event: Event) -> Result<Did, NoMemory>
        requires next { (s : Setting) × IsConfigOf plan.now s self.old × IsNextEntry (world_in plan.now s) (base_of (world_in plan.now s) (core_of self.old)) region ((core_of self.old).part region) event }
        requires region { region < region_count self.old }
        ensures made { (s : Setting) → IsConfigOf plan.now s self.old → IsNextEntry (world_in plan.now s) (base_of (world_in plan.now s) (core_of self.old)) region ((core_of self.old).part region) event
            → Makes (world_in plan.now s) (core_of self.old) (Fire region) result (core_of self.new) }
        ensures kept { (s : Setting) → IsConfigOf plan.now s self.old → IsNextEntry (world_in plan.now s) (base_of (world_in plan.now s) (core_of self.old)) region ((core_of self.old).part region) event
            → IsConfigOf plan.now s self.new }
    {
        let cut = self.cut;
        if cut.owner(event.place) != region {
            return Ok(Did::NotNow);
        }
        self.regions[region as usize].enter(plan, &cut, event, true)?;
        Ok(Did::Done)
    }

    /// Applies the next entry of a region, where it is a received event.
    fn pass_entry(&mut self, plan: &Plan, region: u32, event: Event) -> Result<Did, NoMemory>
        requires next { (s : Setting) × IsConfigOf plan.now s self.old × IsNextEntry (world_in plan.now s) (base_of (world_in plan.now s) (core_of self.old)) region ((core_of self.old).part region) event }
        requires region { region < region_count self.old }
        ensures made { (s : Setting) → IsConfigOf plan.now s self.old → IsNextEntry (world_in plan.now s) (base_of (world_in plan.now s) (core_of self.old)) region ((core_of self.old).part region) event
            → Makes (world_in plan.now s) (core_of self.old) (Pass region) result (core_of self.new) }
        ensures kept { (s : Setting) → IsConfigOf plan.now s self.old → IsNextEntry (world_in plan.now s) (base_of (world_in plan.now s) (core_of self.old)) region ((core_of self.old).part region) event
            → IsConfigOf plan.now s self.new }
    {
        let cut = self.cut;
        if cut.owner(event.place) == region {
            return Ok(Did::NotNow);
        }
        self.regions[region as usize].enter(plan, &cut, event, false)?;
        Ok(Did::Done)
    }

    /// Moves the first message on its way from one region to another to its receiver.
    // The configuration is consistent, so the message is accepted as it is.
    fn take(&mut self, plan: &Plan, from: u32, to: u32) -> Result<Did, NoMemory>
        requires config { (s : Setting) × IsConfigOf plan.now s self.old }
        requires from { from < region_count self.old }
        requires to { to < region_count self.old }
        requires other { from ≢ to }
        ensures made { (s : Setting) → IsConfigOf plan.now s self.old → Makes (world_in plan.now s) (core_of self.old) (Take from to) result (core_of self.new) }
        ensures kept { (s : Setting) → IsConfigOf plan.now s self.old → IsConfigOf plan.now s self.new }
    {
        match self.regions[from as usize].first_waiting(to) {
            None => Ok(Did::NotNow),
            Some(op) => {
                let cut = self.cut;
                self.regions[to as usize].take(&cut, to, from, op)?;
                self.regions[from as usize].drop_first(to);
                Ok(Did::Done)
            }
        }
    }

    /// Commits what lies below a key, where all of that is final.
    fn commit(&mut self, key: Key) -> Result<Did, NoMemory>
        requires config { (n : Network) × (s : Setting) × IsConfigOf n s self.old }
        ensures made { (n : Network) (s : Setting) → IsConfigOf n s self.old → Makes (world_in n s) (core_of self.old) (Commit key) result (core_of self.new) }
        ensures kept { (n : Network) (s : Setting) → IsConfigOf n s self.old → IsConfigOf n s self.new }
    {
        if !may_commit(self.regions.as_slice(), self.horizon, key) {
            return Ok(Did::NotNow);
        }
        let lists = own_lists(self.alloc, &self.cut, self.regions.as_slice(), key)?;
        let events = merge(self.alloc, lists.as_slice())?;
        self.committed.extend_from_slice(events.as_slice())?;
        forget_all(&mut self.regions, key);
        self.horizon = key;
        Ok(Did::Done)
    }
}
