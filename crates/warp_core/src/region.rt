//! A region: its surface and timeline, its clock, what it was told and what waits for the others.

ghost use Rattle.std.specs.Prelude.{IfOk};
ghost use Rattle.warp_core.specs.FirstRegions.{AreFirst};

use crate::outboxes::{empty_outboxes, make_room, take_back, tell};
use border::{Op, Stacks};
use plan::Plan;
use regions::Cut;
use std::alloc::Global;
use surf_kinds::{Event, Key, NoMemory, Place};
use surface_state::Surface;
use timeline::{Entry, Timeline};

/// A surface with the entries that led to it, a clock, a stack for each sender, and an outbox for each receiver.
#[derive(Drop)]
pub(crate) struct Region {
    pub surface: Surface,
    pub timeline: Timeline,
    pub clock: Key,
    pub stacks: Stacks,
    pub outboxes: Vec<Vec<Op>>,
}

/// So many regions over a surface that no event changed.
pub(crate) fn first_regions(
    alloc: Global,
    start: &Surface,
    count: u32,
) -> Result<Vec<Region>, NoMemory>
    ensures { IfOk result (λ regions. AreFirst start.now count count regions.items) }
{
    let mut regions = Vec::new(alloc);
    for _ in 0..count {
        let region = Region::new(alloc, start, count)?;
        regions.push(region)?;
    }
    Ok(regions)
}

impl Region {
    ghost use Rattle.std.specs.Prelude.{◌≡◌, ◌-◌, ◌^◌, ◌++◌, ◌∷◌, [], ◌<◌, ◌==◌, ℕ, List, length, drop, true, OnOk, OnErr, IfOk, IfSome, IfNone, if◌then◌else◌};
    ghost use Rattle.surf_kinds.specs.declared.event.Event.{Event as TheEvent};
    ghost use Rattle.surf_kinds.specs.declared.site.SpeciesId.{SpeciesId};
    ghost use Rattle.surf_kinds.specs.Keys.{key_of, AllKeys, ◌is_below◌};
    ghost use Rattle.lattice.specs.Places.{IsPlace};
    ghost use Rattle.plan.specs.Network.{Network};
    ghost use Rattle.plan.specs.Products.{fits_place};
    ghost use Rattle.surface_state.specs.SurfaceView.{SurfaceView};
    ghost use Rattle.timeline.specs.TimelineView.{events_of, from};
    ghost use Rattle.regions.specs.Seen.{is_told};
    ghost use Rattle.border.specs.Messages.{op_key};
    ghost use Rattle.warp_core.specs.Parts.{with_entry, after_op, fire_puts};
    ghost use Rattle.warp_core.specs.Backs.{part_cut, cut_puts};
    ghost use Rattle.warp_core.specs.Grounds.{IsGround, IsTimely, ArePlaces};
    ghost use Rattle.warp_core.specs.Regions.{part_of, outbox_of, own_below, HaveRoom, HasRoom, IsFirstRegion, IsSized, IsAlike, KeepsGround, HasGround};

    /// Makes room for one entry, one message taken, and one put into each outbox.
    pub fn reserve(&mut self) -> Result<(), NoMemory>
        ensures alike { IsAlike self.old self.new }
        ensures ok { OnOk result (HasRoom self.new) }
    {
        self.timeline.reserve(1)?;
        self.stacks.reserve(1)?;
        make_room(&mut self.outboxes)
    }

    /// Applies an event that comes after all others, in the room that was made.
    pub fn apply(&mut self, plan: &Plan, event: Event, own: bool)
        requires ground { (cells : List SpeciesId) × (past : List TheEvent) × (base : SurfaceView) × IsGround plan.now cells past base self.old.timeline.entries self.old.surface × AllKeys (λ k. k is_below key_of event) (past ++ events_of self.old.timeline.entries) }
        requires fits { fits_place plan.now event.place.0 event.channel ≡ true }
        requires timely { IsTimely (key_of event) }
        requires small { event.place.0 < 2 ^ 64 - 1 }
        requires spare { 0 < self.old.timeline.spare }
        ensures part { part_of self.new ≡ with_entry (part_of self.old) event }
        ensures ground { (cells : List SpeciesId) (past : List TheEvent) (base : SurfaceView)
            → IsGround plan.now cells past base self.old.timeline.entries self.old.surface → AllKeys (λ k. k is_below key_of event) (past ++ events_of self.old.timeline.entries)
            → IsGround plan.now cells past base self.new.timeline.entries self.new.surface }
        ensures stacks { self.new.stacks ≡ self.old.stacks }
        ensures outboxes { self.new.outboxes ≡ self.old.outboxes }
    {
        let products = plan.products(event.channel);
        let before = self.surface.apply(event, products);
        self.timeline.push(Entry { before, own });
        self.clock = event.key().after();
    }

    /// Puts an event for each region that is told of it.
    pub fn tell(&mut self, cut: &Cut, event: Event)
        requires place { IsPlace cut.now.lattice event.place.0 }
        requires regions { length self.old.outboxes.items ≡ cut.now.count }
        requires room { HaveRoom 0 (length self.old.outboxes.items) self.old.outboxes.items }
        ensures same { self.new ≡ record self.old { outboxes = self.new.outboxes } }
        ensures told { (l : ℕ) → outbox_of self.new l ≡ outbox_of self.old l ++ fire_puts (is_told cut.now) event l }
        ensures long { length self.new.outboxes.items ≡ length self.old.outboxes.items }
    {
        tell(cut, &mut self.outboxes, event);
    }

    /// Applies the next entry, and puts it for the regions that are told of it if it is an own event.
    pub fn enter(&mut self, plan: &Plan, cut: &Cut, event: Event, own: bool) -> Result<(), NoMemory>
        requires ground { (cells : List SpeciesId) × (past : List TheEvent) × (base : SurfaceView) × IsGround plan.now cells past base self.old.timeline.entries self.old.surface × AllKeys (λ k. k is_below key_of event) (past ++ events_of self.old.timeline.entries) }
        requires fits { fits_place plan.now event.place.0 event.channel ≡ true }
        requires timely { IsTimely (key_of event) }
        requires small { event.place.0 < 2 ^ 64 - 1 }
        requires place { IsPlace cut.now.lattice event.place.0 }
        requires sized { IsSized cut.now.count self.old }
        ensures part { OnOk result (part_of self.new ≡ with_entry (part_of self.old) event) }
        ensures told { OnOk result ((l : ℕ) → outbox_of self.new l ≡ outbox_of self.old l ++ (if own then fire_puts (is_told cut.now) event l else [])) }
        ensures err { OnErr result (IsAlike self.old self.new) }
        ensures sized { IsSized cut.now.count self.new }
        ensures ground { (cells : List SpeciesId) (past : List TheEvent) (base : SurfaceView)
            → IsGround plan.now cells past base self.old.timeline.entries self.old.surface → AllKeys (λ k. k is_below key_of event) (past ++ events_of self.old.timeline.entries)
            → IsGround plan.now cells past base self.new.timeline.entries self.new.surface }
    {
        self.reserve()?;
        self.apply(plan, event, own);
        if own {
            self.tell(cut, event);
        }
        Ok(())
    }

    /// Goes back to a key, if it is below the clock, and takes back what the other regions were told from it on.
    fn roll_back(&mut self, cut: &Cut, region: u32, key: Key)
        requires ground { (n : Network) × (n.lattice ≡ cut.now.lattice) × HasGround n self.old }
        requires regions { length self.old.outboxes.items ≡ cut.now.count }
        requires room { HaveRoom 0 (length self.old.outboxes.items) self.old.outboxes.items }
        ensures part { part_of self.new ≡ part_cut (part_of self.old) key }
        ensures stacks { self.new.stacks ≡ self.old.stacks }
        ensures outboxes { (l : ℕ) → outbox_of self.new l ≡ outbox_of self.old l ++ cut_puts cut.now region (part_of self.old) key l }
        ensures long { length self.new.outboxes.items ≡ length self.old.outboxes.items }
        ensures ground { (n : Network) → KeepsGround n self.old self.new }
    {
        if !key.is_before(self.clock) {
            return;
        }
        take_back(
            cut,
            region,
            self.timeline.entries(),
            key,
            &mut self.outboxes,
        );
        self.timeline.back_to(key, &mut self.surface);
        self.clock = key;
    }

    /// Takes a message from a sender, in the room that was made.
    pub fn absorb(&mut self, cut: &Cut, region: u32, sender: u32, op: Op)
        requires ground { (n : Network) × (n.lattice ≡ cut.now.lattice) × HasGround n self.old }
        requires sized { IsSized cut.now.count self.old }
        requires sender { sender < cut.now.count }
        requires room { HasRoom self.old }
        ensures part { part_of self.new ≡ after_op (part_of self.old) sender op }
        ensures outboxes { (l : ℕ) → outbox_of self.new l ≡ outbox_of self.old l ++ cut_puts cut.now region (part_of self.old) (op_key op) l }
        ensures sized { IsSized cut.now.count self.new }
        ensures ground { (n : Network) → KeepsGround n self.old self.new }
    {
        self.roll_back(cut, region, op.key());
        self.stacks.replay(sender, op);
    }

    /// Takes a message from a sender, once there is room.
    pub fn take(&mut self, cut: &Cut, region: u32, sender: u32, op: Op) -> Result<(), NoMemory>
        requires ground { (n : Network) × (n.lattice ≡ cut.now.lattice) × HasGround n self.old }
        requires sized { IsSized cut.now.count self.old }
        requires sender { sender < cut.now.count }
        ensures part { OnOk result (part_of self.new ≡ after_op (part_of self.old) sender op) }
        ensures outboxes { OnOk result ((l : ℕ) → outbox_of self.new l ≡ outbox_of self.old l ++ cut_puts cut.now region (part_of self.old) (op_key op) l) }
        ensures err { OnErr result (IsAlike self.old self.new) }
        ensures sized { IsSized cut.now.count self.new }
        ensures ground { (n : Network) → KeepsGround n self.old self.new }
    {
        self.reserve()?;
        self.absorb(cut, region, sender, op);
        Ok(())
    }

    /// The first message that waits for a region.
    pub fn first_waiting(&self, to: u32) -> Option<Op>
        requires { to < length self.now.outboxes.items }
        ensures some { IfSome result (λ op. outbox_of self.now to ≡ op ∷ drop 1 (outbox_of self.now to)) }
        ensures none { IfNone result (outbox_of self.now to ≡ []) }
    {
        let outbox = &self.outboxes[to as usize];
        if outbox.is_empty() {
            return None;
        }
        Some(outbox[0])
    }

    /// Removes the first message that waits for a region.
    pub fn drop_first(&mut self, to: u32)
        requires to { to < length self.old.outboxes.items }
        requires some { 0 < length (outbox_of self.old to) }
        ensures same { self.new ≡ record self.old { outboxes = self.new.outboxes } }
        ensures outboxes { (l : ℕ) → outbox_of self.new l ≡ (if l == to then drop 1 (outbox_of self.old to) else outbox_of self.old l) }
        ensures long { length self.new.outboxes.items ≡ length self.old.outboxes.items }
    {
        self.outboxes[to as usize].remove(0);
    }

    /// The own events below a key.
    pub fn own_below(
        &self,
        alloc: Global,
        cut: &Cut,
        region: u32,
        key: Key,
    ) -> Result<Vec<Event>, NoMemory>
        requires { ArePlaces cut.now.lattice self.now.timeline.entries }
        ensures { IfOk result (λ events. events.items ≡ own_below cut.now region key (events_of self.now.timeline.entries)) }
    {
        let mut events = Vec::new(alloc);
        for entry in self.timeline.entries() {
            let event = entry.before.event;
            if event.key().is_before(key) && cut.owner(event.place) == region {
                events.push(event)?;
            }
        }
        Ok(events)
    }

    /// Forgets the entries below a key.
    pub fn forget_below(&mut self, key: Key)
        ensures same { self.new ≡ record self.old { timeline = self.new.timeline } }
        ensures entries { self.new.timeline.entries ≡ from key self.old.timeline.entries }
    {
        self.timeline.drop_below(key);
    }

    /// A region of so many, over a surface that no event changed.
    pub fn new(alloc: Global, start: &Surface, regions: u32) -> Result<Region, NoMemory>
        ensures { IfOk result (λ r. IsFirstRegion start.now regions r) }
    {
        let surface = start.copy()?;
        let stacks = Stacks::new(alloc, regions)?;
        let outboxes = empty_outboxes(alloc, regions)?;
        Ok(Region {
            surface,
            timeline: Timeline::new(alloc),
            clock: Key {
                time: 0,
                place: Place(0),
            },
            stacks,
            outboxes,
        })
    }
}
