//! A region at work.

ghost use Rattle.std.specs.Prelude.{◌≡◌};
ghost use Rattle.region_run.specs.Sides.{is_other};

use crate::board::Board;
use crate::choice::{earlier_due, first_from};
use crate::side::Side;
use crate::telling::{accepted, first_told, lesser, take_back, tell};
use crate::totals::Totals;
use border::{Op, Stacks};
use plan::Plan;
use regions::Cut;
use surf_kinds::{Event, Key, NoMemory, Place};

/// A band of rows with a timeline of its own. Each call is a run of steps of the core.
// The fields are seen in the clauses through `IsRegion` and the definitions beside it; they may be set in this crate alone.
// In a list of regions each is written by a worker of its own. The fields stand in this order in memory, and the gap at the end keeps
// what two workers write on different cache lines, of up to 128 bytes.
#[derive(Drop)]
#[repr(C)]
pub struct Region {
    pub(crate) id: u32,
    pub(crate) board: Board,
    pub(crate) clock: Key,
    pub(crate) floor: Key,
    /// What the first neighbour told, and what the second one did.
    pub(crate) stacks: Stacks,
    pub(crate) first: Option<Side>,
    pub(crate) second: Option<Side>,
    pub(crate) totals: Totals,
    pub(crate) gap: [u64; 16],
}

/// Whether the neighbour has this number.
pub(crate) fn is_neighbour(side: &Option<Side>, id: u32) -> bool
    ensures { result ≡ is_other side.now id }
{
    match side {
        Some(side) => side.other() == id,
        None => false,
    }
}

impl Region {
    ghost use Rattle.std.specs.Prelude.{◌==◌, not, ◌≡◌, ◌≢◌, ℕ, [], ◌+◌, ◌*◌, ◌<◌, ◌≤◌, ◌⊎◌, ◌^◌, ◌++◌, length, slice_set, true, false, IfSome, IfNone, OnOk, OnErr, Option, if◌then◌else◌};
    ghost use Rattle.surf_kinds.specs.declared.event.Event.{Event as TheEvent};
    ghost use Rattle.surf_kinds.specs.Keys.{key_of, keep, below, from, ◌is_upto◌};
    ghost use Rattle.plan.specs.Network.{Network};
    ghost use Rattle.regions.specs.Bands.{Bands, owner_of};
    ghost use Rattle.border.specs.Messages.{op_key};
    ghost use Rattle.warp_core.specs.Parts.{PartStep, IsNextEntry, HasNoEntry};
    ghost use Rattle.region_run.specs.Sides.{Gained, event_puts};
    ghost use Rattle.region_run.specs.Regions.{Base, world_at, part_of, is_own_key, AreMarked, IsRegion};
    ghost use Rattle.region_run.specs.Runs.{MakesStep, StepsOn, IsCutBack, IsReplayed, SameRings, HasSpare, UsesOne, IsCommitted};
    ghost use Rattle.region_run.specs.Starts.{IsNextKeyOf};
    ghost use Rattle.region_run.specs.Counts.{with_work, with_forgotten};

    /// The region's number.
    pub fn id(&self) -> u32
        ensures { result ≡ self.now.id }
    {
        self.id
    }

    /// The key from which on nothing was applied yet.
    pub fn clock(&self) -> Key
        ensures { result ≡ self.now.clock }
    {
        self.clock
    }

    /// What the region did so far.
    pub fn totals(&self) -> Totals
        ensures { result ≡ self.now.totals }
    {
        self.totals
    }

    /// The next entry, up to the end.
    pub(crate) fn next_entry(&self, until: u64) -> Option<Event>
        requires { length self.now.stacks.stacks ≡ 2 }
        ensures some { (n : Network) (b : Bands) (x : Base) → IsRegion n b until x self.now → IfSome result (λ e. IsNextEntry (world_at n b until x) x.surface.sites self.now.id (part_of self.now) e) }
        ensures none { (n : Network) (b : Bands) (x : Base) → IsRegion n b until x self.now → IfNone result (HasNoEntry (world_at n b until x) x.surface.sites self.now.id (part_of self.now)) }
    {
        let own = earlier_due(None, self.board.queue.least(), self.clock, until);
        let first = first_from(self.stacks.of(0), self.clock);
        let best = earlier_due(own, first, self.clock, until);
        let second = first_from(self.stacks.of(1), self.clock);
        earlier_due(best, second, self.clock, until)
    }

    /// The key of the next entry up to the end, or the end key, `(until + 1, 0)`.
    pub fn next_key(&self, until: u64) -> Key
        requires region { (n : Network) × (b : Bands) × (x : Base) × IsRegion n b until x self.now }
        ensures { (n : Network) (b : Bands) (x : Base) → IsRegion n b until x self.now → IsNextKeyOf (world_at n b until x) x.surface.sites self.now.id (part_of self.now) result }
    {
        match self.next_entry(until) {
            Some(event) => event.key(),
            None => Key {
                time: until + 1,
                place: Place(0),
            },
        }
    }

    /// Applies the next entry, and tells the neighbours if it is an own one.
    fn apply_next(&mut self, plan: &Plan, cut: &Cut, until: u64, event: Event)
        requires next { (x : Base) × IsRegion plan.now cut.now until x self.old × IsNextEntry (world_at plan.now cut.now until x) x.surface.sites self.old.id (part_of self.old) event }
        requires spare { HasSpare 1 self.old }
        ensures steps { (x : Base) → IsRegion plan.now cut.now until x self.old → IsNextEntry (world_at plan.now cut.now until x) x.surface.sites self.old.id (part_of self.old) event
            → ((MakesStep plan.now cut.now until x self.old (PartStep.Fires event) self.new) ⊎ (MakesStep plan.now cut.now until x self.old (PartStep.Passes event) self.new)) }
        ensures first { Gained self.old.first (event_puts cut.now (owner_of cut.now event.place.0 == self.old.id) event) self.new.first }
        ensures second { Gained self.old.second (event_puts cut.now (owner_of cut.now event.place.0 == self.old.id) event) self.new.second }
        ensures totals { self.new.totals ≡ self.old.totals }
        ensures spare { UsesOne self.old self.new }
    {
        let own = cut.owner(event.place) == self.id;
        self.board.apply(plan, event, own);
        self.clock = event.key().after();
        tell(cut, own, &mut self.first, event);
        tell(cut, own, &mut self.second, event);
    }

    /// Fire or Pass: applies the next entry up to the end, or goes to the end where there is none; then the answer is
    /// false, and the clock the end key, `(until + 1, 0)`. Uses one of the spare.
    pub fn step_one(&mut self, plan: &Plan, cut: &Cut, until: u64) -> bool
        requires region { (x : Base) × IsRegion plan.now cut.now until x self.old }
        requires spare { HasSpare 1 self.old }
        ensures steps { (x : Base) → IsRegion plan.now cut.now until x self.old → StepsOn plan.now cut.now until x self.old result self.new }
        ensures rings { SameRings self.old self.new }
        ensures totals { self.new.totals ≡ (if result then with_work self.old.totals 1 0 else self.old.totals) }
        ensures spare { UsesOne self.old self.new }
    {
        let made = self.step(plan, cut, until);
        if made {
            self.totals = self.totals.with_work(1, 0);
        }
        made
    }

    /// The same, and counts nothing.
    pub(crate) fn step(&mut self, plan: &Plan, cut: &Cut, until: u64) -> bool
        requires region { (x : Base) × IsRegion plan.now cut.now until x self.old }
        requires spare { HasSpare 1 self.old }
        ensures steps { (x : Base) → IsRegion plan.now cut.now until x self.old → StepsOn plan.now cut.now until x self.old result self.new }
        ensures rings { SameRings self.old self.new }
        ensures totals { self.new.totals ≡ self.old.totals }
        ensures spare { UsesOne self.old self.new }
    {
        match self.next_entry(until) {
            None => {
                self.clock = Key {
                    time: until + 1,
                    place: Place(0),
                };
                false
            }
            Some(event) => {
                self.apply_next(plan, cut, until, event);
                true
            }
        }
    }

    /// Goes back to a message's key, if that is before the clock, and puts a Back for each neighbour that was told of
    /// what goes. Answers how many entries went.
    fn cut_back(&mut self, plan: &Plan, cut: &Cut, op: Op) -> u64
        requires region { (until : ℕ) × (x : Base) × IsRegion plan.now cut.now until x self.old × (x.floor is_upto op_key op) }
        requires undoable { self.old.board.undoable ≡ true }
        requires spare { HasSpare 1 self.old }
        ensures back { (until : ℕ) (x : Base) → IsRegion plan.now cut.now until x self.old → x.floor is_upto op_key op → IsCutBack plan.now cut.now until x op self.old self.new }
        ensures cut { result + length self.new.board.timeline.entries ≡ length self.old.board.timeline.entries }
        ensures spare { (m : ℕ) → HasSpare (m + 1) self.old → HasSpare m self.new }
        ensures stacks { self.new.stacks ≡ self.old.stacks }
    {
        let key = op.key();
        if !key.is_before(self.clock) {
            return 0;
        }
        let entries = self.board.timeline.entries();
        let to_first = first_told(cut, self.id, entries, key, &self.first);
        let to_second = first_told(cut, self.id, entries, key, &self.second);
        let least = lesser(to_first, to_second);
        take_back(&mut self.first, to_first, least);
        take_back(&mut self.second, to_second, least);
        self.clock = key;
        self.board.back_to(key)
    }

    /// Replays a message on the stack of its sender, where that is a neighbour: no other region's message leaves an
    /// event there.
    fn replay(&mut self, sender: u32, op: Op)
        requires two { length self.old.stacks.stacks ≡ 2 }
        requires spare { 0 < self.old.stacks.spare }
        ensures same { self.new ≡ record self.old { stacks = self.new.stacks } }
        ensures stacks { IsReplayed self.old.first self.old.second sender op self.old.stacks self.new.stacks }
    {
        if is_neighbour(&self.first, sender) {
            self.stacks.replay(0, op);
        } else if is_neighbour(&self.second, sender) {
            self.stacks.replay(1, op);
        }
    }

    /// Take: takes a message of another region, and answers how many entries it cut. A Put that isn't lawful is passed
    /// over, and a Back below the floor is one at the floor. Uses one of the spare.
    pub fn absorb(&mut self, plan: &Plan, cut: &Cut, sender: u32, op: Op) -> u64
        requires region { (until : ℕ) × (x : Base) × IsRegion plan.now cut.now until x self.old }
        requires sender { sender < cut.now.count }
        requires other { sender ≢ self.old.id }
        requires spare { HasSpare 1 self.old }
        ensures step { (until : ℕ) (x : Base) → IsRegion plan.now cut.now until x self.old → MakesStep plan.now cut.now until x self.old (PartStep.Takes sender op) self.new }
        ensures cut { result + length self.new.board.timeline.entries ≡ length self.old.board.timeline.entries }
        ensures rings { SameRings self.old self.new }
        ensures totals { self.new.totals ≡ with_work self.old.totals 0 result }
        ensures spare { UsesOne self.old self.new }
    {
        let undone = self.take(plan, cut, sender, op);
        self.totals = self.totals.with_work(0, undone);
        undone
    }

    /// The same, and counts nothing.
    pub(crate) fn take(&mut self, plan: &Plan, cut: &Cut, sender: u32, op: Op) -> u64
        requires region { (until : ℕ) × (x : Base) × IsRegion plan.now cut.now until x self.old }
        requires sender { sender < cut.now.count }
        requires other { sender ≢ self.old.id }
        requires spare { HasSpare 1 self.old }
        ensures step { (until : ℕ) (x : Base) → IsRegion plan.now cut.now until x self.old → MakesStep plan.now cut.now until x self.old (PartStep.Takes sender op) self.new }
        ensures cut { result + length self.new.board.timeline.entries ≡ length self.old.board.timeline.entries }
        ensures rings { SameRings self.old self.new }
        ensures totals { self.new.totals ≡ self.old.totals }
        ensures spare { UsesOne self.old self.new }
    {
        let Some(op) = accepted(plan, cut, sender, self.id, self.floor, op) else {
            return 0;
        };
        let undone = self.cut_back(plan, cut, op);
        self.replay(sender, op);
        undone
    }

    /// Appends the own events below a key, which is from the floor on and at most the clock, in the order of their
    /// keys. After an error `out` is as it was.
    pub fn own_below(&self, key: Key, out: &mut Vec<Event>) -> Result<(), NoMemory>
        requires region { (n : Network) × (b : Bands) × (until : ℕ) × (x : Base) × IsRegion n b until x self.now × (x.floor is_upto key) × (key is_upto self.now.clock) }
        ensures ok { (n : Network) (b : Bands) (until : ℕ) (x : Base) → IsRegion n b until x self.now → OnOk result (out.new.items ≡ out.old.items ++ keep (is_own_key b self.now.id) (below key (part_of self.now).timeline)) }
        ensures err { OnErr result (out.new.items ≡ out.old.items) }
    {
        let entries = self.board.timeline.entries();
        out.reserve(entries.len())?;
        for i in 0..entries.len() {
            let event = entries[i].before.event;
            if event.key().is_before(key) && entries[i].own {
                out.push_reserved(event);
            }
        }
        Ok(())
    }

    /// How many of the entries below a key are received ones.
    fn received_below(&self, key: Key) -> u64
        ensures { (b : Bands) → AreMarked b self.now.id self.now.board.timeline.entries → result ≡ length (keep (λ k. not (is_own_key b self.now.id k)) (below key (part_of self.now).timeline)) }
    {
        let entries = self.board.timeline.entries();
        let mut received = 0;
        for i in 0..entries.len() {
            if entries[i].key().is_before(key) && !entries[i].own {
                received += 1;
            }
        }
        received
    }

    /// Forgets the entries below a key, which is from the floor on and at most the clock, and moves the floor there.
    /// Answers how many of these entries were received ones.
    pub fn commit_below(&mut self, key: Key) -> u64
        requires region { (n : Network) × (b : Bands) × (until : ℕ) × (x : Base) × IsRegion n b until x self.old × (x.floor is_upto key) × (key is_upto self.old.clock) }
        ensures committed { (n : Network) (b : Bands) (until : ℕ) (x : Base) → IsRegion n b until x self.old → x.floor is_upto key → key is_upto self.old.clock → IsCommitted n b until x key self.old self.new }
        ensures received { (n : Network) (b : Bands) (until : ℕ) (x : Base) → IsRegion n b until x self.old → result ≡ length (keep (λ k. not (is_own_key b self.old.id k)) (below key (part_of self.old).timeline)) }
        ensures totals { self.new.totals ≡ with_forgotten self.old.totals result }
        ensures same { self.new ≡ record self.old { board = self.new.board; floor = key; stacks = self.new.stacks; totals = self.new.totals } }
        ensures spare { (m : ℕ) → HasSpare m self.old → HasSpare m self.new }
    {
        let received = self.received_below(key);
        self.board.forget_below(key);
        self.stacks.forget_below(key);
        self.floor = key;
        self.totals = self.totals.with_forgotten(received);
        received
    }
}
