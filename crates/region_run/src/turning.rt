//! Turns: hearing, adding and sending.

ghost use Rattle.region_run.specs.Channels.{Flushed};
ghost use Rattle.region_run.specs.Turns.{IfNumber};

use crate::region::Region;
use crate::side::Side;
use crate::telling::ask;
use crate::totals::Turn;
use plan::Plan;
use regions::Cut;
use std::thread;
use surf_kinds::{Key, Place};

/// Sends to a neighbour what its ring takes.
fn flush_side(side: &mut Option<Side>)
    ensures { Flushed side.old side.new }
{
    if let Some(side) = side {
        side.flush();
    }
}

/// The number of a neighbour; another one where there is none.
fn number_or(side: &Option<Side>, other: u32) -> u32
    ensures { IfNumber side.now result }
{
    match side {
        Some(side) => side.other(),
        None => other,
    }
}

impl Region {
    ghost use Rattle.std.specs.Prelude.{◌≡◌, ℕ, ◌+◌, ◌*◌, ◌<◌, ◌≤◌, true, false, max, length, MatchBool, if◌then◌else◌};
    ghost use Rattle.plan.specs.Network.{Network};
    ghost use Rattle.regions.specs.Bands.{Bands};
    ghost use Rattle.region_run.specs.Regions.{Base, IsRegion};
    ghost use Rattle.region_run.specs.Runs.{HasSpare};
    ghost use Rattle.region_run.specs.Turns.{AreSent, IsAtEnd, HasEntryLeft, IsTurn};
    ghost use Rattle.region_run.specs.Hearing.{Asks, Works};
    ghost use Rattle.region_run.specs.Counts.{with_turn};

    /// How many entries the timeline has.
    fn entry_count(&self) -> u64
        ensures count { result ≡ length self.now.board.timeline.entries }
        ensures few { result ≤ 9223372036854775807 }
    {
        self.board.timeline.entries().len() as u64
    }

    /// Asks the first neighbour's ring, and takes what it hands out. Answers whether that was a message.
    fn hear_first(&mut self, plan: &Plan, cut: &Cut) -> bool
        requires region { (until : ℕ) × (x : Base) × IsRegion plan.now cut.now until x self.old }
        requires spare { HasSpare 1 self.old }
        ensures asks { (until : ℕ) (x : Base) → IsRegion plan.now cut.now until x self.old → Asks plan.now cut.now until x self.old 1 0 result self.new }
        ensures totals { self.new.totals ≡ self.old.totals }
        ensures spare { (m : ℕ) → HasSpare (m + (if result then 1 else 0)) self.old → HasSpare m self.new }
    {
        let sender = number_or(&self.first, 0);
        let Some(op) = ask(&mut self.first) else {
            return false;
        };
        self.take(plan, cut, sender, op);
        true
    }

    /// The same of the second neighbour.
    fn hear_second(&mut self, plan: &Plan, cut: &Cut) -> bool
        requires region { (until : ℕ) × (x : Base) × IsRegion plan.now cut.now until x self.old }
        requires spare { HasSpare 1 self.old }
        ensures asks { (until : ℕ) (x : Base) → IsRegion plan.now cut.now until x self.old → Asks plan.now cut.now until x self.old 0 1 result self.new }
        ensures totals { self.new.totals ≡ self.old.totals }
        ensures spare { (m : ℕ) → HasSpare (m + (if result then 1 else 0)) self.old → HasSpare m self.new }
    {
        let sender = number_or(&self.second, 0);
        let Some(op) = ask(&mut self.second) else {
            return false;
        };
        self.take(plan, cut, sender, op);
        true
    }

    /// Takes one message, of the first neighbour or else of the second. Answers false where both rings were asked in
    /// vain.
    fn hear_one(&mut self, plan: &Plan, cut: &Cut) -> bool
        requires region { (until : ℕ) × (x : Base) × IsRegion plan.now cut.now until x self.old }
        requires spare { HasSpare 1 self.old }
        ensures works { (until : ℕ) (x : Base) → IsRegion plan.now cut.now until x self.old → Works plan.now cut.now until x 1 self.old 0 (if result then 1 else 0) 1 self.new }
        ensures totals { self.new.totals ≡ self.old.totals }
        ensures spare { (m : ℕ) → HasSpare (m + (if result then 1 else 0)) self.old → HasSpare m self.new }
    {
        if self.hear_first(plan, cut) {
            return true;
        }
        self.hear_second(plan, cut)
    }

    /// Takes messages until both rings are empty, or so many are taken. Answers how many were taken.
    fn hear(&mut self, plan: &Plan, cut: &Cut, most: u64) -> u64
        requires region { (until : ℕ) × (x : Base) × IsRegion plan.now cut.now until x self.old }
        requires spare { HasSpare most self.old }
        ensures works { (until : ℕ) (x : Base) → IsRegion plan.now cut.now until x self.old → Works plan.now cut.now until x most self.old 0 result 1 self.new }
        ensures few { result ≤ most }
        ensures totals { self.new.totals ≡ self.old.totals }
        ensures spare { (m : ℕ) → HasSpare (m + result) self.old → HasSpare m self.new }
    {
        let mut taken = 0;
        while taken < most {
            if !self.hear_one(plan, cut) {
                return taken;
            }
            taken += 1;
        }
        taken
    }

    /// Takes messages until both rings are empty, or so many are taken, adds the next entry, and sends what the rings
    /// take: so a neighbour hears of it while its own turn lasts. Answers how many messages were taken, and whether there
    /// was an entry; where there was none, the clock is the end key.
    fn add_one(&mut self, plan: &Plan, cut: &Cut, most: u64, until: u64) -> (u64, bool)
        requires region { (x : Base) × IsRegion plan.now cut.now until x self.old }
        requires spare { HasSpare (most + 1) self.old }
        ensures works { (x : Base) → IsRegion plan.now cut.now until x self.old → Works plan.now cut.now until x most self.old (if result.1 then 1 else 0) result.0 1 self.new }
        ensures few { result.0 ≤ most }
        ensures end { (x : Base) → IsRegion plan.now cut.now until x self.old → result.1 ≡ false → IsAtEnd plan.now cut.now until x self.new }
        ensures sent { AreSent self.old self.new }
        ensures totals { self.new.totals ≡ self.old.totals }
        ensures spare { (m : ℕ) → HasSpare (m + (result.0 + 1)) self.old → HasSpare m self.new }
    {
        let taken = self.hear(plan, cut, most);
        let made = self.step(plan, cut, until);
        flush_side(&mut self.first);
        flush_side(&mut self.second);
        (taken, made)
    }

    /// After every fourth entry of a region with neighbours, lets another thread run if one waits. Where there are more
    /// regions than processors, their turns then go on side by side, and far fewer guesses are undone.
    fn make_way(&self, added: u64) {
        if self.board.undoable && added % 4 == 0 {
            thread::yield_now();
        }
    }

    /// Hears before each entry, adds so many entries, or fewer where nothing is left, and sends after each; where nothing
    /// is left the clock is the end key. Answers how many entries were added, and how many messages were taken: as many at most.
    fn add_entries(&mut self, plan: &Plan, cut: &Cut, quota: u64, until: u64) -> (u64, u64)
        requires region { (x : Base) × IsRegion plan.now cut.now until x self.old }
        requires at_least { 1 ≤ quota }
        requires spare { HasSpare (2 * quota) self.old }
        ensures works { (x : Base) → IsRegion plan.now cut.now until x self.old → Works plan.now cut.now until x quota self.old result.0 result.1 (max 1 result.0) self.new }
        ensures most { result.0 ≤ quota }
        ensures end { (x : Base) → IsRegion plan.now cut.now until x self.old → result.0 < quota → IsAtEnd plan.now cut.now until x self.new }
        ensures sent { AreSent self.old self.new }
        ensures totals { self.new.totals ≡ self.old.totals }
    {
        let mut added = 0;
        let mut taken = 0;
        while added < quota {
            let (heard, made) = self.add_one(plan, cut, quota - taken, until);
            taken += heard;
            if !made {
                return (added, taken);
            }
            added += 1;
            self.make_way(added);
        }
        (added, taken)
    }

    /// Goes to the end where nothing is left, and answers whether that was so.
    fn end(&mut self, until: u64) -> bool
        requires region { (n : Network) × (b : Bands) × (x : Base) × IsRegion n b until x self.old }
        ensures works { (n : Network) (b : Bands) (x : Base) → IsRegion n b until x self.old → Works n b until x 0 self.old 0 0 0 self.new }
        ensures left { (n : Network) (b : Bands) (x : Base) → IsRegion n b until x self.old → MatchBool result (IsAtEnd n b until x self.new) (HasEntryLeft n b until x self.new) }
        ensures same { result ≡ false → self.new ≡ self.old }
        ensures sides { (self.new.first ≡ self.old.first) × (self.new.second ≡ self.old.second) }
        ensures totals { self.new.totals ≡ self.old.totals }
    {
        match self.next_entry(until) {
            Some(_event) => false,
            None => {
                self.clock = Key {
                    time: until + 1,
                    place: Place(0),
                };
                true
            }
        }
    }

    /// A turn: hears until both rings are empty before each entry, up to `quota` messages in all; adds `quota` entries, or
    /// fewer where nothing is left; and sends what the rings take. Answers what it did.
    pub fn turn(&mut self, plan: &Plan, cut: &Cut, quota: u32, until: u64) -> Turn
        requires region { (x : Base) × IsRegion plan.now cut.now until x self.old }
        requires at_least { 1 ≤ quota }
        requires at_most { quota ≤ 65536 }
        requires spare { HasSpare (2 * quota) self.old }
        ensures turn { (x : Base) → IsRegion plan.now cut.now until x self.old → IsTurn plan.now cut.now until x quota self.old self.new result }
        ensures totals { self.new.totals ≡ with_turn self.old.totals result }
    {
        let before = self.entry_count();
        let (added, taken) = self.add_entries(plan, cut, u64::from(quota), until);
        let empty = self.end(until);
        let after = self.entry_count();
        let turn = Turn {
            added,
            taken,
            cut: before + added - after,
            empty,
        };
        self.totals = self.totals.with_turn(turn);
        turn
    }
}
