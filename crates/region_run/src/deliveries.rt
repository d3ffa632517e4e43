//! Messages from one region to another, and the rings between them.

ghost use Rattle.std.specs.Prelude.{◌≡◌, ◌≢◌, ◌<◌, ◌+◌, ℕ, length, true, false};
ghost use Rattle.region_run.specs.Sides.{ends_of};
ghost use Rattle.region_run.specs.Regions.{Base, ends_with, IsRegion};
ghost use Rattle.region_run.specs.Runs.{HasSpare, UsesOne};
ghost use Rattle.region_run.specs.Channels.{AreTied};
ghost use Rattle.region_run.specs.Counts.{with_work};
ghost use Rattle.region_run.specs.Deliveries.{ArePaired, IsDelivery, IsNoDelivery, HasLooked};
ghost use Rattle.region_run.specs.Between.{TakesFirst, Meets, KnowRings, HasChanged};

use crate::region::{Region, is_neighbour};
use crate::side::Side;
use border::Op;
use plan::Plan;
use regions::Cut;

/// Takes the first message of the channel between what one region has of another and what that one has of it.
fn next_between(out: &mut Option<Side>, inn: &mut Option<Side>) -> Option<Op>
    requires { AreTied (ends_of out.old) (ends_of inn.old) }
    ensures { TakesFirst out.old inn.old result out.new inn.new }
{
    match out {
        Some(out) => out.next_to(inn),
        None => None,
    }
}

/// Takes the first message of the channel from a region, of which this is what it has of the other.
fn next_into(out: &mut Option<Side>, to: &mut Region, id: u32) -> Option<Op>
    requires { AreTied (ends_of out.old) (ends_with to.old id) }
    ensures { HasChanged (λ t t'. TakesFirst out.old t result out.new t') id to.old to.new }
{
    if is_neighbour(&to.first, id) {
        return next_between(out, &mut to.first);
    }
    if is_neighbour(&to.second, id) {
        return next_between(out, &mut to.second);
    }
    let mut none = None;
    next_between(out, &mut none)
}

/// Takes the first message of the channel from one region to another.
fn next_op(from: &mut Region, to: &mut Region) -> Option<Op>
    requires { AreTied (ends_with from.old to.old.id) (ends_with to.old from.old.id) }
    ensures { HasChanged (λ s s'. HasChanged (λ t t'. TakesFirst s t result s' t') from.old.id to.old to.new) to.old.id from.old from.new }
{
    let id = from.id;
    if is_neighbour(&from.first, to.id) {
        return next_into(&mut from.first, to, id);
    }
    if is_neighbour(&from.second, to.id) {
        return next_into(&mut from.second, to, id);
    }
    let mut none = None;
    next_into(&mut none, to, id)
}

/// Takes the first message of the channel from one region to another: from the ring if one waits there, else of those
/// that wait to be sent. The other region absorbs it, for which it uses one of its spare. Where the channel is empty the
/// answer is false, and nothing changes.
pub fn deliver(plan: &Plan, cut: &Cut, from: &mut Region, to: &mut Region) -> bool
    requires region { (until : ℕ) × (x : Base) × IsRegion plan.now cut.now until x to.old }
    requires apart { from.old.id ≢ to.old.id }
    requires sender { from.old.id < cut.now.count }
    requires ties { AreTied (ends_with from.old to.old.id) (ends_with to.old from.old.id) }
    requires spare { HasSpare 1 to.old }
    ensures none { result ≡ false → IsNoDelivery from.old to.old from.new to.new }
    ensures one { result ≡ true → (until : ℕ) (x : Base) → IsRegion plan.now cut.now until x to.old → IsDelivery plan.now cut.now until x from.old to.old from.new to.new }
    ensures sender_totals { from.new.totals ≡ from.old.totals }
    ensures no_totals { result ≡ false → to.new.totals ≡ to.old.totals }
    ensures totals { result ≡ true → (cut : ℕ) × (to.new.totals ≡ with_work to.old.totals 0 cut) × (cut + length to.new.board.timeline.entries ≡ length to.old.board.timeline.entries) }
    ensures sender_spare { (m : ℕ) → HasSpare m from.old → HasSpare m from.new }
    ensures spare { UsesOne to.old to.new }
{
    let Some(op) = next_op(from, to) else {
        return false;
    };
    to.absorb(plan, cut, from.id, op);
    true
}

/// Looks at the rings between what a region has of another, which has the number, and that other.
fn meet_sides(one: &mut Option<Side>, other: &mut Option<Side>)
    requires { ArePaired (ends_of one.old) (ends_of other.old) }
    ensures { Meets one.old other.old one.new other.new }
{
    if let (Some(one), Some(other)) = (one, other) {
        one.meet(other);
    }
}

/// Looks at the rings between a region and another, of which this is what it has of the one with the number.
fn meet_region(one: &mut Option<Side>, other: &mut Region, id: u32)
    requires { ArePaired (ends_of one.old) (ends_with other.old id) }
    ensures { HasChanged (λ t t'. Meets one.old t one.new t') id other.old other.new }
{
    if is_neighbour(&other.first, id) {
        meet_sides(one, &mut other.first);
    } else if is_neighbour(&other.second, id) {
        meet_sides(one, &mut other.second);
    } else {
        let mut none = None;
        meet_sides(one, &mut none);
    }
}

/// The same.
fn meet_regions(one: &mut Region, other: &mut Region)
    requires { ArePaired (ends_with one.old other.old.id) (ends_with other.old one.old.id) }
    ensures { HasChanged (λ s s'. HasChanged (λ t t'. Meets s t s' t') one.old.id other.old other.new) other.old.id one.old one.new }
{
    let id = one.id;
    if is_neighbour(&one.first, other.id) {
        meet_region(&mut one.first, other, id);
    } else if is_neighbour(&one.second, other.id) {
        meet_region(&mut one.second, other, id);
    } else {
        let mut none = None;
        meet_region(&mut none, other, id);
    }
}

/// Looks at both ends of each ring between two regions, after which they know what waits in it and what is free.
pub fn look(one: &mut Region, other: &mut Region)
    requires apart { one.old.id ≢ other.old.id }
    requires rings { ArePaired (ends_with one.old other.old.id) (ends_with other.old one.old.id) }
    ensures one { HasLooked other.old.id one.old one.new }
    ensures other { HasLooked one.old.id other.old other.new }
    ensures ties { AreTied (ends_with one.new other.new.id) (ends_with other.new one.new.id) }
    ensures known { KnowRings (ends_with one.new other.new.id) (ends_with other.new one.new.id) }
    ensures totals { (one.new.totals ≡ one.old.totals) × (other.new.totals ≡ other.old.totals) }
    ensures spare { (m : ℕ) → HasSpare m one.old → HasSpare m one.new }
    ensures other_spare { (m : ℕ) → HasSpare m other.old → HasSpare m other.new }
{
    meet_regions(one, other);
}
