//! A plan: rules on a lattice, with the seed of their draws.

ghost use Rattle.std.specs.Prelude.{◌≡◌, ◌+◌, ◌^◌, ◌<◌, ◌≤◌, ◌↔◌, [], length, All, IfOk, IfSome, Some, None};
ghost use Rattle.surf_kinds.specs.Channels.{rule_of_channel as rule_number};
ghost use Rattle.plan.specs.Bounds.{IsWithinBounds};
ghost use Rattle.plan.specs.ChannelIndex.{IsIndexed};
ghost use Rattle.plan.specs.Channels.{reactants_of as reactants_at, channels_of, IsChannel};
ghost use Rattle.plan.specs.Next.{latest, next_at, occurrence, earliest as earliest_from};
ghost use Rattle.rates.specs.Waits.{wait_of};
ghost use Rattle.plan.specs.Products.{fits_place, has_two, products_of};

use crate::index::{Channel, Index, Reactants};
use crate::order::earlier;
use draws::Drawer;
use lattice::Lattice;
use lattice::plain::{are_ways_same, products};
use rates::wait;
use std::alloc::Global;
use std::marker::Model;
use surf_kinds::{
    Event, NoMemory, Place, Rule, SiteState, SpeciesId, rule_of_channel, way_of_channel,
};

// The channels of a block: those whose draws are made at once.
const BLOCK: u16 = 8;

/// The rules of a program on a lattice, and the seed of its draws.
#[derive(Drop)]
pub struct Plan {
    lattice: Lattice,
    rules: Vec<Rule>,
    drawer: Drawer,
    index: Index,
}

impl Model for Plan {
    ghost use Rattle.plan.specs.Network.{Network};
    ghost use Rattle.plan.specs.ChannelIndex.{IsIndexed};

    ghost Value = { Network };

    ghost view = { λ p. record { lattice = p.lattice; rules = p.rules.items; seed = p.drawer } };

    ghost invariant = { λ p. IsIndexed p.rules.items p.index };
}

impl Plan {
    /// A plan of at most 4,096 rules. Channel `2 * rule + way` is a rule, by its number in the list, with the way in
    /// which its reactants stand: 0 as they are written, 1 the other way round.
    pub fn new(alloc: Global, rules: &[Rule], lattice: Lattice, seed: u64) -> Result<Plan, NoMemory>
        requires { length rules.now ≤ 4096 }
        ensures { IfOk result (λ p. p ≡ record { lattice = lattice; rules = rules.now; seed = seed }) }
    {
        let index = index_of(alloc, rules)?;
        let rules = rules.to_vec(alloc)?;
        Ok(Plan {
            lattice,
            rules,
            drawer: Drawer::new(seed),
            index,
        })
    }

    pub fn lattice(&self) -> &Lattice
        ensures { result.now ≡ self.now.lattice }
    {
        &self.lattice
    }

    pub(crate) fn rules(&self) -> &[Rule]
        ensures { result.now ≡ self.now.rules }
    {
        self.rules.as_slice()
    }

    /// The next event of a place whose sites have these states: of its channels of a rate above 0 the one whose wait
    /// ends first, and the lowest of those that end together. None where the place has no such channel.
    ///
    /// A channel's wait begins at the greatest last of the sites, and its draw is that of the place, the sum of the
    /// versions of its sites, and the channel. The cost goes with the channels that stand there.
    #[inline]
    pub fn next_of(&self, place: Place, a: SiteState, b: Option<SiteState>) -> Option<Event>
        requires first { IsWithinBounds a }
        requires second { IfSome b IsWithinBounds }
        ensures next { result ≡ next_at self.now place.0 a b }
        ensures none { (result ≡ None) ↔ (channels_of self.now.rules (reactants_at a b) ≡ []) }
    {
        let channels = self.index.find(reactants_of(a, b));
        if channels.is_empty() {
            return None;
        }
        let (occurrence, from) = beginning_of(a, b);
        self.earliest(channels, place, occurrence, from)
    }

    /// The earliest event of these channels of a place, at its occurrence, whose waits begin at a tick. The draws of a
    /// block are made once for the channels in it that follow one another.
    // Most places have no channel, and are passed without a call of this.
    #[inline(never)]
    fn earliest(
        &self,
        channels: &[Channel],
        place: Place,
        occurrence: u64,
        from: u64,
    ) -> Option<Event>
        requires channels { All IsChannel channels.now }
        requires occurrence { occurrence < 2 ^ 54 }
        requires from { from ≤ 10 ^ 15 }
        ensures { result ≡ earliest_from self.now.seed place.0 occurrence from None channels.now }
    {
        let mut made = None;
        let mut draws = [0; 8];
        let mut best = None;
        for channel in channels {
            let block = channel.number / BLOCK;
            if made != Some(block) {
                made = Some(block);
                draws = self.drawer.draws(place, occurrence, block);
            }
            let draw = draws[usize::from(channel.number % BLOCK)];
            best = earlier(best, Some(armed(*channel, place, from, draw)));
        }
        best
    }

    /// Whether the number is a place of the lattice, and the channel one of a rule with that place's number of sites. A
    /// rule of one site has way 0 alone, and so has one of two sites whose two ways are the same.
    pub fn fits(&self, place: Place, channel: u16) -> bool
        ensures { result ≡ fits_place self.now place.0 channel }
    {
        let Some(sites) = self.lattice.sites_of(place) else {
            return false;
        };
        match self.rules.get(usize::from(rule_of_channel(channel))) {
            None => false,
            Some(rule) => {
                has_second(rule) == sites.second.is_some()
                    && (way_of_channel(channel) == 0 || !are_ways_same(rule))
            }
        }
    }

    /// What a channel of a rule leaves at the first site and, for a rule of two sites, at the second.
    pub fn products(&self, channel: u16) -> (SpeciesId, Option<SpeciesId>)
        requires { rule_number channel < length self.now.rules }
        ensures { Some result ≡ products_of self.now.rules channel }
    {
        let rule = &self.rules[usize::from(rule_of_channel(channel))];
        products(rule, way_of_channel(channel))
    }
}

/// The event of a channel whose draw is made.
#[inline]
fn armed(channel: Channel, place: Place, from: u64, draw: u64) -> Event
    requires channel { IsChannel channel }
    requires from { from ≤ 10 ^ 15 }
    ensures { result ≡ record { time = from + wait_of channel.rate draw; place = place; channel = channel.number } }
{
    Event {
        time: from + wait(channel.rate, draw).unwrap(),
        place,
        channel: channel.number,
    }
}

/// What stands at the sites of a place.
#[inline]
fn reactants_of(a: SiteState, b: Option<SiteState>) -> Reactants
    ensures { result ≡ reactants_at a b }
{
    Reactants {
        first: a.species,
        second: match b {
            Some(b) => Some(b.species),
            None => None,
        },
    }
}

/// The occurrence of a place whose sites have these states, and the tick at which its waits begin.
#[inline]
fn beginning_of(a: SiteState, b: Option<SiteState>) -> (u64, u64)
    requires first { IsWithinBounds a }
    requires second { IfSome b IsWithinBounds }
    ensures occurrence { result.0 ≡ occurrence a b }
    ensures from { result.1 ≡ latest a b }
    ensures few { result.0 < 2 ^ 54 }
    ensures early { result.1 ≤ 10 ^ 15 }
{
    match b {
        None => (a.version, a.last),
        Some(b) => (a.version + b.version, a.last.max(b.last)),
    }
}

fn index_of(alloc: Global, rules: &[Rule]) -> Result<Index, NoMemory>
    requires { length rules.now ≤ 4096 }
    ensures { IfOk result (λ i. IsIndexed rules.now i) }
{
    let mut index = Index::new(alloc);
    for (i, rule) in rules.iter().enumerate() {
        index.add_rule(alloc, 2 * i as u16, *rule)?;
    }
    Ok(index)
}

/// Whether the rule has two sites.
fn has_second(rule: &Rule) -> bool
    ensures { result ≡ has_two rule.now }
{
    match rule {
        Rule::One { .. } => false,
        Rule::Two { .. } => true,
    }
}
