//! The definitions as programs, one step after the other: what every faster program is compared with.

ghost use Rattle.std.specs.Prelude.{◌≡◌, ◌*◌, ◌-◌, ◌<◌, ◌^◌, length, slice_get, unwrap_or, IfSome, nat_lt};
ghost use Rattle.lattice.specs.Places.{IsPlace};
ghost use Rattle.lattice.specs.Channels.{are_ways_same as are_ways_same_so, matches as matches_so, products as products_in};
ghost use Rattle.lattice.specs.Surface.{after, rewrite as rewrite_by, rewritten as rewritten_by, IsChannelOf, HasRoom};

use crate::grid::Lattice;
use surf_kinds::{
    Event, Rate, Rule, SiteId, SiteState, SpeciesId, rule_of_channel, way_of_channel,
};

// A channel of rate 0 never fires.
fn fires(rate: Rate) -> bool
    ensures { result ≡ nat_lt 0 rate.p }
{
    rate.p > 0
}

/// Whether both ways of the rule are the same, so that way 0 stands for both.
pub fn are_ways_same(rule: &Rule) -> bool
    ensures { result ≡ are_ways_same_so rule.now }
{
    match rule {
        Rule::One { .. } => true,
        Rule::Two { a, b, c, d, .. } => a == b && c == d,
    }
}

/// Whether the reactants of the rule stand at the sites of a place in this way, with a rate above 0.
pub fn matches(rule: Rule, way: u8, first: SpeciesId, second: Option<SpeciesId>) -> bool
    requires { way < 2 }
    ensures { result ≡ matches_so rule way first second }
{
    match rule {
        Rule::One { rate, a, c: _ } => match second {
            None => way == 0 && fires(rate) && first == a,
            Some(_) => false,
        },
        Rule::Two { rate, a, b, .. } => match second {
            None => false,
            Some(second) if way == 0 => fires(rate) && first == a && second == b,
            Some(second) => fires(rate) && first == b && second == a && !are_ways_same(&rule),
        },
    }
}

/// What the rule leaves in this way: the new species of the first site and, for a rule of two sites, of the second.
pub fn products(rule: &Rule, way: u8) -> (SpeciesId, Option<SpeciesId>)
    ensures { result ≡ products_in way rule.now }
{
    match rule {
        Rule::One { c, .. } => (*c, None),
        Rule::Two { c, d, .. } if way == 0 => (*c, Some(*d)),
        Rule::Two { c, d, .. } => (*d, Some(*c)),
    }
}

// Also where the species stays.
fn rewritten(old: SiteState, species: SpeciesId, time: u64) -> SiteState
    requires { old.version < 2 ^ 64 - 1 }
    ensures { result ≡ rewritten_by species time old }
{
    SiteState {
        species,
        version: old.version + 1,
        last: time,
    }
}

/// Rewrites a site with a new species, or, where there is none, with the old one.
fn rewrite_site(sites: &mut [SiteState], site: SiteId, product: Option<SpeciesId>, time: u64)
    requires within { site.0 < length sites.old }
    requires room { IfSome (slice_get sites.old site.0) (λ s. s.version < 2 ^ 64 - 1) }
    ensures { sites.new ≡ rewrite_by (unwrap_or product) time site.0 (slice_get sites.old site.0) sites.old }
{
    let at = site.0 as usize;
    let old = sites[at];
    sites[at] = rewritten(old, product.unwrap_or(old.species), time);
}

/// Rewrites each site of the event's place, and no other.
pub fn rewrite(lattice: &Lattice, rules: &[Rule], sites: &mut [SiteState], event: Event)
    requires place { IsPlace lattice.now event.place.0 }
    requires channel { IsChannelOf rules.now event.channel }
    requires surface { length sites.old ≡ lattice.now.rows * lattice.now.cols }
    requires room { HasRoom lattice.now sites.old event.place.0 }
    ensures { sites.new ≡ after lattice.now rules.now sites.old event }
{
    let rule = &rules[usize::from(rule_of_channel(event.channel))];
    let (first, second) = products(rule, way_of_channel(event.channel));
    if let Some(place) = lattice.sites_of(event.place) {
        rewrite_site(sites, place.first, Some(first), event.time);
        if let Some(site) = place.second {
            rewrite_site(sites, site, second, event.time);
        }
    }
}
