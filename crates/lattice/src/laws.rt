//! Laws of places and of what events leave, over their definitions alone.

ghost use Rattle.std.specs.Prelude.{◌≡◌, ◌≢◌, ◌*◌, ◌/◌, ◌-◌, ◌<◌, ◌≤◌, ◌^◌, ◌⊎◌, ℕ, List, Option, length, Some, None, true, slice_get, All, IfSome};
ghost use Rattle.surf_kinds.specs.declared.rule.Rule.{Rule as RuleValue};
ghost use Rattle.surf_kinds.specs.declared.site.SiteId.{SiteId as SiteIdValue};
ghost use Rattle.surf_kinds.specs.declared.site.Sites.{Sites as SitesValue};
ghost use Rattle.surf_kinds.specs.declared.site.SiteState.{SiteState as SiteStateValue};
ghost use Rattle.surf_kinds.specs.declared.site.SpeciesId.{SpeciesId as SpeciesIdValue};
ghost use Rattle.surf_kinds.specs.declared.event.Event.{Event as EventValue};
ghost use Rattle.surf_kinds.specs.declared.place.Step.TheVariants.{Alone};
ghost use Rattle.surf_kinds.specs.Keys.{RiseStrictly};
ghost use Rattle.surf_kinds.specs.Steps.{site_of_place, number_of_place, end_of_places};
ghost use Rattle.lattice.specs.Shape.{Shape};
ghost use Rattle.lattice.specs.Places.{forward, back, sites_of, HasSite, IsAmong, SameSites};
ghost use Rattle.lattice.specs.Rows.{row_of_place, goes_down, IsInRows, Lower, Upper};
ghost use Rattle.lattice.specs.Surface.{first_surface, first_product_of, second_product_of, rewrite, rewritten, HasRoom, after, after_all, end_time, Rewritten};

/// The sites of a place are sites of the lattice, and the first is the one that the place's number names. Each site alone
/// is a place.
pub fn places_have_sites_of_the_lattice()
    ensures within { (l : Shape) (place s : ℕ) (p : SitesValue) → sites_of l place ≡ Some p → IsAmong s p → s < l.rows * l.cols }
    ensures first { (l : Shape) (place : ℕ) (p : SitesValue) → sites_of l place ≡ Some p → p.first.0 < l.rows * l.cols }
    ensures second { (l : Shape) (place : ℕ) (p : SitesValue) (n : SiteIdValue) → sites_of l place ≡ Some p → p.second ≡ Some n → n.0 < l.rows * l.cols }
    ensures number { (l : Shape) (place : ℕ) (p : SitesValue) → sites_of l place ≡ Some p → place < end_of_places (l.rows * l.cols) }
    ensures named { (l : Shape) (place : ℕ) (p : SitesValue) → sites_of l place ≡ Some p → p.first.0 ≡ site_of_place place }
    ensures alone { (l : Shape) (s : ℕ) → s < l.rows * l.cols → sites_of l (number_of_place s Alone) ≡ Some (record { first = record { 0 = s }; second = None }) }
{}

/// A place's two sites differ, and two places with the same sites are the same.
pub fn places_differ()
    ensures sites { (l : Shape) (place : ℕ) (p : SitesValue) (n : SiteIdValue) → sites_of l place ≡ Some p → p.second ≡ Some n → n.0 ≢ p.first.0 }
    ensures places { (l : Shape) (p q : ℕ) (x y : SitesValue) → sites_of l p ≡ Some x → sites_of l q ≡ Some y → SameSites x y → p ≡ q }
{}

/// The sites of a place are in the row of its first site or, where its step leads down, in that row and the next one. Each
/// site with a row before it is the second one of such a place.
pub fn places_are_in_two_rows()
    ensures below { (l : Shape) (place : ℕ) (p : SitesValue) → sites_of l place ≡ Some p → row_of_place l place < l.rows }
    ensures rows { (l : Shape) (place s : ℕ) → HasSite l place s → IsInRows l place s }
    ensures first { (l : Shape) (place : ℕ) (p : SitesValue) → sites_of l place ≡ Some p → HasSite l place (site_of_place place) }
    ensures lower { (l : Shape) (place : ℕ) (p : SitesValue) → sites_of l place ≡ Some p → goes_down place ≡ true → Lower l place }
    ensures upper { (l : Shape) (s row : ℕ) → s < l.rows * l.cols → back l.wrap l.rows (s / l.cols) ≡ Some row → Upper l s row }
    ensures back { (l : Shape) (row next : ℕ) → row < l.rows → forward l.wrap l.rows row ≡ Some next → back l.wrap l.rows next ≡ Some row }
{}

/// The rewriting of a site changes that site alone, and leaves it room for another.
pub fn one_site_is_rewritten()
    ensures count { (product : SpeciesIdValue → SpeciesIdValue) (time i : ℕ) (o : Option SiteStateValue) (sites : List SiteStateValue) → length (rewrite product time i o sites) ≡ length sites }
    ensures other { (product : SpeciesIdValue → SpeciesIdValue) (time i : ℕ) (o : Option SiteStateValue) (sites : List SiteStateValue) (k : ℕ) → k ≢ i → slice_get (rewrite product time i o sites) k ≡ slice_get sites k }
    ensures same { (product : SpeciesIdValue → SpeciesIdValue) (time i : ℕ) (sites : List SiteStateValue) (s : SiteStateValue) → slice_get sites i ≡ Some s → slice_get (rewrite product time i (slice_get sites i) sites) i ≡ Some (rewritten (product s.species) time s) }
    ensures room { (product : SpeciesIdValue → SpeciesIdValue) (time i j : ℕ) (sites : List SiteStateValue) → j < length sites → IfSome (slice_get sites j) (λ s. s.version < 2 ^ 53) → IfSome (slice_get (rewrite product time i (slice_get sites i) sites) j) (λ s. s.version < 2 ^ 64 - 1) }
    ensures enough { (l : Shape) (sites : List SiteStateValue) (place : ℕ) → All (λ s. s.version < 2 ^ 53) sites → HasRoom l sites place }
{}

/// An event rewrites the sites of its place and no others: each site is as it was, or is rewritten. The number of sites
/// stays.
pub fn an_event_rewrites_its_sites()
    ensures count { (l : Shape) (rules : List RuleValue) (sites : List SiteStateValue) (e : EventValue) → length (after l rules sites e) ≡ length sites }
    ensures nothing { (l : Shape) (rules : List RuleValue) (sites : List SiteStateValue) (e : EventValue) → sites_of l e.place.0 ≡ None → after l rules sites e ≡ sites }
    ensures first { (l : Shape) (rules : List RuleValue) (sites : List SiteStateValue) (e : EventValue) (p : SitesValue) (s : SiteStateValue) → sites_of l e.place.0 ≡ Some p → slice_get sites p.first.0 ≡ Some s → slice_get (after l rules sites e) p.first.0 ≡ Some (rewritten (first_product_of rules e s.species) e.time s) }
    ensures second { (l : Shape) (rules : List RuleValue) (sites : List SiteStateValue) (e : EventValue) (p : SitesValue) (n : SiteIdValue) (s : SiteStateValue) → sites_of l e.place.0 ≡ Some p → p.second ≡ Some n → slice_get sites n.0 ≡ Some s → slice_get (after l rules sites e) n.0 ≡ Some (rewritten (second_product_of rules e s.species) e.time s) }
    ensures other { (l : Shape) (rules : List RuleValue) (sites : List SiteStateValue) (e : EventValue) (p : SitesValue) (k : ℕ) → sites_of l e.place.0 ≡ Some p → k ≢ p.first.0 → ((n : SiteIdValue) → p.second ≡ Some n → k ≢ n.0) → slice_get (after l rules sites e) k ≡ slice_get sites k }
    ensures site { (l : Shape) (rules : List RuleValue) (sites : List SiteStateValue) (e : EventValue) (k : ℕ) (s : SiteStateValue) → slice_get (after l rules sites e) k ≡ Some s → (slice_get sites k ≡ Some s) ⊎ Rewritten l sites e k s }
{}

/// A site has at most seven places, so it is rewritten at most seven times in a tick: after events whose keys rise, each
/// version is at most 7 times its last tick, and that tick is at most the time of the last event.
pub fn seven_rewritings_a_tick()
    ensures versions { (l : Shape) (rules : List RuleValue) (cells : List SpeciesIdValue) (es : List EventValue) → RiseStrictly es → All (λ e. 1 ≤ e.time) es → All (λ s. s.version ≤ 7 * s.last) (after_all l rules (first_surface cells) es) }
    ensures lasts { (l : Shape) (rules : List RuleValue) (cells : List SpeciesIdValue) (es : List EventValue) → RiseStrictly es → All (λ e. 1 ≤ e.time) es → All (λ s. s.last ≤ end_time es) (after_all l rules (first_surface cells) es) }
{}
