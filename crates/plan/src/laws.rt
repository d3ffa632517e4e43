//! Laws of the simulation, over its definitions alone.

ghost use Rattle.std.specs.Prelude.{◌≡◌, ◌<◌, ◌≤◌, ◌⊎◌, ◌∷◌, ◌++◌, [], ℕ, List, Option, Some, None, IfSome, is_some, true, false, slice_get};
ghost use Rattle.surf_kinds.specs.declared.event.Event.{Event};
ghost use Rattle.surf_kinds.specs.declared.event.Key.{Key};
ghost use Rattle.surf_kinds.specs.declared.rule.Rule.{Rule};
ghost use Rattle.surf_kinds.specs.declared.site.SiteState.{SiteState};
ghost use Rattle.surf_kinds.specs.declared.site.SpeciesId.{SpeciesId};
ghost use Rattle.surf_kinds.specs.Keys.{RiseStrictly, at, below, is_earlier, key_of};
ghost use Rattle.lattice.specs.Shape.{Shape};
ghost use Rattle.lattice.specs.Places.{sites_of, HasSite, IsPlace};
ghost use Rattle.lattice.specs.Surface.{after, after_all, IsChannelOf};
ghost use Rattle.plan.specs.Network.{Network};
ghost use Rattle.plan.specs.Offered.{IsOffered};
ghost use Rattle.plan.specs.Next.{next, least};
ghost use Rattle.plan.specs.Sharing.{ShareSite};
ghost use Rattle.plan.specs.Products.{fits_place, products_of};
ghost use Rattle.plan.specs.History.{due, history, if_at, AreNext, IsHistory, IsIn};

/// The laws of places and of versions, which are about the lattice alone.
pub use lattice::laws::{places_differ, seven_rewritings_a_tick};

/// The event that a place offers is at the place, by a channel whose rule matches what stands there, so its channel fits
/// it, and it comes after the last rewriting of each of the place's sites. What a place offers depends on its own sites
/// alone.
pub fn offers_of_a_place()
    ensures offered { (n : Network) (sites : List SiteState) (place : ℕ) (e : Event) → next n sites place ≡ Some e → IsOffered n sites place e }
    ensures place { (n : Network) (sites : List SiteState) (place : ℕ) (e : Event) → next n sites place ≡ Some e → e.place.0 ≡ place }
    ensures fits { (n : Network) (sites : List SiteState) (place : ℕ) (e : Event) → next n sites place ≡ Some e → fits_place n e.place.0 e.channel ≡ true }
    ensures later { (n : Network) (sites : List SiteState) (place k : ℕ) (e : Event)
        → next n sites place ≡ Some e → HasSite n.lattice place k → (s : SiteState) × (slice_get sites k ≡ Some s) × (s.last < e.time) }
    ensures local { (n : Network) (place : ℕ) (a b : List SiteState)
        → ((k : ℕ) → HasSite n.lattice place k → slice_get a k ≡ slice_get b k) → next n a place ≡ next n b place }
{}

/// Where a channel fits a place, the place is one of the lattice and the channel one of a rule, and its products are as
/// many as the place's sites.
pub fn channels_that_fit()
    ensures place { (n : Network) (place channel : ℕ) → fits_place n place channel ≡ true → IsPlace n.lattice place }
    ensures channel { (n : Network) (place channel : ℕ) → fits_place n place channel ≡ true → IsChannelOf n.rules channel }
    ensures products { (n : Network) (place channel : ℕ) (to : SpeciesId × Option SpeciesId)
        → fits_place n place channel ≡ true → Some to ≡ products_of n.rules channel → IfSome (sites_of n.lattice place) (λ p. is_some to.1 ≡ is_some p.second) }
{}

/// An event leaves each site that is none of its place's.
pub fn sites_elsewhere_stay()
    ensures { (l : Shape) (rules : List Rule) (sites : List SiteState) (e : Event) (k : ℕ)
        → (HasSite l e.place.0 k → ⊥) → slice_get (after l rules sites e) k ≡ slice_get sites k }
{}

/// What a place offers after an event it offered before, or it is later than the event. The event's own place, and each
/// place that shares a site with it, offers a later one; each other place offers what it offered.
pub fn offers_after_an_event()
    ensures old_or_later { (n : Network) (sites : List SiteState) (f e : Event) (place : ℕ)
        → next n (after n.lattice n.rules sites f) place ≡ Some e → (next n sites place ≡ Some e) ⊎ (f.time < e.time) }
    ensures again { (n : Network) (sites : List SiteState) (f e : Event) → next n (after n.lattice n.rules sites f) f.place.0 ≡ Some e → f.time < e.time }
    ensures shared { (n : Network) (sites : List SiteState) (f e : Event) (place : ℕ)
        → ShareSite n.lattice f.place.0 place → next n (after n.lattice n.rules sites f) place ≡ Some e → f.time < e.time }
    ensures apart { (n : Network) (sites : List SiteState) (e : Event) (place : ℕ)
        → (ShareSite n.lattice e.place.0 place → ⊥) → next n (after n.lattice n.rules sites e) place ≡ next n sites place }
    ensures decided { (l : Shape) (p q : ℕ) → ShareSite l p q ⊎ (ShareSite l p q → ⊥) }
{}

/// The event of a place that no other place's is before is the least; there is none where no place offers one. What is
/// due is the next event of its place, and within the duration.
pub fn least_of_all_places()
    ensures some { (n : Network) (sites : List SiteState) (e : Event)
        → next n sites e.place.0 ≡ Some e → ((place : ℕ) (f : Event) → next n sites place ≡ Some f → is_earlier f e ≡ false) → least n sites ≡ Some e }
    ensures none { (n : Network) (sites : List SiteState) → ((place : ℕ) → next n sites place ≡ None) → least n sites ≡ None }
    ensures due { (n : Network) (until : ℕ) (sites : List SiteState) (e : Event)
        → due n until sites ≡ Some e → (next n sites e.place.0 ≡ Some e) × (e.time ≤ until) }
{}

/// The history has an event exactly where the surface after the events below its key offers it.
pub fn pointwise()
    ensures found { (n : Network) (until : ℕ) (sites : List SiteState) (e : Event)
        → IsIn e (history n until sites)
        → next n (after_all n.lattice n.rules sites (below (key_of e) (history n until sites))) e.place.0 ≡ Some e }
    ensures only { (n : Network) (until : ℕ) (sites : List SiteState) (e : Event)
        → e.time ≤ until
        → next n (after_all n.lattice n.rules sites (below (key_of e) (history n until sites))) e.place.0 ≡ Some e
        → IsIn e (history n until sites) }

    // The same at a key: there the history has what that surface offers.
    ensures at_each_key { (n : Network) (until : ℕ) (sites : List SiteState) (k : Key)
        → k.time ≤ until
        → at k (history n until sites) ≡ if_at k (next n (after_all n.lattice n.rules sites (below k (history n until sites))) k.place.0) }
{}

/// The keys of a history rise strictly.
pub fn keys_rise()
    ensures { (n : Network) (until : ℕ) (sites : List SiteState) → RiseStrictly (history n until sites) }
{}

/// The events of a history come one after the other, each the next one of the surface after those before it, to
/// the last that is due. No other events do.
pub fn one_after_the_other()
    ensures is_one { (n : Network) (until : ℕ) (sites : List SiteState) → IsHistory n until sites (history n until sites) }
    ensures only_one { (n : Network) (until : ℕ) (sites : List SiteState) (es : List Event) → IsHistory n until sites es → es ≡ history n until sites }
    ensures due { (n : Network) (until : ℕ) (sites : List SiteState) (e : Event)
        → due n until sites ≡ Some e → history n until sites ≡ e ∷ history n until (after n.lattice n.rules sites e) }
    ensures none { (n : Network) (until : ℕ) (sites : List SiteState) → due n until sites ≡ None → history n until sites ≡ [] }
    ensures next { (n : Network) (until : ℕ) (sites : List SiteState) (es : List Event)
        → AreNext n until sites es → history n until sites ≡ es ++ history n until (after_all n.lattice n.rules sites es) }
{}
