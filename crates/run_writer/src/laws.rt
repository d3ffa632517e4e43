//! Laws of run texts, and of texts that are written in pieces, over their definitions alone.

ghost use Rattle.std.specs.Prelude.{◌≡◌, ◌+◌, ◌<◌, ◌≤◌, ◌++◌, ◌∷◌, [], ℕ, List, All, Result, length, sum};
ghost use Rattle.std.specs.Io.KnownBytes.{Appends};
ghost use Rattle.surf_kinds.specs.declared.event.Event.{Event};
ghost use Rattle.surf_kinds.specs.declared.site.SiteState.{SiteState};
ghost use Rattle.surf_kinds.specs.declared.site.SpeciesId.{SpeciesId};
ghost use Rattle.surf_outside.specs.Known.{AppendsPrefix};
ghost use Rattle.lattice.specs.Surface.{first_surface};
ghost use Rattle.plan.specs.History.{IsHistory};
ghost use Rattle.one_engine.specs.State.{LeavesWithin};
ghost use Rattle.warp_core.specs.Configs.{IsFresh};
ghost use Rattle.trace_text.specs.Lines.{counts_of, end_text, surface_text};
ghost use Rattle.run_writer.specs.Cuts.{events_upto, surface_after, reached_after, first_part, text_by_ticks, EndsWithText};
ghost use Rattle.run_writer.specs.Pages.{Page, Puts, Stopped, Wrote};
ghost use Rattle.run_writer.specs.RunText.{Scene, Reached, events_of, sampling_ticks, run_text, start, text_from};
ghost use Rattle.run_writer.specs.Writing.{remaining_text};
ghost use Rattle.run_writer.specs.declared.pages.Stop.{Stop};

use plan::laws::one_after_the_other;
use trace_text::laws::each_site_is_counted_once;

/// Where a run has at most as many events as its limit, its text goes tick by tick: the surface that is shown at a
/// sampling tick is the first surface after the events of the history with times up to that tick.
pub fn surfaces_stand_at_their_ticks()
    ensures { (s : Scene) (sites : List SiteState) → length (events_of s sites) ≤ s.limit
        → run_text s sites ≡ text_by_ticks (sampling_ticks s.until s.samples) (events_of s sites) s sites 0 }
{}

/// A run text is that of the events up to a tick, where there are at most as many of them as the limit, and then the
/// text of what remains of the run from the surface after them on.
pub fn a_text_goes_on_from_a_tick()
    ensures { (s : Scene) (sites : List SiteState) (tick : ℕ) → length (events_upto tick (events_of s sites)) ≤ s.limit
        → run_text s sites ≡ first_part (events_upto tick (events_of s sites)) s (start s sites)
        ++ remaining_text s (reached_after s (start s sites) (events_upto tick (events_of s sites))) }
{
    one_after_the_other();
}

/// In each line of counts of a run text the counts sum to the number of sites: whatever events there were before, where
/// the rules and the first surface have species with names alone.
pub fn counts_are_whole()
    ensures { (s : Scene) (cells : List SpeciesId) (es : List Event) → All (LeavesWithin (length s.names)) s.network.rules → All (λ k. k.0 < length s.names) cells
        → sum (counts_of (surface_after s (first_surface cells) es) (length s.names)) ≡ length cells }
{
    each_site_is_counted_once();
}

/// The text of a run with at most as many events as its limit ends with their number. Where surfaces are shown, the last
/// sampling tick is the end of the run, and behind the surface after all events nothing but that number stands.
pub fn texts_end_with_their_events()
    ensures count { (es : List Event) (s : Scene) (r : Reached) (n : ℕ) → n ≡ r.events + length es → n ≤ s.limit → EndsWithText (end_text s.until n) (text_from es s r) }
    ensures surface { (es : List Event) (s : Scene) (r : Reached) (ticks : List ℕ) (n : ℕ) → IsHistory s.network s.until r.sites es → r.ticks ≡ ticks ++ s.until ∷ [] → n ≡ r.events + length es → n ≤ s.limit
        → EndsWithText (surface_text s.names s.network.lattice (surface_after s r.sites es) s.until n ++ end_text s.until n) (text_from es s r) }
    ensures ticks { (until samples : ℕ) → 1 ≤ samples → (ticks : List ℕ) × (sampling_ticks until samples ≡ ticks ++ until ∷ []) }
{}

/// Texts are written one after the other, where some of each may wait to go out: what was written of two texts was written
/// of the one after the other, and a failure within a text is one within what it is a part of.
pub fn texts_are_written_in_turn()
    ensures none { (a : Page) → Wrote a a [] }
    ensures more { (a b c : Page) (x y : List ℕ) → Wrote a b x → Wrote b c y → Wrote a c (x ++ y) }
    ensures after { (a b c : Page) (x y : List ℕ) (result : Result (Unit {0}) Stop) → Wrote a b x → Puts b c y result → Puts a c (x ++ y) result }
    ensures stopped { (a b c : Page) (x y : List ℕ) (stop : Stop) → Wrote a b x → Stopped b c y stop → Stopped a c (x ++ y) stop }
    ensures longer { (a b : Page) (x y : List ℕ) (stop : Stop) → Stopped a b x stop → Stopped a b (x ++ y) stop }
    ensures whole { (a b : Page) (x : List ℕ) → Wrote a b x → a.pending ≡ [] → b.pending ≡ [] → Appends a.written b.written x }
    ensures prefix { (a b : Page) (x : List ℕ) (stop : Stop) → a.pending ≡ [] → Stopped a b x stop → AppendsPrefix a.written b.written x }
{}

/// No site of a first surface was ever rewritten.
pub fn first_surfaces_are_fresh()
    ensures { (cells : List SpeciesId) → All IsFresh (first_surface cells) }
{}
