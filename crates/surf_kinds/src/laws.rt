//! Laws of keys and places, over their definitions alone.

ghost use Rattle.std.specs.Prelude.{◌≡◌, ◌⊎◌, ◌++◌, ℕ, List, Some, false, ◌≤◌};
ghost use Rattle.surf_kinds.specs.declared.event.Event.{Event as Fired};
ghost use Rattle.surf_kinds.specs.declared.event.Key.{Key as KeyValue};
ghost use Rattle.surf_kinds.specs.declared.place.Step.{Step as StepValue};
ghost use Rattle.surf_kinds.specs.Keys.{is_before, ◌is_below◌, ◌is_upto◌, key_after, below, from, IsRising, RiseStrictly};
ghost use Rattle.surf_kinds.specs.Rates.{IsReduced};
ghost use Rattle.surf_kinds.specs.Steps.{site_of_place, step_of_place, number_of_place};

/// The order of keys is strict, transitive and total.
pub fn keys_are_ordered()
    ensures strict { (k : KeyValue) → is_before k k ≡ false }
    ensures transitive { (i j k : KeyValue) → i is_below j → j is_below k → i is_below k }
    ensures total { (j k : KeyValue) → (j is_below k) ⊎ ((j ≡ k) ⊎ (k is_below j)) }
{}

/// The key after a key is the next one: nothing lies between them.
pub fn after_is_the_next_key()
    ensures above { (k : KeyValue) → k is_below key_after k }
    ensures between { (j k : KeyValue) → k is_below j → j is_below key_after k → ⊥ }
    ensures next { (j k : KeyValue) → k is_below j → key_after k is_upto j }
{}

/// Events whose keys rise strictly, each against the next one, rise strictly one against all behind it, and the other
/// way round. A key parts them into those below it and those from it on.
pub fn events_are_parted_by_a_key()
    ensures all { (es : List Fired) → RiseStrictly es → IsRising es }
    ensures next { (es : List Fired) → IsRising es → RiseStrictly es }
    ensures parted { (k : KeyValue) (es : List Fired) → RiseStrictly es → es ≡ below k es ++ from k es }
{}

/// A place has the site and the step that its number was made from, and its number is made from these.
pub fn places_are_taken_apart()
    ensures site { (site : ℕ) (step : StepValue) → site_of_place (number_of_place site step) ≡ site }
    ensures step { (site : ℕ) (step : StepValue) → step_of_place (number_of_place site step) ≡ Some step }
    ensures number { (place : ℕ) (step : StepValue) → step_of_place place ≡ Some step → number_of_place (site_of_place place) step ≡ place }
{}

/// A whole number and one part of a whole number are fractions in lowest terms.
pub fn whole_numbers_and_their_parts_are_rates()
    ensures whole { (p : ℕ) → p ≤ 1000000000 → IsReduced (record { p = p; q = 1 }) }
    ensures part { (q : ℕ) → 1 ≤ q → q ≤ 1000000000 → IsReduced (record { p = 1; q = q }) }
{}
