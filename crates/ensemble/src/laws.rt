//! Laws of outcomes, over their definitions alone.

ghost use Rattle.std.specs.Prelude.{◌≡◌, ◌≤◌, ◌<◌, ◌+◌, ◌^◌, ◌++◌, ℕ, List, length, take, drop, get_or, true, false};
ghost use Rattle.std.specs.List.{flat_map};
ghost use Rattle.manifest_read.specs.declared.manifest.Manifest.{Manifest};
ghost use Rattle.ensemble.specs.declared.outcome.EnsembleSettings.{EnsembleSettings};
ghost use Rattle.ensemble.specs.Outcomes.{history_with, nth_outcome, nth_seed, outcome_of, outcomes};

/// There is an outcome for each seed, and the number of workers has no effect on them.
pub fn outcomes_are_those_of_the_seeds()
    ensures count { (m : Manifest) (s : EnsembleSettings) → length (outcomes m s) ≡ s.seeds }
    ensures workers { (m : Manifest) (s : EnsembleSettings) (workers : ℕ) → outcomes m (record s { workers = workers }) ≡ outcomes m s }
{}

/// A run that has exactly as many events as the limit has ended; one with more has not, and has as many as the limit.
pub fn runs_end_at_the_limit()
    ensures ended { (m : Manifest) (s : EnsembleSettings) (i : ℕ)
        → length (history_with m (nth_seed s i) s.until) ≤ s.limit
        → nth_outcome m s i ≡ outcome_of m (nth_seed s i) true (history_with m (nth_seed s i) s.until) }
    ensures cut { (m : Manifest) (s : EnsembleSettings) (i : ℕ)
        → s.limit < length (history_with m (nth_seed s i) s.until)
        → nth_outcome m s i ≡ outcome_of m (nth_seed s i) false (take s.limit (history_with m (nth_seed s i) s.until)) }
    ensures events { (m : Manifest) (s : EnsembleSettings) (i : ℕ) → (nth_outcome m s i).events ≤ s.limit }
{}

/// The seeds follow one another, and 0 follows the greatest.
pub fn seeds_follow_one_another()
    ensures next { (s : EnsembleSettings) (i : ℕ) → nth_seed s i + 1 < 2 ^ 64 → nth_seed s (i + 1) ≡ nth_seed s i + 1 }
    ensures wraps { (s : EnsembleSettings) (i : ℕ) → nth_seed s i + 1 ≡ 2 ^ 64 → nth_seed s (i + 1) ≡ 0 }
{}

/// The lines of outcomes, or other texts of the items of a list, grow by one item at a time, and that of each item stands
/// between those of the items before it and behind it.
pub fn lines_follow_one_another<X>()
    ensures more { (f : X → List ℕ) (xs : List X) (i : ℕ) (d : X) → i < length xs
        → flat_map f (take (i + 1) xs) ≡ flat_map f (take i xs) ++ f (get_or xs i d) }
    ensures within { (f : X → List ℕ) (xs : List X) (i : ℕ) (d : X) → i < length xs
        → (flat_map f (take i xs) ++ f (get_or xs i d)) ++ flat_map f (drop (i + 1) xs) ≡ flat_map f xs }
{}
