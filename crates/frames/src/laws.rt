//! Laws of states and lists of changes, over their definitions alone.

ghost use Rattle.std.specs.Prelude.{◌≡◌, ◌<◌, ◌≤◌, ◌++◌, ◌∷◌, [], ℕ, List, length};
ghost use mathlib.Core.List.{IsPrefix};
ghost use Rattle.frames.specs.declared.sample.Change.{Change as ChangeValue};
ghost use Rattle.frames.specs.declared.sample.Sample.{Sample as State};
ghost use Rattle.frames.specs.States.{after, next, total, MayFollow};

/// The state after a list has one event for each change and one count for each species, and a further change goes on
/// from it.
pub fn states_count_changes()
    ensures events { (start : List ℕ) (changes : List ChangeValue) → (after start changes).events ≡ length changes }
    ensures kinds { (start : List ℕ) (changes : List ChangeValue) → length (after start changes).counts ≡ length start }
    ensures further { (start : List ℕ) (changes : List ChangeValue) (c : ChangeValue) → after start (changes ++ c ∷ []) ≡ next (after start changes) c }
{}

/// A change that may follow leaves as many sites as there were.
pub fn changes_keep_the_sites()
    ensures { (s : State) (c : ChangeValue) → MayFollow s c → total (next s c).counts ≡ total s.counts }
{}

/// Of two beginnings of one list, the one that is no longer begins the other, and is it where they are as long.
pub fn beginnings_are_compared()
    ensures shorter { (xs ys all : List ChangeValue) → IsPrefix xs all → IsPrefix ys all → length xs ≤ length ys → IsPrefix xs ys }
    ensures whole { (xs all : List ChangeValue) → IsPrefix xs all → length all ≤ length xs → xs ≡ all }
    ensures transitive { (xs ys all : List ChangeValue) → IsPrefix xs ys → IsPrefix ys all → IsPrefix xs all }
{}
