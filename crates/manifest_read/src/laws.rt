//! Laws of the definitions of manifests.

ghost use Rattle.std.specs.Prelude.{◌≡◌, ◌++◌, ◌∷◌, ◌≤◌, ℕ, List, None, length};
ghost use Rattle.species.specs.Names.{place_of};
ghost use Rattle.lattice.specs.Shape.{IsSize};
ghost use Rattle.manifest_read.specs.declared.manifest.Manifest.{Manifest};
ghost use Rattle.manifest_read.specs.CollectedView.{name_at};
ghost use Rattle.manifest_read.specs.Limits.{IsAccepted, IsWithin};
ghost use Rattle.manifest_read.specs.Manifest.{content_of, end_verdict, fault_of, first_seen, open_of, IsValid};
ghost use Rattle.manifest_read.specs.Names.{IsListed, AreListed};
ghost use Rattle.manifest_read.specs.Sorts.{LineSort, sort_of};
ghost use Rattle.manifest_read.specs.Sound.{IsSound};
ghost use Rattle.manifest_read.specs.Steps.{after, content_after, fault_at, state_after};

/// A reader that takes line by line has, after each line, the state that the definitions give for all the lines so
/// far, and finds the faults that they give.
pub fn lines_are_taken_one_by_one()
    ensures state { (line : List ℕ) (before : List (List ℕ)) → state_after (line ∷ before) ≡ after (state_after before) (sort_of line) }
    ensures content { (line : List ℕ) (before : List (List ℕ)) → content_of (line ∷ before) ≡ content_after (open_of before) (sort_of line) (content_of before) }
    ensures fault { (n : ℕ) (before : List (List ℕ)) (sort : LineSort) → fault_at n (state_after before) sort ≡ fault_of before n sort }
{}

/// The names by first appearance list each of them, in no more places than any list of them all has; and the name at
/// the place of a listed name is that name.
pub fn first_names_are_listed()
    ensures seen { (words : List (List ℕ)) → AreListed (first_seen words) words }
    ensures few { (words known : List (List ℕ)) → AreListed known words → length (first_seen words) ≤ length known }
    ensures place { (names : List (List ℕ)) (word : List ℕ) → IsListed names word → name_at names (place_of names word) ≡ word }
    ensures left { (known xs ys : List (List ℕ)) → AreListed known (xs ++ ys) → AreListed known xs }
    ensures right { (known xs ys : List (List ℕ)) → AreListed known (xs ++ ys) → AreListed known ys }
    ensures both { (known xs ys : List (List ℕ)) → AreListed known xs → AreListed known ys → AreListed known (xs ++ ys) }
{}

/// Lines without a fault are within the limits, and at the end of a text their rows and columns make a lattice.
pub fn accepted_lines_are_within_limits()
    ensures within { (lines : List (List ℕ)) → IsAccepted lines → IsWithin (content_of lines) }
    ensures size { (lines : List (List ℕ)) → IsAccepted lines → end_verdict lines ≡ None → IsSize (content_of lines).rows (content_of lines).cols }
{}

/// Every manifest that some text has is sound.
pub fn manifests_are_sound()
    ensures { (m : Manifest) → IsValid m → IsSound m }
{}
