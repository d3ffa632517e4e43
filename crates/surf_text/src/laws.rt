//! Laws of texts, over their definitions alone.

ghost use Rattle.std.specs.Prelude.{◌≡◌, ◌+◌, ◌<◌, ◌≤◌, ◌∷◌, ◌++◌, ◌^◌, ℕ, List, [], length, take, drop, get_or, Bool, true, false, not, Some, None, decimal};
ghost use Rattle.std.specs.List.{slice_split, flat_map};
ghost use Rattle.std.specs.Str.Parse.{digits_value, digits_value_after};
ghost use Rattle.surf_text.specs.Lines.{is_blank, lines_of, trim_front, trimmed};
ghost use Rattle.surf_text.specs.Cuts.{cut_at, cut_where, words_of};
ghost use Rattle.surf_text.specs.Passing.{Each, lacks, inked, begins, ends};
ghost use Rattle.surf_text.specs.Numbers.{all_digits, u64_of};
ghost use Rattle.surf_text.specs.Decimals.{decimal_of};
ghost use Rattle.surf_text.specs.Grammar.{IsDecimal};
ghost use Rattle.surf_text.specs.declared.numbers.Dec.{Dec};

/// A text of the grammar is read as its value.
pub fn decimals()
    ensures { (text : List ℕ) (d : Dec) → IsDecimal text d → decimal_of text ≡ Some d }
{}

/// A number is read as it was written.
pub fn written_numbers()
    ensures digits { (n : ℕ) → n < 2 ^ 64 → all_digits (decimal n) ≡ true }
    ensures value { (n : ℕ) → n < 2 ^ 64 → digits_value 10 (decimal n) ≡ n }
    ensures number { (n : ℕ) → n < 2 ^ 64 → u64_of (decimal n) ≡ Some n }
{}

/// The value of digits behind others.
pub fn more_digits()
    ensures { (xs : List ℕ) (n : ℕ) (ys : List ℕ) → digits_value_after 10 n (xs ++ ys) ≡ digits_value_after 10 (digits_value_after 10 n xs) ys }
{}

/// Blanks are bytes of ASCII, and go from the front of a text.
pub fn blanks()
    ensures ascii { (c : ℕ) → is_blank c ≡ true → c < 128 }
    ensures blank { (c : ℕ) (cs : List ℕ) → is_blank c ≡ true → trim_front (c ∷ cs) ≡ trim_front cs }
    ensures other { (c : ℕ) (cs : List ℕ) → is_blank c ≡ false → trim_front (c ∷ cs) ≡ c ∷ cs }
{}

/// The pieces of a text are what stands before the first cut and the pieces of what stands after it, which is shorter.
pub fn pieces()
    ensures cut { (test : ℕ → Bool) (text front back : List ℕ) → Some (front, back) ≡ cut_where test text → slice_split test text ≡ front ∷ slice_split test back }
    ensures uncut { (test : ℕ → Bool) (text : List ℕ) → None ≡ cut_where test text → slice_split test text ≡ text ∷ [] }
    ensures shorter { (test : ℕ → Bool) (text front back : List ℕ) → Some (front, back) ≡ cut_where test text → length back < length text }
{}

/// A text has no more words than bytes and one.
pub fn words_are_few()
    ensures { (text : List ℕ) → length (words_of text) ≤ length text + 1 }
{}

/// Where each byte of two texts passes a test, each byte of the two in a row does; and it passes a weaker test too.
pub fn each_byte_passes()
    ensures append { (test : ℕ → Bool) (xs ys : List ℕ) → Each test xs → Each test ys → Each test (xs ++ ys) }
    ensures weaker { (test other : ℕ → Bool) → ((c : ℕ) → test c ≡ true → other c ≡ true) → (xs : List ℕ) → Each test xs → Each other xs }
{}

/// A text is cut at a byte that it lacks before that place, and not at all where it lacks the byte.
pub fn texts_are_cut()
    ensures front { (byte : ℕ) (front back : List ℕ) → Each (lacks byte) front → cut_at byte (front ++ byte ∷ back) ≡ Some (front, back) }
    ensures missing { (byte : ℕ) (text : List ℕ) → Each (lacks byte) text → cut_at byte text ≡ None }
    ensures line { (line rest : List ℕ) → Each (lacks 10) line → lines_of (line ++ 10 ∷ rest) ≡ line ∷ lines_of rest }
{}

/// A text is split at the first byte that passes a test, and is one piece where no byte does.
pub fn first_pieces()
    ensures first { (test : ℕ → Bool) (xs ys : List ℕ) (c : ℕ) → Each (λ x. not (test x)) xs → test c ≡ true → slice_split test (xs ++ c ∷ ys) ≡ xs ∷ slice_split test ys }
    ensures one { (test : ℕ → Bool) (xs : List ℕ) → Each (λ x. not (test x)) xs → slice_split test xs ≡ xs ∷ [] }
{}

/// A text without blanks is a word, at the end of a text or before a space.
pub fn first_words()
    ensures first { (c : ℕ) (cs ys : List ℕ) → Each inked (c ∷ cs) → words_of ((c ∷ cs) ++ 32 ∷ ys) ≡ (c ∷ cs) ∷ words_of ys }
    ensures last { (c : ℕ) (cs : List ℕ) → Each inked (c ∷ cs) → words_of (c ∷ cs) ≡ (c ∷ cs) ∷ [] }
{}

/// A text that begins and ends without a blank is trimmed as it stands, and so it is with a space behind it.
pub fn ends_without_blanks()
    ensures begins { (xs ys : List ℕ) → begins xs ≡ true → begins (xs ++ ys) ≡ true }
    ensures ends { (xs ys : List ℕ) → ends ys ≡ true → ends (xs ++ ys) ≡ true }
    ensures inked { (c : ℕ) (cs : List ℕ) → Each inked (c ∷ cs) → ends (c ∷ cs) ≡ true }
    ensures front { (text : List ℕ) → begins text ≡ true → trim_front text ≡ text }
    ensures trimmed { (text : List ℕ) → begins text ≡ true → ends text ≡ true → trimmed text ≡ text }
    ensures behind { (text : List ℕ) → begins text ≡ true → ends text ≡ true → trimmed (text ++ 32 ∷ []) ≡ text }
{}

/// A text of parts grows by one part at a time, and each part stands in it between the parts before and those after.
pub fn parts_follow_each_other<X>()
    ensures more { (f : X → List ℕ) (xs : List X) (i : ℕ) (d : X) → i < length xs → flat_map f (take (i + 1) xs) ≡ flat_map f (take i xs) ++ f (get_or xs i d) }
    ensures within { (f : X → List ℕ) (xs : List X) (i : ℕ) (d : X) → i < length xs → (flat_map f (take i xs) ++ f (get_or xs i d)) ++ flat_map f (drop (i + 1) xs) ≡ flat_map f xs }
{}
