//! Laws of texts that are written one after the other, over their definitions alone.

ghost use Rattle.std.specs.Prelude.{◌≡◌, ◌++◌, ◌+◌, ◌<◌, [], ℕ, List, Option, Result, Ok, Err};
ghost use Rattle.std.specs.Io.KnownBytes.{Appends};
ghost use Rattle.surf_outside.specs.declared.Failed.{Failed as Failure};
ghost use Rattle.surf_outside.specs.Known.{AppendsPrefix};
ghost use Rattle.surf_outside.specs.Parts.{parts};
ghost use Rattle.surf_outside.specs.Puts.{Puts, Wrote};

/// What a sink gains in two steps it gains in one, and a prefix of a text is one of a longer text.
pub fn gains_add_up()
    ensures more { (a b c : Option (List ℕ)) (x y : List ℕ) → Appends a b x → Appends b c y → Appends a c (x ++ y) }
    ensures prefix { (a b c : Option (List ℕ)) (x y : List ℕ) → Appends a b x → AppendsPrefix b c y → AppendsPrefix a c (x ++ y) }
    ensures longer { (a b : Option (List ℕ)) (x y : List ℕ) → AppendsPrefix a b x → AppendsPrefix a b (x ++ y) }
    ensures whole { (a b : Option (List ℕ)) (x : List ℕ) → Appends a b x → AppendsPrefix a b x }
{}

/// Nothing is a text, and two texts one after the other are one.
pub fn texts_follow_each_other()
    ensures none { (a : Option (List ℕ)) (f : ℕ) → Wrote a a f f [] }
    ensures more { (a b c : Option (List ℕ)) (f g h : ℕ) (x y : List ℕ) → Wrote a b f g x → Wrote b c g h y → Wrote a c f h (x ++ y) }
    ensures same { (a b : Option (List ℕ)) (f g : ℕ) (x y : List ℕ) → x ≡ y → Wrote a b f g x → Wrote a b f g y }
{}

/// A call that went well wrote its text; a call after a text writes both; and a call that fails within a text leaves
/// a prefix of it.
pub fn calls_follow_each_other()
    ensures done { (a b : Option (List ℕ)) (f g : ℕ) (x : List ℕ) (v : Unit {0}) → Wrote a b f g x → Puts {E = Failure} a b f g x (Ok v) }
    ensures wrote { (a b : Option (List ℕ)) (f g : ℕ) (x : List ℕ) (v : Unit {0}) → Puts {E = Failure} a b f g x (Ok v) → Wrote a b f g x }
    ensures after { (a b c : Option (List ℕ)) (f g h : ℕ) (x y : List ℕ) (r : Result (Unit {0}) Failure) → Wrote a b f g x → Puts b c g h y r → Puts a c f h (x ++ y) r }
    ensures within { (a b : Option (List ℕ)) (f g : ℕ) (x y : List ℕ) (d e : Failure) → Puts {T = Unit {0}} a b f g x (Err e) → Puts {T = Unit {0}} a b f g (x ++ y) (Err d) }
    ensures same { (a b : Option (List ℕ)) (f g : ℕ) (x y : List ℕ) (r : Result (Unit {0}) Failure) → x ≡ y → Puts a b f g x r → Puts a b f g y r }
{}

/// A text of parts grows by one part at a time, and part n stands in a text of more than n parts.
pub fn parts_follow_each_other()
    ensures more { (part : ℕ → List ℕ) (n : ℕ) → parts part (n + 1) ≡ parts part n ++ part n }
    ensures within { (part : ℕ → List ℕ) (n m : ℕ) → n < m → (rest : List ℕ) × (parts part m ≡ (parts part n ++ part n) ++ rest) }
{}
