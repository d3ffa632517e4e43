//! Laws of fractions in lowest terms, over their definitions alone.

ghost use Rattle.std.specs.Prelude.{ℕ, ◌≡◌, ◌<◌, ◌≤◌, ◌/◌, ◌^◌};
ghost use Rattle.std.specs.Int.{IsGcd};
ghost use Rattle.rates.specs.Rates.{gcd_of};

/// `gcd_of` is the greatest common divisor of two numbers, and divided by it they have no common divisor but 1.
pub fn fractions_have_lowest_terms()
    ensures gcd { (a b g : ℕ) → IsGcd a b g → 0 < b → (gcd_of a b ≡ g) × (0 < g) × (g ≤ b) }
    ensures divided { (a b g : ℕ) → IsGcd a b g → 0 < g → IsGcd (a / g) (b / g) 1 }
    ensures powers { (k : ℕ) → 0 < 10 ^ k }
{}
