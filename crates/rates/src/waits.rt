//! How long a reaction waits.

ghost use Rattle.std.specs.Prelude.{ℕ, ◌≡◌, ◌<◌, ◌≤◌, ◌^◌, ◌+◌, ◌↔◌, IsNone, IfSome, Some};
ghost use Rattle.surf_kinds.specs.Rates.{Fraction};
ghost use Rattle.rates.specs.Waits.{wait_of};

use fixed_log::energy;
use surf_kinds::Rate;

/// Ticks in a unit of time.
pub(crate) const TICKS: u64 = 1_000_000;

/// The wait of a rate at a drawn word, in ticks. `None` for the rate 0, at which nothing ever comes.
#[inline]
#[tactic(auto, unfolding(crate::specs::Waits::wait_of))]
pub fn wait(rate: Rate, w: u64) -> Option<u64>
    ensures never { IsNone result ↔ (rate.p ≡ 0) }
    ensures value { IfSome result (λ ticks. ticks ≡ wait_of rate w) }
    ensures at_least { IfSome result (λ ticks. 1 ≤ ticks) }
    ensures at_most { IfSome result (λ ticks. ticks ≤ 2 ^ 56 + 1) }
    ensures instant { rate.p ≡ 1000000000 → rate.q ≡ 1 → result ≡ Some 1 }
{
    if rate.p == 0 {
        return None;
    }
    let scaled = u128::from(energy(w)) * u128::from(u64::from(rate.q) * TICKS);
    prove!(scaled < 1 << 88);
    // An energy counts in units of 2^-32.
    let whole = (scaled >> 32) as u64;
    Some(1 + whole / u64::from(rate.p))
}

/// What holds of the wait of every fraction: it is at least 1 tick, and at most 2^56 + 1 where the fraction is
/// above 0; and at the rate 1000000000 it is 1. Does nothing.
pub fn wait_bounds()
    ensures at_least { (f : Fraction) → (w : ℕ) → 1 ≤ wait_of f w }
    ensures at_most { (f : Fraction) → (w : ℕ) → 0 < f.p → f.q ≤ 1000000000 → wait_of f w ≤ 2 ^ 56 + 1 }
    ensures instant { (w : ℕ) → wait_of (record { p = 1000000000; q = 1 }) w ≡ 1 }
{}
