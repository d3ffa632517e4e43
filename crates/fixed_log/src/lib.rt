//! The binary logarithm in fixed point, and the energy that a drawn word stands for.
//!
//! The logarithm of a whole number is found in whole numbers alone: its whole part is the greatest power of two
//! that the number reaches, and 32 squarings give 32 bits of its fraction, so the same number has the same
//! logarithm on every machine. The crate promises the value by that definition, and beside it that 2 to the
//! power of the logarithm lies at most a factor of 4 below the number to the power of 2^32.
//!
//! The crate stands on nothing but std.
#![tactic(auto)]

pub mod laws;

ghost use Rattle.std.specs.Prelude.{◌≡◌, ◌<◌, ◌≤◌, ◌^◌, ◌+◌, ◌-◌, ◌*◌, ◌/◌};
ghost use Rattle.fixed_log.specs.Log.{next_bit, next_x, bits_after, squared, fixed_log_of, energy_of};
ghost use Rattle.fixed_log.specs.Near.{IsNear};

/// 2^32 times the binary logarithm of `m`, for `m` from 1 to 2^64. At most 2^38.
#[inline]
pub fn log2_fixed(m: u128) -> u64
    requires positive { 1 ≤ m }
    requires in_range { m ≤ 2 ^ 64 }
    ensures value { result ≡ fixed_log_of m }
    ensures lower { 2 ^ result ≤ m ^ (2 ^ 32) }
    ensures upper { m ^ (2 ^ 32) < 2 ^ (result + 2) }
    ensures at_most { result ≤ 2 ^ 38 }
{
    let whole = m.ilog2();
    let x = ((m << 63) >> whole) as u64;
    (u64::from(whole) << 32) + fraction(x)
}

// The 32 bits of the fraction, where x is between 2^63 and 2^64. The quick estimate lies so near to x raised to the power of
// 2^32 that its bits are those of the definition, but for about one number in 300,000, near a power of two.
#[inline]
fn fraction(x: u64) -> u64
    requires { 2 ^ 63 ≤ x }
    ensures value { result ≡ bits_after x 32 }
    ensures fits { result < 2 ^ 32 }
{
    let (bits, left) = estimate(x);
    if left >= (1 << 63) + (1 << 33) && left < u64::MAX - (1 << 45) {
        bits
    } else {
        squared_out(x)
    }
}

// The bits by eight rounds of four squarings, and what is left of the power. A round moves its power back to between 2^63
// and 2^64 once, where the definition does so after each squaring, so that it loses more of its lowest bits.
#[inline]
fn estimate(first: u64) -> (u64, u64)
    requires { 2 ^ 63 ≤ first }
    ensures near { IsNear (squared first 32) (63 * (2 ^ 32 - 1) + result.0) result.1 (2 ^ 63 - 2 ^ 44) }
    ensures fits { result.0 < 2 ^ 32 }
{
    let mut x = first;
    let mut bits: u64 = 0;
    for _ in 0..8u32 {
        let power = upper_square(upper_square(upper_square(upper_square(x))));
        let whole = power.ilog2();
        bits = 16 * bits + u64::from(whole - 48);
        x = power << (63 - whole);
    }
    (bits, x)
}

// The upper 64 bits of x squared.
#[inline]
fn upper_square(x: u64) -> u64
    ensures { result ≡ x * x / 2 ^ 64 }
{
    ((u128::from(x) * u128::from(x)) >> 64) as u64
}

// The bits by the 32 squarings of the definition.
#[cold]
#[inline(never)]
fn squared_out(first: u64) -> u64
    requires { 2 ^ 63 ≤ first }
    ensures value { result ≡ bits_after first 32 }
    ensures fits { result < 2 ^ 32 }
{
    let mut x = first;
    let mut bits: u64 = 0;
    for _ in 0..32u32 {
        let (bit, next) = squared_once(x);
        bits = 2 * bits + bit;
        x = next;
    }
    bits
}

// The bit of one squaring, and the x after it. There is no branch on the bit, which is as good as random: a
// processor that guesses it is wrong every second time.
#[inline]
fn squared_once(x: u64) -> (u64, u64)
    ensures bit { result.0 ≡ next_bit x }
    ensures left { result.1 ≡ next_x x }
{
    let y = u128::from(x) * u128::from(x);
    let bit = (y >> 127) as u64;
    (bit, upper_half(y, bit))
}

// The upper 64 bits of y, after it was moved up by one bit where its highest bit is 0.
#[inline]
fn upper_half(y: u128, bit: u64) -> u64
    requires { bit ≤ 1 }
    ensures one { bit ≡ 1 → result ≡ y / 2 ^ 64 }
    ensures none { bit ≡ 0 → y < 2 ^ 127 → result ≡ y / 2 ^ 63 }
{
    let shift = 1 - bit;
    ((y << shift) >> 64) as u64
}

/// The energy of a drawn word: 64 less the binary logarithm of `w + 1`, turned into a natural logarithm. In units
/// of 2^-32; 0 for the greatest words, and at most 190530846208, for the word 0.
#[inline]
#[tactic(auto, unfolding(crate::specs::Log::energy_of))]
pub fn energy(w: u64) -> u64
    ensures value { result ≡ energy_of w }
    ensures at_most { result ≤ 190530846208 }
{
    let log = log2_fixed(u128::from(w) + 1);
    let left = (1u64 << 38) - log;
    ((u128::from(left) * 2_977_044_472) >> 32) as u64
}

#[cfg(test)]
mod tests;
