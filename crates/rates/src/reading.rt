//! The rate that a text spells.

ghost use Rattle.std.specs.Prelude.{◌≡◌, ◌<◌, ◌≤◌, ◌^◌, ◌↔◌, IfSome, Some};
ghost use Rattle.std.specs.Option.{option_map};
ghost use Rattle.std.specs.Int.{IsGcd};
ghost use Rattle.surf_kinds.specs.Rates.{Fraction, IsReduced};
ghost use Rattle.surf_text.specs.Decimals.{IsSmall};
ghost use Rattle.rates.specs.Rates.{whole_of, fraction_of, gcd_of, rate_of, scaled, IsRate};

use surf_kinds::Rate;
use surf_text::{Dec, cut, read_decimal, read_u64, trim};

/// The largest numerator and denominator of a rate.
const LARGEST: u128 = 1_000_000_000;

/// A fraction that need not be in lowest terms.
#[derive(Clone, Copy)]
pub(crate) struct Quotient {
    pub(crate) numerator: u128,
    pub(crate) denominator: u128,
}

fn common_divisor(a: u128, b: u128) -> u128
    ensures { IsGcd a b result }
{
    let mut x = a;
    let mut y = b;
    while y != 0 {
        let rest = x % y;
        x = y;
        y = rest;
    }
    x
}

/// The greatest common divisor.
fn greatest_divisor(a: u128, b: u128) -> u128
    requires { 0 < b }
    ensures is { IsGcd a b result }
    ensures gcd { result ≡ gcd_of a b }
    ensures positive { 0 < result }
    ensures at_most { result ≤ b }
{
    common_divisor(a, b)
}

fn read_whole(text: &[u8]) -> Option<u64>
    ensures { result ≡ whole_of text.now }
{
    if text.len() > 18 {
        return None;
    }
    read_u64(text)
}

fn power(k: u32) -> u128
    requires { k ≤ 27 }
    ensures value { result ≡ 10 ^ k }
    ensures positive { 0 < result }
    ensures range { result ≤ 10 ^ 27 }
{
    10u128.pow(k)
}

/// The value of a decimal.
pub(crate) fn scale(dec: Dec) -> Quotient
    requires { IsSmall dec }
    ensures value { record { p = result.numerator; q = result.denominator } ≡ scaled dec.digits dec.exp }
    ensures positive { 0 < result.denominator }
    ensures range { result.numerator < 10 ^ 27 }
{
    let digits = u128::from(dec.digits);
    let size = dec.exp.unsigned_abs();
    if dec.exp < 0 {
        Quotient {
            numerator: digits,
            denominator: power(size),
        }
    } else {
        Quotient {
            numerator: digits * power(size),
            denominator: 1,
        }
    }
}

fn read_fraction(text: &[u8]) -> Option<Quotient>
    ensures value { option_map (λ f. record { p = f.numerator; q = f.denominator }) result ≡ fraction_of text.now }
    ensures positive { IfSome result (λ f. 0 < f.denominator) }
{
    match cut(text, b'/') {
        Some((front, back)) => {
            let numerator = read_whole(trim(front))?;
            let denominator = read_whole(trim(back))?;
            if denominator == 0 {
                return None;
            }
            Some(Quotient {
                numerator: u128::from(numerator),
                denominator: u128::from(denominator),
            })
        }
        None => Some(scale(read_decimal(text)?)),
    }
}

/// The rate that a text spells, trimmed and in lowest terms: a decimal, or two whole numbers with `/` between them.
/// `None` exactly where the text spells no rate.
pub fn read_rate(text: &[u8]) -> Option<Rate>
    ensures rate { (r : Fraction) → (result ≡ Some r) ↔ IsRate text.now r }
    ensures value { result ≡ rate_of text.now }
    ensures reduced { IfSome result IsReduced }
{
    let fraction = read_fraction(trim(text))?;
    let divisor = greatest_divisor(fraction.numerator, fraction.denominator);
    let p = fraction.numerator / divisor;
    let q = fraction.denominator / divisor;
    if p > LARGEST || q > LARGEST {
        return None;
    }
    prove!(q >= 1);
    Some(Rate {
        p: p as u32,
        q: q as u32,
    })
}
