//! Whole numbers and decimals in a text.

ghost use Rattle.std.specs.Prelude.{◌≡◌, ◌<◌, ◌≤◌, ◌^◌, ◌+◌, ◌++◌, ◌+ℤ◌, ◌-ℤ◌, ◌≤ℤ◌, ◌↔◌, length, position, IfSome, pos, Some, None, if◌then◌else◌};
ghost use Rattle.std.specs.Option.{option_map};
ghost use Rattle.std.specs.Str.Parse.{digits_value, digits_value_after};
ghost use Rattle.surf_text.specs.Cuts.{cut_where};
ghost use Rattle.surf_text.specs.Numbers.{all_digits, u64_of};
ghost use Rattle.surf_text.specs.Decimals.{size_of, exponent_of, digits_of, scaled_of, is_mark, decimal_of, IsSmall};
ghost use Rattle.surf_text.specs.Grammar.{IsDecimal};

use crate::cuts::{around, cut};

/// The value `digits * 10 ^ exp`.
#[derive(Clone, Copy, Debug, PartialEq, Eq)]
pub struct Dec {
    pub digits: u64,
    pub exp: i32,
}

/// The number that 1 to 20 digits spell. `None` exactly where the text is not 1 to 20 digits, or where the number
/// is 2^64 or more.
pub fn read_u64(text: &[u8]) -> Option<u64>
    ensures { result ≡ u64_of text.now }
{
    if text.is_empty() || text.len() > 20 {
        return None;
    }
    let mut value: u128 = 0;
    for c in text {
        if !c.is_ascii_digit() {
            return None;
        }
        value = value * 10 + u128::from(c - b'0');
    }
    u64::try_from(value).ok()
}

/// The number that the digits spell behind those of another number.
fn more_digits(before: u128, text: &[u8]) -> Option<u128>
    requires before { before < 10 ^ 18 }
    requires length { length text.now ≤ 18 }
    ensures { result ≡ (if all_digits text.now then Some (digits_value_after 10 before text.now) else None) }
{
    let mut value = before;
    for c in text {
        if !c.is_ascii_digit() {
            return None;
        }
        value = value * 10 + u128::from(c - b'0');
    }
    Some(value)
}

fn read_size(text: &[u8]) -> Option<i32>
    ensures { result ≡ option_map pos (size_of text.now) }
{
    let value = read_u64(text)?;
    if value > 9 || text.len() > 2 {
        return None;
    }
    Some(value as i32)
}

fn read_exponent(text: &[u8]) -> Option<i32>
    ensures { result ≡ exponent_of text.now }
{
    let (first, others) = text.split_first()?;
    match *first {
        b'+' => read_size(others),
        b'-' => Some(-read_size(others)?),
        _ => read_size(text),
    }
}

/// An exponent less a count.
fn less(exponent: i32, count: usize) -> i32
    requires low { pos 0 ≤ℤ (exponent +ℤ pos 9) }
    requires high { exponent ≤ℤ pos 9 }
    requires count { count ≤ 18 }
    ensures { result ≡ exponent -ℤ pos count }
{
    exponent - count as i32
}

/// The number that two parts spell together.
fn both_parts(whole: &[u8], fraction: &[u8]) -> Option<u64>
    requires { length whole.now + length fraction.now ≤ 18 }
    ensures value { result ≡ (if all_digits (whole.now ++ fraction.now) then Some (digits_value 10 (whole.now ++ fraction.now)) else None) }
    ensures below { IfSome result (λ n. n < 10 ^ 18) }
{
    let front = more_digits(0, whole)?;
    let value = more_digits(front, fraction)?;
    Some(value as u64)
}

fn read_digits(whole: &[u8], fraction: &[u8], exponent: i32) -> Option<Dec>
    requires low { pos 0 ≤ℤ (exponent +ℤ pos 9) }
    requires high { exponent ≤ℤ pos 9 }
    ensures value { result ≡ digits_of whole.now fraction.now exponent }
    ensures range { IfSome result IsSmall }
{
    if whole.len() > 18 || fraction.len() > 18 {
        return None;
    }
    let count = whole.len() + fraction.len();
    if count == 0 || count > 18 {
        return None;
    }
    let digits = both_parts(whole, fraction)?;
    Some(Dec {
        digits,
        exp: less(exponent, fraction.len()),
    })
}

fn read_parts(text: &[u8], exponent: i32) -> Option<Dec>
    requires low { pos 0 ≤ℤ (exponent +ℤ pos 9) }
    requires high { exponent ≤ℤ pos 9 }
    ensures value { result ≡ scaled_of text.now (Some exponent) }
    ensures range { IfSome result IsSmall }
{
    match cut(text, b'.') {
        Some((whole, fraction)) => read_digits(whole, fraction, exponent),
        None => read_digits(text, &[], exponent),
    }
}

fn first_mark(text: &[u8]) -> Option<usize>
    ensures { result ≡ position is_mark text.now }
{
    text.iter().position(|c| *c == b'e' || *c == b'E')
}

/// What stands before the first mark of an exponent, and what stands after it; `None` where there is no mark.
fn cut_mark(text: &[u8]) -> Option<(&[u8], &[u8])>
    ensures { option_map (λ p. (p.0.now, p.1.now)) result ≡ cut_where is_mark text.now }
{
    match first_mark(text) {
        Some(index) => Some(around(text, index)),
        None => None,
    }
}

/// The decimal that a text spells: at most 18 digits, with a point or without, then an exponent from -9 to 9 or
/// none. `None` exactly where the text is no decimal.
pub fn read_decimal(text: &[u8]) -> Option<Dec>
    ensures grammar { (d : Dec) → (result ≡ Some d) ↔ IsDecimal text.now d }
    ensures value { result ≡ decimal_of text.now }
    ensures range { IfSome result IsSmall }
{
    match cut_mark(text) {
        Some((front, back)) => read_parts(front, read_exponent(back)?),
        None => read_parts(text, 0),
    }
}
