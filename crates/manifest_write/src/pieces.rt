//! Texts of a few pieces.

ghost use Rattle.std.specs.Prelude.{◌≡◌, ◌<◌, ◌++◌, ◌∷◌, [], codes, decimal};
ghost use Rattle.std.specs.List.{flat_map};
ghost use Rattle.surf_outside.specs.Puts.{Puts};
ghost use Rattle.manifest_write.specs.Canon.{last_digit, six_digits as six_digits_of, without_zeros as trimmed_digits, fraction_text, duration_text, rate_text};

use surf_kinds::Rate;
use surf_outside::{Failed, Sink, put};
use surf_text::Digits;

/// Ticks in a unit of time.
const TICKS: u64 = 1_000_000;

/// Writes one piece after the other.
pub(crate) fn put_pieces<O: Sink>(out: &mut O, pieces: &[&[u8]]) -> Result<(), Failed>
    ensures { Puts (O.written out.old) (O.written out.new) (O.faults out.old) (O.faults out.new) (flat_map (λ p. p.now) pieces.now) result }
{
    for piece in pieces {
        put(out, piece)?;
    }
    Ok(())
}

/// The last digit of a number.
fn last_digit(n: u32) -> u8
    ensures { result ≡ last_digit n }
{
    b'0' + (n % 10) as u8
}

/// The last six digits of a number.
fn six_digits(n: u32) -> [u8; 6]
    ensures { result ≡ six_digits_of n }
{
    [
        last_digit(n / 100_000),
        last_digit(n / 10_000),
        last_digit(n / 1_000),
        last_digit(n / 100),
        last_digit(n / 10),
        last_digit(n),
    ]
}

/// The digits without the zeros at their end.
fn without_zeros(digits: &[u8]) -> &[u8]
    ensures { result.now ≡ trimmed_digits digits.now }
{
    let mut rest = digits;
    while let Some((last, others)) = rest.split_last()
        && *last == b'0'
    {
        rest = others;
    }
    rest
}

/// Writes what a duration has beside whole units of time, in millionths of a unit.
fn put_fraction<O: Sink>(out: &mut O, rest: u32) -> Result<(), Failed>
    requires { rest < 1000000 }
    ensures { Puts (O.written out.old) (O.written out.new) (O.faults out.old) (O.faults out.new) (fraction_text rest) result }
{
    if rest == 0 {
        return Ok(());
    }
    put_pieces(out, &[b".", without_zeros(&six_digits(rest))])
}

/// Writes a duration, in units of time.
pub(crate) fn put_duration<O: Sink>(out: &mut O, ticks: u64) -> Result<(), Failed>
    ensures { Puts (O.written out.old) (O.written out.new) (O.faults out.old) (O.faults out.new) (duration_text ticks) result }
{
    put(out, Digits::of(ticks / TICKS).bytes())?;
    put_fraction(out, (ticks % TICKS) as u32)
}

/// Writes a rate in brackets, and a space.
pub(crate) fn put_rate<O: Sink>(out: &mut O, rate: Rate) -> Result<(), Failed>
    ensures { Puts (O.written out.old) (O.written out.new) (O.faults out.old) (O.faults out.new) (codes "(" ++ rate_text rate ++ codes ") ") result }
{
    let p = Digits::of(u64::from(rate.p));
    if rate.q == 1 {
        return put_pieces(out, &[b"(", p.bytes(), b") "]);
    }
    let q = Digits::of(u64::from(rate.q));
    put_pieces(out, &[b"(", p.bytes(), b"/", q.bytes(), b") "])
}
