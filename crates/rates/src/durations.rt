//! The duration that a text spells.

ghost use Rattle.std.specs.Prelude.{◌≡◌, ◌≤◌, ◌^◌, IfSome};
ghost use Rattle.rates.specs.Durations.{ticks_of, duration_of};
ghost use Rattle.surf_text.specs.Decimals.{IsSmall};

use crate::reading::scale;
use crate::waits::TICKS;
use surf_text::{Dec, read_decimal};

/// The longest duration, in ticks: 10^9 units of time.
const LONGEST: u128 = 1_000_000_000_000_000;

/// Whole ticks of so many units of time.
fn whole_ticks(units: Dec) -> u128
    requires { IsSmall units }
    ensures { result ≡ ticks_of units }
{
    let units = scale(units);
    units.numerator * u128::from(TICKS) / units.denominator
}

/// The duration that a text spells as a decimal of units of time, in whole ticks. `None` exactly where the text is no
/// decimal, or where the duration is above 10^15 ticks.
pub fn read_duration(text: &[u8]) -> Option<u64>
    ensures value { result ≡ duration_of text.now }
    ensures at_most { IfSome result (λ t. t ≤ 10 ^ 15) }
{
    let ticks = whole_ticks(read_decimal(text)?);
    if ticks > LONGEST {
        return None;
    }
    Some(ticks as u64)
}
