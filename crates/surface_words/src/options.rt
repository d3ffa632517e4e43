//! The options of the commands, and their values.

ghost use Rattle.std.specs.Prelude.{◌≡◌};
ghost use Rattle.std.specs.List.{list_all};
ghost use Rattle.surface_words.specs.Commands.{option_of, whole_in, is_bit, choice_of};

use surf_text::read_u64;

#[derive(Clone, Copy)]
pub(crate) enum OptionName {
    Workers,
    Seed,
    Until,
    Samples,
    Limit,
    Inputs,
    Number,
    Seeds,
    First,
    Quota,
    Slots,
    Report,
    Viewers,
    Frames,
}

impl OptionName {
    /// The option that a word names.
    pub(crate) fn read(word: &str) -> Option<OptionName>
        ensures { result ≡ option_of word.now }
    {
        match word {
            "--workers" => Some(OptionName::Workers),
            "--seed" => Some(OptionName::Seed),
            "--until" => Some(OptionName::Until),
            "--samples" => Some(OptionName::Samples),
            "--limit" => Some(OptionName::Limit),
            "--inputs" => Some(OptionName::Inputs),
            "--number" => Some(OptionName::Number),
            "--seeds" => Some(OptionName::Seeds),
            "--first" => Some(OptionName::First),
            "--quota" => Some(OptionName::Quota),
            "--slots" => Some(OptionName::Slots),
            "--report" => Some(OptionName::Report),
            "--viewers" => Some(OptionName::Viewers),
            "--frames" => Some(OptionName::Frames),
            _ => None,
        }
    }
}

/// The whole number that a value spells, from `least` to `most`.
pub(crate) fn whole(value: &[u8], least: u64, most: u64) -> Option<u64>
    ensures { result ≡ whole_in least most value.now }
{
    let number = read_u64(value)?;
    if least <= number && number <= most {
        Some(number)
    } else {
        None
    }
}

/// Whether a value has the characters 0 and 1 alone.
pub(crate) fn are_bits(value: &[u8]) -> bool
    ensures { result ≡ list_all is_bit value.now }
{
    value.iter().all(|c| *c == b'0' || *c == b'1')
}

/// The choice that a value spells: `yes` or `no`.
pub(crate) fn choice(value: &str) -> Option<bool>
    ensures { result ≡ choice_of value.now }
{
    match value {
        "yes" => Some(true),
        "no" => Some(false),
        _ => None,
    }
}
