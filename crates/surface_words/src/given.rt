//! The values of the options as they are kept while the words are read.

ghost use Rattle.std.specs.Prelude.{◌≡◌, [], map, string_bytes, Some, None, IfOk, OnOk, IfErr};
ghost use Rattle.std.specs.Option.{option_map};
ghost use Rattle.surface_words.specs.Accepted.{pairs_of};
ghost use Rattle.surface_words.specs.FirstWrong.{wrong_from};
ghost use Rattle.surface_words.specs.Given.{nothing, has as has_value, with_value, free_option, given_by};

use crate::commands::Command;
use crate::options::{OptionName, are_bits, choice, whole};
use rates::read_duration;
use surf_text::read_u64;

/// The values that were given so far.
#[derive(Clone, Copy)]
pub(crate) struct Given {
    pub(crate) workers: Option<u64>,
    pub(crate) seed: Option<u64>,
    /// In ticks.
    pub(crate) until: Option<u64>,
    pub(crate) samples: Option<u64>,
    pub(crate) limit: Option<u64>,
    /// The index of the word.
    pub(crate) inputs: Option<usize>,
    pub(crate) number: Option<u64>,
    pub(crate) seeds: Option<u64>,
    pub(crate) first: Option<u64>,
    pub(crate) quota: Option<u64>,
    pub(crate) slots: Option<u64>,
    pub(crate) report: Option<bool>,
    pub(crate) viewers: Option<u64>,
    pub(crate) frames: Option<u64>,
}

impl Given {
    pub(crate) fn new() -> Given
        ensures { result ≡ nothing }
    {
        Given {
            workers: None,
            seed: None,
            until: None,
            samples: None,
            limit: None,
            inputs: None,
            number: None,
            seeds: None,
            first: None,
            quota: None,
            slots: None,
            report: None,
            viewers: None,
            frames: None,
        }
    }

    pub(crate) fn has(&self, option: OptionName) -> bool
        ensures { result ≡ has_value self.now option }
    {
        match option {
            OptionName::Workers => self.workers.is_some(),
            OptionName::Seed => self.seed.is_some(),
            OptionName::Until => self.until.is_some(),
            OptionName::Samples => self.samples.is_some(),
            OptionName::Limit => self.limit.is_some(),
            OptionName::Inputs => self.inputs.is_some(),
            OptionName::Number => self.number.is_some(),
            OptionName::Seeds => self.seeds.is_some(),
            OptionName::First => self.first.is_some(),
            OptionName::Quota => self.quota.is_some(),
            OptionName::Slots => self.slots.is_some(),
            OptionName::Report => self.report.is_some(),
            OptionName::Viewers => self.viewers.is_some(),
            OptionName::Frames => self.frames.is_some(),
        }
    }

    /// With the value of one more option, whose word has this index; `None` where the value isn't allowed.
    pub(crate) fn with(self, option: OptionName, value: &str, index: usize) -> Option<Given>
        ensures { result ≡ with_value self option value.now index }
    {
        let bytes = value.as_bytes();
        let mut given = self;
        match option {
            OptionName::Workers => given.workers = Some(whole(bytes, 1, 64)?),
            OptionName::Seed => given.seed = Some(read_u64(bytes)?),
            OptionName::Until => given.until = Some(read_duration(bytes)?),
            OptionName::Samples => given.samples = Some(whole(bytes, 0, 10_000)?),
            OptionName::Limit => given.limit = Some(whole(bytes, 0, 10_000_000)?),
            OptionName::Inputs => {
                if !are_bits(bytes) {
                    return None;
                }
                given.inputs = Some(index);
            }
            OptionName::Number => given.number = Some(whole(bytes, 0, 1_000_000_000)?),
            OptionName::Seeds => given.seeds = Some(whole(bytes, 1, 1_000)?),
            OptionName::First => given.first = Some(read_u64(bytes)?),
            OptionName::Quota => given.quota = Some(whole(bytes, 1, 65_536)?),
            OptionName::Slots => given.slots = Some(whole(bytes, 1, 65_536)?),
            OptionName::Report => given.report = Some(choice(value)?),
            OptionName::Viewers => given.viewers = Some(whole(bytes, 1, 16)?),
            OptionName::Frames => given.frames = Some(whole(bytes, 1, 1_000)?),
        }
        Some(given)
    }

    /// The option that a word names, if the command has it and it wasn't given before.
    fn next_option(&self, command: Command, name: &str) -> Option<OptionName>
        ensures { result ≡ free_option command self.now name.now }
    {
        let option = OptionName::read(name)?;
        if command.has(option) && !self.has(option) {
            Some(option)
        } else {
            None
        }
    }

    /// The values that the words behind a command give, or the index of the first wrong word.
    pub(crate) fn read(command: Command, words: &[String]) -> Result<Given, usize>
        ensures wrong { IfErr result (λ i. wrong_from command [] 1 (map string_bytes words.now) ≡ Some i) }
        ensures right { OnOk result (wrong_from command [] 1 (map string_bytes words.now) ≡ None) }
        ensures values { IfOk result (λ given. option_map (given_by 2) (pairs_of (map string_bytes words.now)) ≡ Some given) }
    {
        let mut given = Given::new();
        let mut index = 1;
        let mut rest = words;
        while let Some((name, others)) = rest.split_first() {
            let Some(option) = given.next_option(command, name.as_str()) else {
                return Err(index);
            };
            let Some((value, after)) = others.split_first() else {
                return Err(index + 1);
            };
            let Some(more) = given.with(option, value.as_str(), index + 1) else {
                return Err(index + 1);
            };
            given = more;
            index += 2;
            rest = after;
        }
        Ok(given)
    }
}
