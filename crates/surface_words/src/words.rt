//! The reading of a list of words.

ghost use Rattle.std.specs.Prelude.{◌≡◌, ◌↔◌, ℕ, length, map, string_bytes, Some, None, Err, true, IfOk, OnOk, IfErr, IsOk};
ghost use Rattle.surface_words.specs.Accepted.{is_accepted};
ghost use Rattle.surface_words.specs.FirstWrong.{first_wrong, IsFirstWrong};
ghost use Rattle.surface_words.specs.Given.{words_by};
ghost use Rattle.surface_words.specs.Reading.{reading, reads, IsInRange};

use crate::commands::{Command, Program};
use crate::given::Given;

/// What accepted words say.
#[derive(Clone, Copy, Debug, PartialEq, Eq)]
pub enum Words {
    Check,
    Print,
    Run {
        /// From 1 to 64.
        workers: u64,
        /// In place of the manifest's.
        seed: Option<u64>,
        /// In ticks, of which a unit of time has 10^6; in place of the manifest's duration.
        until: Option<u64>,
        /// At most 10,000.
        samples: u64,
        /// The most events, at most 10,000,000.
        limit: u64,
        /// The most entries that a region adds in a turn, from 1 to 65,536.
        quota: u64,
        /// How many messages the ring between two regions holds, from 1 to 65,536.
        slots: u64,
        /// Whether a line says what the workers did.
        report: bool,
    },
    Compile {
        /// The index of the word with the inputs, which has the characters 0 and 1 alone.
        inputs: Option<usize>,
    },
    Value {
        /// As for `Compile`.
        inputs: Option<usize>,
    },
    Gen {
        /// The number of the manifest, at most 1,000,000,000.
        number: u64,
    },
    Stress {
        /// From 1 to 64.
        workers: u64,
        /// The number of the manifest, at most 1,000,000,000.
        number: u64,
    },
    Ensemble {
        /// From 1 to 64.
        workers: u64,
        /// How many seeds, from 1 to 1,000.
        seeds: u64,
        /// The first seed.
        first: u64,
        /// As for `Run`.
        until: Option<u64>,
        /// The most events of a run, at most 10,000,000.
        limit: u64,
    },
    Bench,
    Compact {
        /// As for `Compile`.
        inputs: Option<usize>,
    },
    Watch {
        /// As for `Run`, here and up to `slots`.
        workers: u64,
        seed: Option<u64>,
        until: Option<u64>,
        samples: u64,
        limit: u64,
        quota: u64,
        slots: u64,
        /// From 1 to 16.
        viewers: u64,
        /// How many samples each viewer takes, from 1 to 1,000.
        frames: u64,
    },
}

impl Words {
    /// What the command says with these values, and with what is meant where a value isn't given.
    fn of(command: Command, given: &Given) -> Words
        ensures { result ≡ words_by command given.now }
    {
        match command {
            Command::Check => Words::Check,
            Command::Print => Words::Print,
            Command::Run => Words::Run {
                workers: given.workers.unwrap_or(1),
                seed: given.seed,
                until: given.until,
                samples: given.samples.unwrap_or(1),
                limit: given.limit.unwrap_or(1_000_000),
                quota: given.quota.unwrap_or(256),
                slots: given.slots.unwrap_or(256),
                report: given.report.unwrap_or(false),
            },
            Command::Compile => Words::Compile {
                inputs: given.inputs,
            },
            Command::Value => Words::Value {
                inputs: given.inputs,
            },
            Command::Gen => Words::Gen {
                number: given.number.unwrap_or(0),
            },
            Command::Stress => Words::Stress {
                workers: given.workers.unwrap_or(1),
                number: given.number.unwrap_or(0),
            },
            Command::Ensemble => Words::Ensemble {
                workers: given.workers.unwrap_or(1),
                seeds: given.seeds.unwrap_or(10),
                first: given.first.unwrap_or(0),
                until: given.until,
                limit: given.limit.unwrap_or(1_000_000),
            },
            Command::Bench => Words::Bench,
            Command::Compact => Words::Compact {
                inputs: given.inputs,
            },
            Command::Watch => Words::Watch {
                workers: given.workers.unwrap_or(1),
                seed: given.seed,
                until: given.until,
                samples: given.samples.unwrap_or(1),
                limit: given.limit.unwrap_or(1_000_000),
                quota: given.quota.unwrap_or(256),
                slots: given.slots.unwrap_or(256),
                viewers: given.viewers.unwrap_or(1),
                frames: given.frames.unwrap_or(10),
            },
        }
    }

    /// What a program's words say, or the index of the first wrong word, from 0. A missing or unknown command is 0; an
    /// option that the command hasn't, or that was there before, is the option's index; a value that is missing or not
    /// allowed is the index after the option. The words are read once, from left to right.
    pub fn read(words: &[String], program: Program) -> Result<Words, usize>
        ensures ok { IfOk result (λ w. reading program (map string_bytes words.now) ≡ Some w) }
        ensures right { OnOk result (first_wrong program (map string_bytes words.now) ≡ None) }
        ensures wrong { IfErr result (λ i. first_wrong program (map string_bytes words.now) ≡ Some i) }
        ensures accepted { IsOk result ↔ (is_accepted program (map string_bytes words.now) ≡ true) }
        ensures range { IfOk result (λ w. IsInRange (length words.now) w) }
        ensures first { IfErr result (λ i. IsFirstWrong program (map string_bytes words.now) i) }
        ensures only { (i : ℕ) → IsFirstWrong program (map string_bytes words.now) i → result ≡ Err i }
    {
        let Some((word, pairs)) = words.split_first() else {
            return Err(0);
        };
        let Some(command) = Command::read(word.as_str(), program) else {
            return Err(0);
        };
        match Given::read(command, pairs) {
            Ok(given) => Ok(Words::of(command, &given)),
            Err(index) => Err(index),
        }
    }

    /// Whether the command reads its input.
    pub fn reads(&self) -> bool
        ensures { result ≡ reads self.now }
    {
        match self {
            Words::Check
            | Words::Print
            | Words::Run { .. }
            | Words::Compile { .. }
            | Words::Value { .. }
            | Words::Ensemble { .. }
            | Words::Bench
            | Words::Compact { .. }
            | Words::Watch { .. } => true,
            Words::Gen { .. } | Words::Stress { .. } => false,
        }
    }
}
