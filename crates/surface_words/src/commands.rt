//! The commands of the programs.

ghost use Rattle.std.specs.Prelude.{◌≡◌};
ghost use Rattle.surface_words.specs.Commands.{command_of, has_option};

use crate::options::OptionName;

/// A program, which has its own commands.
#[derive(Clone, Copy, Debug, PartialEq, Eq)]
pub enum Program {
    Surface,
    Watch,
}

#[derive(Clone, Copy)]
pub(crate) enum Command {
    Check,
    Print,
    Run,
    Compile,
    Value,
    Gen,
    Stress,
    Ensemble,
    Bench,
    Compact,
    Watch,
}

impl Command {
    /// The command of the program that a word names.
    pub(crate) fn read(word: &str, program: Program) -> Option<Command>
        ensures { result ≡ command_of program word.now }
    {
        match program {
            Program::Surface => match word {
                "check" => Some(Command::Check),
                "print" => Some(Command::Print),
                "run" => Some(Command::Run),
                "compile" => Some(Command::Compile),
                "value" => Some(Command::Value),
                "gen" => Some(Command::Gen),
                "stress" => Some(Command::Stress),
                "ensemble" => Some(Command::Ensemble),
                "bench" => Some(Command::Bench),
                "compact" => Some(Command::Compact),
                _ => None,
            },
            Program::Watch => match word {
                "watch" => Some(Command::Watch),
                _ => None,
            },
        }
    }

    pub(crate) fn has(self, option: OptionName) -> bool
        ensures { result ≡ has_option self option }
    {
        match option {
            OptionName::Workers => matches!(
                self,
                Command::Run | Command::Stress | Command::Ensemble | Command::Watch
            ),
            OptionName::Until | OptionName::Limit => {
                matches!(self, Command::Run | Command::Ensemble | Command::Watch)
            }
            OptionName::Seed | OptionName::Samples | OptionName::Quota | OptionName::Slots => {
                matches!(self, Command::Run | Command::Watch)
            }
            OptionName::Inputs => {
                matches!(self, Command::Compile | Command::Value | Command::Compact)
            }
            OptionName::Number => matches!(self, Command::Gen | Command::Stress),
            OptionName::Seeds | OptionName::First => matches!(self, Command::Ensemble),
            OptionName::Report => matches!(self, Command::Run),
            OptionName::Viewers | OptionName::Frames => matches!(self, Command::Watch),
        }
    }
}
