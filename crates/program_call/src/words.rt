//! The words that the system has for a program, or why it has none.

ghost use Rattle.std.specs.Prelude.{◌≡◌, drop};
ghost use Rattle.program_call.specs.Exit.{no_words, no_words_code};

use std::alloc::{Alloc, Global};
use std::env::{self, Env};
use std::io::ErrorKind;

/// Why a program has no words to go by.
#[derive(Clone, Copy, Debug, PartialEq, Eq)]
pub enum NoWords {
    /// There was no memory for them.
    Memory,
    /// One of them is no text.
    NotText,
}

impl NoWords {
    /// Why the system gave no words, by the kind of its error.
    fn of(kind: ErrorKind) -> NoWords
        ensures { result ≡ no_words kind }
    {
        match kind {
            ErrorKind::OutOfMemory => NoWords::Memory,
            _ => NoWords::NotText,
        }
    }

    /// The exit status, of which the second is that of no top call.
    pub fn code(self) -> u8
        ensures { result ≡ no_words_code self }
    {
        match self {
            NoWords::Memory => 6,
            NoWords::NotText => 7,
        }
    }
}

/// The words of the command line, of which the first is the name of the program.
pub(crate) fn given_words<R: Env + Alloc<A = Global>>(rt: &R) -> Result<Vec<String>, NoWords> {
    let given = match env::args(rt) {
        Ok(given) => given,
        Err(error) => return Err(NoWords::of(error.kind())),
    };
    let mut words = Vec::new(rt.alloc());
    for word in given {
        if words.push(word).is_err() {
            return Err(NoWords::Memory);
        }
    }
    Ok(words)
}

/// The words behind the name of the program.
pub(crate) fn words_behind_name(words: &[String]) -> &[String]
    ensures { result.now ≡ drop 1 words.now }
{
    match words.split_first() {
        Some((_, words)) => words,
        None => words,
    }
}
