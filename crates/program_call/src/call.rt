//! What a program is called with: its words, and its standard input, output and error.

ghost use Rattle.std.specs.Prelude.{◌≡◌, IfOk};
ghost use Rattle.surf_outside.specs.StdSink.{writer_of, writer_faults};
ghost use Rattle.surf_outside.specs.StdSource.{reader_of, reader_faults};

use crate::words::{NoWords, given_words};
use std::alloc::{Alloc, Global};
use std::env::Env;
use std::io::{Read, Write};
use surf_outside::{StdSink, StdSource};

/// What a program is called with.
#[derive(Drop)]
pub struct Call<S, O, N> {
    /// Of which the first is the name of the program.
    pub words: Vec<String>,
    pub source: S,
    pub out: O,
    pub notes: N,
}

impl<S: Read + Drop, O: Write + Drop, N: Write + Drop> Call<StdSource<S>, StdSink<O>, StdSink<N>> {
    /// A call with the words that the system has for the program, and with these streams, which have had no fault.
    pub fn given<R: Env + Alloc<A = Global>>(
        rt: &R,
        source: S,
        out: O,
        notes: N,
    ) -> Result<Self, NoWords>
        ensures source { IfOk result (λ call. (reader_of call.source ≡ source) × (reader_faults call.source ≡ 0)) }
        ensures out { IfOk result (λ call. (writer_of call.out ≡ out) × (writer_faults call.out ≡ 0)) }
        ensures notes { IfOk result (λ call. (writer_of call.notes ≡ notes) × (writer_faults call.notes ≡ 0)) }
    {
        match given_words(rt) {
            Ok(words) => Ok(Call {
                words,
                source: StdSource::new(source),
                out: StdSink::new(out),
                notes: StdSink::new(notes),
            }),
            Err(none) => Err(none),
        }
    }
}
