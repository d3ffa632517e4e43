//! Readers of std as sources.
ghost use Rattle.std.specs.Prelude.{◌≡◌, is_ok, if◌then◌else◌};
ghost use Rattle.std.specs.Io.KnownBytes.{ReadConsumes};
ghost use Rattle.std.specs.Io.{ReadsAtMost};
ghost use Rattle.surf_outside.specs.Causes.{HasCause, risen};
ghost use Rattle.surf_outside.specs.StdSource.{reader_of, reader_faults};

use crate::{Failed, Source};
use std::io::Read;

/// A reader of std, with a count of the errors that it answered. It tells its bytes where the reader does.
#[derive(Drop)]
pub struct StdSource<T> {
    inner: T,
    faults: u64,
}

impl<T: Read> StdSource<T> {
    /// The reader, with no faults so far.
    pub fn new(inner: T) -> StdSource<T>
        ensures inner { reader_of result ≡ inner }
        ensures faults { reader_faults result ≡ 0 }
    {
        StdSource { inner, faults: 0 }
    }
}

impl<T: Read> Source for StdSource<T> {
    ghost unread = { λ s. T.remaining (reader_of s) };

    ghost faults = { λ s. reader_faults s };

    /// An error of the reader is a fault.
    fn read(&mut self, buf: &mut [u8]) -> Result<usize, Failed>
        ensures bound { ReadsAtMost result buf.new }
        ensures bytes { ReadConsumes (T.remaining (reader_of self.old)) (T.remaining (reader_of self.new)) result buf.new }
        ensures cause { HasCause (reader_faults self.old) (reader_faults self.new) result }
        ensures count { reader_faults self.new ≡ (if is_ok result then reader_faults self.old else risen (reader_faults self.old)) }
    {
        match self.inner.read(buf) {
            Ok(n) => Ok(n),
            Err(_) => {
                self.faults = self.faults.saturating_add(1);
                Err(Failed)
            }
        }
    }
}
