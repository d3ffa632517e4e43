//! Writers of std as sinks.
ghost use Rattle.std.specs.Prelude.{◌≡◌, ◌<◌, length, IfOk, is_ok, if◌then◌else◌};
ghost use Rattle.std.specs.Io.KnownBytes.{WriteAppends};
ghost use Rattle.std.specs.Io.{WritesAtMost};
ghost use Rattle.surf_outside.specs.Causes.{HasCause, risen};
ghost use Rattle.surf_outside.specs.StdSink.{writer_of, writer_faults};

use crate::{Failed, Sink};
use std::io::Write;

/// A writer of std, with a count of its faults. It tells its bytes where the writer does.
#[derive(Drop)]
pub struct StdSink<T> {
    inner: T,
    faults: u64,
}

impl<T: Write> StdSink<T> {
    /// The writer, with no faults so far.
    pub fn new(inner: T) -> StdSink<T>
        ensures inner { writer_of result ≡ inner }
        ensures faults { writer_faults result ≡ 0 }
    {
        StdSink { inner, faults: 0 }
    }
}

impl<T: Write> Sink for StdSink<T> {
    ghost written = { λ s. T.contents (writer_of s) };

    ghost faults = { λ s. writer_faults s };

    /// An error of the writer is a fault, and so is a write that takes no byte of a piece that has some.
    fn write(&mut self, bytes: &[u8]) -> Result<usize, Failed>
        ensures bound { WritesAtMost result bytes.now }
        ensures progress { IfOk result (λ n. 0 < length bytes.now → 0 < n) }
        ensures bytes { WriteAppends (T.contents (writer_of self.old)) (T.contents (writer_of self.new)) result bytes.now }
        ensures cause { HasCause (writer_faults self.old) (writer_faults self.new) result }
        ensures count { writer_faults self.new ≡ (if is_ok result then writer_faults self.old else risen (writer_faults self.old)) }
    {
        match self.inner.write(bytes) {
            Ok(n) if n > 0 || bytes.is_empty() => Ok(n),
            _ => {
                self.faults = self.faults.saturating_add(1);
                Err(Failed)
            }
        }
    }
}
