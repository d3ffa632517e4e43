//! Bytes that wait to go out.

ghost use Rattle.std.specs.Prelude.{◌≡◌, ◌<◌, [], Some, length, IfOk};
ghost use Rattle.std.specs.Io.KnownBytes.{WriteAppends};
ghost use Rattle.std.specs.Io.{WritesAtMost};
ghost use Rattle.surf_outside.specs.Causes.{HasCause};

use std::alloc::Global;
use std::marker::Model;
use surf_outside::{Failed, Sink};

/// A sink that keeps its bytes, and takes memory as it grows. Its only fault is want of memory.
#[derive(Drop)]
pub struct Buffer {
    bytes: Vec<u8>,
    faults: u64,
}

impl Model for Buffer {
    ghost use Rattle.run_writer.specs.Pages.{Waiting};

    ghost Value = { Waiting };

    ghost view = { λ b. record { bytes = b.bytes.items; faults = b.faults } };
}

impl Buffer {
    /// No bytes, which takes no memory.
    pub fn new(alloc: Global) -> Buffer
        ensures { result ≡ record { bytes = []; faults = 0 } }
    {
        Buffer {
            bytes: Vec::new(alloc),
            faults: 0,
        }
    }

    pub fn bytes(&self) -> &[u8]
        ensures { result.now ≡ self.now.bytes }
    {
        &self.bytes
    }

    /// Lets the bytes go, and keeps the memory.
    pub(crate) fn clear(&mut self)
        ensures { self.new ≡ record self.old { bytes = [] } }
    {
        self.bytes.clear();
    }
}

impl Sink for Buffer {
    ghost written = { λ b. Some b.bytes };

    ghost faults = { λ b. b.faults };

    /// Keeps all of the bytes, unless memory runs out.
    fn write(&mut self, bytes: &[u8]) -> Result<usize, Failed>
        ensures bound { WritesAtMost result bytes.now }
        ensures progress { IfOk result (λ n. 0 < length bytes.now → 0 < n) }
        ensures bytes { WriteAppends (Some self.old.bytes) (Some self.new.bytes) result bytes.now }
        ensures cause { HasCause self.old.faults self.new.faults result }
    {
        match self.bytes.extend_from_slice(bytes) {
            Ok(()) => Ok(bytes.len()),
            Err(_) => {
                self.faults = self.faults.saturating_add(1);
                Err(Failed)
            }
        }
    }
}
