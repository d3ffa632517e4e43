//! Bytes in memory as a source that fails at the calls that it is told.
ghost use Rattle.std.specs.Prelude.{◌≡◌, ◌≤◌, ◌↔◌, Some, min, length, IfOk, OnErr, IsErr, Contains};
ghost use Rattle.std.specs.Io.KnownBytes.{ReadConsumes};
ghost use Rattle.std.specs.Io.{ReadsAtMost};
ghost use Rattle.surf_outside.specs.Causes.{HasCause, risen};
ghost use Rattle.surf_outside.specs.MemSource.{taken, read_failed};

use crate::{Failed, Source};
use std::alloc::Global;
use std::marker::Model;
use surf_kinds::NoMemory;

/// Bytes in memory, to be read in short pieces and with faults.
#[derive(Drop)]
pub struct MemSource {
    bytes: Vec<u8>,
    at: usize,
    most: usize,
    fails: Vec<u64>,
    calls: u64,
    faults: u64,
}

impl Model for MemSource {
    ghost use Rattle.std.specs.Prelude.{◌≤◌, ◌<◌, drop, length};
    ghost use Rattle.surf_outside.specs.MemSource.{SourceState};

    ghost Value = { SourceState };

    ghost view = { λ s. record {
      unread = drop s.at s.bytes.items;
      most = s.most;
      fails = s.fails.items;
      calls = s.calls;
      faults = s.faults;
    } };

    ghost invariant = { λ s. (s.at ≤ length s.bytes.items) × (0 < s.most) };
}

impl MemSource {
    /// A copy of the bytes. A call moves at most `most` of them. Calls are numbered from 1, and those whose
    /// numbers stand in `fails` fail.
    pub fn new(
        alloc: Global,
        bytes: &[u8],
        most: usize,
        fails: &[u64],
    ) -> Result<MemSource, NoMemory>
        requires { 1 ≤ most }
        ensures { IfOk result (λ source. source ≡ record {
          unread = bytes.now;
          most = most;
          fails = fails.now;
          calls = 0;
          faults = 0;
        }) }
    {
        let bytes = bytes.to_vec(alloc)?;
        let fails = fails.to_vec(alloc)?;
        Ok(MemSource {
            bytes,
            at: 0,
            most,
            fails,
            calls: 0,
            faults: 0,
        })
    }

    /// How many calls have failed.
    pub fn faults(&self) -> u64
        ensures { result ≡ self.now.faults }
    {
        self.faults
    }
}

impl Source for MemSource {
    ghost unread = { λ s. Some s.unread };

    ghost faults = { λ s. s.faults };

    /// Fails exactly where the number of the call is one of those that fail, and counts the failure.
    fn read(&mut self, buf: &mut [u8]) -> Result<usize, Failed>
        ensures bound { ReadsAtMost result buf.new }
        ensures bytes { ReadConsumes (Some self.old.unread) (Some self.new.unread) result buf.new }
        ensures cause { HasCause self.old.faults self.new.faults result }

        ensures fails { IsErr result ↔ Contains self.old.fails (risen self.old.calls) }
        ensures moves { IfOk result (λ n. n ≡ min (length buf.new) (min self.old.most (length self.old.unread))) }
        ensures ok { IfOk result (λ n. self.new ≡ taken self.old n) }
        ensures err { OnErr result (self.new ≡ read_failed self.old) }
    {
        self.calls = self.calls.saturating_add(1);
        if self.fails.contains(&self.calls) {
            self.faults = self.faults.saturating_add(1);
            return Err(Failed);
        }
        let n = buf.len().min(self.most).min(self.bytes.len() - self.at);
        buf[..n].copy_from_slice(&self.bytes[self.at..self.at + n]);
        self.at += n;
        Ok(n)
    }
}
