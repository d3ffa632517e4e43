//! A sink in memory that fails at the calls that it is told.
ghost use Rattle.std.specs.Prelude.{◌≡◌, ◌≤◌, ◌<◌, ◌⊎◌, ◌↔◌, [], Some, min, length, take, IfOk, OnErr, IsErr, Contains};
ghost use Rattle.std.specs.Io.KnownBytes.{WriteAppends};
ghost use Rattle.std.specs.Io.{WritesAtMost};
ghost use Rattle.surf_outside.specs.Causes.{HasCause, risen};
ghost use Rattle.surf_outside.specs.MemSink.{added, write_failed};

use crate::{Failed, Sink};
use std::alloc::Global;
use std::marker::Model;
use surf_kinds::NoMemory;

/// A sink that keeps the bytes in memory, with little room, short writes and faults.
#[derive(Drop)]
pub struct MemSink {
    written: Vec<u8>,
    room: usize,
    most: usize,
    fails: Vec<u64>,
    calls: u64,
    faults: u64,
}

impl Model for MemSink {
    ghost use Rattle.std.specs.Prelude.{◌+◌, ◌≤◌, ◌<◌, vec_len, vec_capacity};
    ghost use Rattle.surf_outside.specs.MemSink.{SinkState};

    ghost Value = { SinkState };

    ghost view = { λ s. record {
      written = s.written.items;
      room = s.room;
      most = s.most;
      fails = s.fails.items;
      calls = s.calls;
      faults = s.faults;
    } };

    ghost invariant = { λ s. (vec_len s.written + s.room ≤ vec_capacity s.written) × (0 < s.most) };
}

impl MemSink {
    /// An empty sink that takes memory for `room` bytes now, so that no write takes any. A call moves at most
    /// `most` bytes. Calls are numbered from 1, and those whose numbers stand in `fails` fail.
    pub fn new(alloc: Global, room: usize, most: usize, fails: &[u64]) -> Result<MemSink, NoMemory>
        requires { 1 ≤ most }
        ensures { IfOk result (λ sink. sink ≡ record {
          written = [];
          room = room;
          most = most;
          fails = fails.now;
          calls = 0;
          faults = 0;
        }) }
    {
        let written = Vec::with_capacity(alloc, room)?;
        let fails = fails.to_vec(alloc)?;
        Ok(MemSink {
            written,
            room,
            most,
            fails,
            calls: 0,
            faults: 0,
        })
    }

    /// The bytes that the sink holds.
    pub fn bytes(&self) -> &[u8]
        ensures { result.now ≡ self.now.written }
    {
        &self.written
    }

    /// How many calls have failed.
    pub fn faults(&self) -> u64
        ensures { result ≡ self.now.faults }
    {
        self.faults
    }
}

impl Sink for MemSink {
    ghost written = { λ s. Some s.written };

    ghost faults = { λ s. s.faults };

    /// Fails exactly where the number of the call is one of those that fail, or where the piece has bytes and no
    /// room is left; each failure is counted.
    fn write(&mut self, bytes: &[u8]) -> Result<usize, Failed>
        ensures bound { WritesAtMost result bytes.now }
        ensures progress { IfOk result (λ n. 0 < length bytes.now → 0 < n) }
        ensures bytes { WriteAppends (Some self.old.written) (Some self.new.written) result bytes.now }
        ensures cause { HasCause self.old.faults self.new.faults result }

        ensures fails { IsErr result ↔ (Contains self.old.fails (risen self.old.calls) ⊎ ((0 < length bytes.now) × (self.old.room ≡ 0))) }
        ensures moves { IfOk result (λ n. n ≡ min (length bytes.now) (min self.old.most self.old.room)) }
        ensures ok { IfOk result (λ n. self.new ≡ added self.old (take n bytes.now)) }
        ensures err { OnErr result (self.new ≡ write_failed self.old) }
    {
        self.calls = self.calls.saturating_add(1);
        if self.fails.contains(&self.calls) || (self.room == 0 && !bytes.is_empty()) {
            self.faults = self.faults.saturating_add(1);
            return Err(Failed);
        }
        let n = bytes.len().min(self.most).min(self.room);
        // The room was taken at the start, so this takes no memory and adds all of the piece.
        let kept = self.written.extend_from_slice(&bytes[..n]);
        prove!(kept.is_ok());
        self.room -= n;
        Ok(n)
    }
}
