//! Sources, and reading one to its end.
ghost use Rattle.std.specs.Prelude.{◌≡◌, ℕ, List, Option, ◌+◌, ◌<◌, ◌≤◌, ◌↔◌, ◌++◌, length, max, vec_capacity, IfOk, OnOk, OnErr, IfSome, IsErrOf, MatchResult};
ghost use Rattle.std.specs.Io.KnownBytes.{ReadConsumes, IsAtEnd, Consumes};
ghost use Rattle.std.specs.Io.{ReadsAtMost};
ghost use Rattle.surf_outside.specs.Causes.{HasCause, Rose};
ghost use Rattle.surf_outside.specs.Known.{ConsumesSome};

use crate::Failed;
use std::alloc::{AllocError, Global};

/// How many bytes `slurp` asks for at a time.
const PIECE: usize = 65_536;

/// Where bytes come from.
pub trait Source {
    /// The bytes that are left, where it tells them.
    ghost unread: { Self → Option (List ℕ) };

    /// How many faults it has had; a count that never falls.
    ghost faults: { Self → ℕ };

    /// Takes the first bytes that are left, puts them at the start of the buffer and says how many. None, into
    /// a buffer that has room, means that nothing is left. After a fault the bytes left are unchanged.
    fn read(&mut self, buf: &mut [u8]) -> Result<usize, Failed>
        ensures bound { ReadsAtMost result buf.new }
        ensures bytes { ReadConsumes (unread self.old) (unread self.new) result buf.new }
        ensures cause { HasCause (faults self.old) (faults self.new) result };
}

/// Why `slurp` stopped before the end.
#[derive(Clone, Copy, Debug, PartialEq, Eq)]
pub enum SlurpError {
    /// The source had a fault.
    Read,
    /// The source gave more bytes than it may.
    TooLong,
    /// Memory ran out.
    Memory,
}

/// All the bytes that are left, at most `most`. After an error a prefix of them was taken, of at most one byte more.
///
/// The list doubles its room as it grows, but takes room for no more than `most` bytes.
pub fn slurp<S: Source>(alloc: Global, source: &mut S, most: usize) -> Result<Vec<u8>, SlurpError>
    ensures ok { IfOk result (λ all. IfSome (S.unread source.old) (λ bytes. all.items ≡ bytes)) }
    ensures end { OnOk result (IsAtEnd (S.unread source.new)) }
    ensures within { IfOk result (λ all. length all.items ≤ most) }
    ensures some { ConsumesSome (S.unread source.old) (S.unread source.new) }

    // Whether the source tells its bytes or not: it gave some, which are the answer, or more of them than `most`.
    ensures took { (bytes : List ℕ) × Consumes (S.unread source.old) (S.unread source.new) bytes
        × MatchResult result (λ all. all.items ≡ bytes) (λ e. e ≡ SlurpError.TooLong → most < length bytes) }

    ensures later { S.faults source.old ≤ S.faults source.new }
    ensures read { IsErrOf result SlurpError.Read → Rose (S.faults source.old) (S.faults source.new) }

    // Where the bytes are told: exactly where more than `most` of them were taken.
    ensures too_long { IfSome (S.unread source.old) (λ bytes. IfSome (S.unread source.new) (λ rest.
        IsErrOf result SlurpError.TooLong ↔ (most + length rest < length bytes))) }
    ensures at_most { IfSome (S.unread source.old) (λ bytes. IfSome (S.unread source.new) (λ rest. length bytes ≤ most + 1 + length rest)) }
{
    let mut all: Vec<u8> = Vec::new(alloc);
    let mut piece = [0; PIECE];
    loop {
        let n = match source.read(&mut piece[..next_size(all.len(), most)]) {
            Ok(n) => n,
            Err(_) => return Err(SlurpError::Read),
        };
        if n == 0 {
            return Ok(all);
        }
        if n > most - all.len() {
            return Err(SlurpError::TooLong);
        }
        if append(&mut all, &piece[..n], most).is_err() {
            return Err(SlurpError::Memory);
        }
    }
}

/// How many bytes are asked for where so many of at most `most` were read: one past those at most.
fn next_size(read: usize, most: usize) -> usize
    requires { read ≤ most }
    ensures some { 0 < result }
    ensures piece { result ≤ 65536 }
    ensures at_most { read + result ≤ most + 1 }
{
    (most - read).saturating_add(1).min(PIECE)
}

/// Puts a piece behind the bytes of a list that may grow to `most` bytes. After an error the bytes are unchanged.
fn append(all: &mut Vec<u8>, piece: &[u8], most: usize) -> Result<(), AllocError>
    requires { length all.old.items + length piece.now ≤ most }
    ensures ok { OnOk result (all.new.items ≡ all.old.items ++ piece.now) }
    ensures err { OnErr result (all.new.items ≡ all.old.items) }
{
    make_room(all, all.len() + piece.len(), most)?;
    all.extend_from_slice(piece)
}

/// Makes room for `wanted` bytes in all. Where the list has to move, its room doubles, but never past `most`.
fn make_room(all: &mut Vec<u8>, wanted: usize, most: usize) -> Result<(), AllocError>
    requires { wanted ≤ most }
    ensures items { all.new.items ≡ all.old.items }
    ensures room { OnOk result (wanted ≤ vec_capacity all.new) }
    ensures bounded { vec_capacity all.new ≤ max (vec_capacity all.old) most }
{
    if wanted <= all.capacity() {
        return Ok(());
    }
    let doubled = all.capacity().saturating_mul(2).min(most);
    all.reserve_exact(doubled.max(wanted) - all.len())
}
