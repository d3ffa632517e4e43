//! Sinks, and writing a whole text.
ghost use Rattle.std.specs.Prelude.{ℕ, List, Option, ◌<◌, length, OnOk, OnErr, IfOk};
ghost use Rattle.std.specs.Io.KnownBytes.{WriteAppends, Appends};
ghost use Rattle.std.specs.Io.{WritesAtMost};
ghost use Rattle.surf_outside.specs.Causes.{HasCause};
ghost use Rattle.surf_outside.specs.Known.{AppendsPrefix};
ghost use Rattle.surf_outside.specs.Puts.{Puts};

use crate::Failed;

/// Where bytes go.
pub trait Sink {
    /// The bytes that it holds, where it tells them.
    ghost written: { Self → Option (List ℕ) };

    /// How many faults it has had; a count that never falls.
    ghost faults: { Self → ℕ };

    /// Writes the first bytes of a piece and says how many: at least one, where the piece has any.
    /// After a fault the bytes held are unchanged.
    fn write(&mut self, bytes: &[u8]) -> Result<usize, Failed>
        ensures bound { WritesAtMost result bytes.now }
        ensures progress { IfOk result (λ n. 0 < length bytes.now → 0 < n) }
        ensures bytes { WriteAppends (written self.old) (written self.new) result bytes.now }
        ensures cause { HasCause (faults self.old) (faults self.new) result };
}

/// Writes all of the bytes. After a fault of the sink a prefix of them was written.
pub fn put_all<O: Sink>(out: &mut O, bytes: &[u8]) -> Result<(), Failed>
    ensures ok { OnOk result (Appends (O.written out.old) (O.written out.new) bytes.now) }
    ensures err { OnErr result (AppendsPrefix (O.written out.old) (O.written out.new) bytes.now) }
    ensures cause { HasCause (O.faults out.old) (O.faults out.new) result }
    ensures some { OnErr result (0 < length bytes.now) }
{
    let mut at = 0;
    while at < bytes.len() {
        let n = out.write(&bytes[at..])?;
        at += n;
    }
    Ok(())
}

/// Writes all of the bytes, as `put_all` does. What `put_all` says by three clauses is one here, so that calls one
/// after the other are easily joined.
pub fn put<O: Sink>(out: &mut O, bytes: &[u8]) -> Result<(), Failed>
    ensures { Puts (O.written out.old) (O.written out.new) (O.faults out.old) (O.faults out.new) bytes.now result }
{
    put_all(out, bytes)
}
