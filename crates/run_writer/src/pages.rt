//! Text that goes out in pieces of many lines.

ghost use Rattle.std.specs.Prelude.{◌≡◌, [], IfErr, OnOk};
ghost use Rattle.run_writer.specs.Pages.{page, Puts};

use crate::buffer::Buffer;
use surf_outside::{Failed, Sink, put_all};

/// Why not all events of a run were written.
#[derive(Clone, Copy, Debug, PartialEq, Eq)]
pub enum Stop {
    /// It has more events than the limit.
    Limit,
    /// The sink had a fault.
    Write,
    /// Memory ran out.
    Memory,
}

/// How many bytes wait before they go out together: more than the lines of a list of events from one engine have, so
/// that each such list goes out by one call.
const MUCH: usize = 81_920;

/// Sends what waits.
pub fn flush<O: Sink>(out: &mut O, buffer: &mut Buffer) -> Result<(), Stop>
    ensures puts { Puts (page (O.written out.old) (O.faults out.old) buffer.old) (page (O.written out.new) (O.faults out.new) buffer.new) [] result }
    ensures none { OnOk result (buffer.new.bytes ≡ []) }
    ensures fault { IfErr result (λ stop. stop ≡ Stop.Write) }
{
    match put_all(out, buffer.bytes()) {
        Ok(()) => {
            buffer.clear();
            Ok(())
        }
        Err(Failed) => Err(Stop::Write),
    }
}

/// Sends what waits, where that is much.
pub fn flush_much<O: Sink>(out: &mut O, buffer: &mut Buffer) -> Result<(), Stop>
    ensures puts { Puts (page (O.written out.old) (O.faults out.old) buffer.old) (page (O.written out.new) (O.faults out.new) buffer.new) [] result }
    ensures fault { IfErr result (λ stop. stop ≡ Stop.Write) }
{
    if buffer.bytes().len() < MUCH {
        return Ok(());
    }
    flush(out, buffer)
}
