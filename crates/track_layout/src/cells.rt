//! The net at each column of each track.

ghost use Rattle.std.specs.Prelude.{◌≡◌, ℕ, ◌<◌, ◌≤◌, ◌+◌, ◌*◌, ◌^◌, ◌&&◌, None, Some, length, IfOk, get_or, nat_le, if◌then◌else◌};
ghost use Rattle.gate_layout.specs.Nets.{gate_count};
ghost use Rattle.gate_layout.specs.Placed.{col_count};
ghost use Rattle.track_layout.specs.Spans.{first, last};
ghost use Rattle.track_layout.specs.Tracks.{track_in, AreTracks};
ghost use Rattle.track_layout.specs.Sweep.{AreFirsts, AreEnds, AreCells};

use crate::lasts::{firsts_of, lasts_of};
use circuit_text::Circuit;
use gate_layout::placed::column_count;
use std::alloc::Global;
use surf_kinds::NoMemory;

/// One net at all these cells.
fn lay(cells: &mut Vec<Option<u32>>, from: usize, to: usize, net: u32)
    requires within { to < length cells.old.items }
    ensures size { length cells.new.items ≡ length cells.old.items }
    ensures each { (i : ℕ) → get_or cells.new.items i None ≡ (if nat_le from i && nat_le i to then Some net else get_or cells.old.items i None) }
{
    for cell in from..to + 1 {
        cells[cell] = Some(net);
    }
}

/// The next net runs along its span.
fn lay_net(
    circuit: &Circuit,
    spans: (&[u32], &[u32]),
    tracks: &[u32],
    count: u32,
    cells: &mut Vec<Option<u32>>,
    net: u32,
)
    requires firsts { AreFirsts circuit.now spans.0.now (gate_count circuit.now.nets) }
    requires ends { AreEnds circuit.now spans.1.now (length circuit.now.outputs) }
    requires tracks { AreTracks circuit.now tracks.now count }
    requires net { net < length circuit.now.nets }
    requires sites { (2 * count + 2) * col_count circuit.now.nets ≤ 2 ^ 20 }
    requires before { AreCells circuit.now tracks.now count cells.old.items net }
    ensures { AreCells circuit.now tracks.now count cells.new.items (net + 1) }
{
    let (firsts, lasts) = spans;
    let start = tracks[net as usize] as usize * column_count(circuit) as usize;
    let from = start + firsts[net as usize] as usize;
    let to = start + lasts[net as usize] as usize;
    lay(cells, from, to, net);
}

/// The net at each column of each track, track by track.
pub(crate) fn cells_of(
    alloc: Global,
    circuit: &Circuit,
    tracks: &[u32],
    count: u32,
) -> Result<Vec<Option<u32>>, NoMemory>
    requires tracks { AreTracks circuit.now tracks.now count }
    requires sites { (2 * count + 2) * col_count circuit.now.nets ≤ 2 ^ 20 }
    ensures { IfOk result (λ cells. AreCells circuit.now tracks.now count cells.items (length circuit.now.nets)) }
{
    let cols = column_count(circuit) as usize;
    let firsts = firsts_of(alloc, circuit)?;
    let lasts = lasts_of(alloc, circuit)?;
    let none: Option<u32> = None;
    let mut cells = vec![in alloc; none; count as usize * cols]?;
    for net in 0..circuit.net_count() {
        lay_net(circuit, (&firsts, &lasts), tracks, count, &mut cells, net);
    }
    Ok(cells)
}
