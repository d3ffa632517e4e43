//! The last columns of nets.

ghost use Rattle.std.specs.Prelude.{◌≡◌, ◌<◌, ◌≤◌, ◌+◌, ◌*◌, ◌^◌, length, IfOk};
ghost use Rattle.gate_layout.specs.Nets.{gate_count};
ghost use Rattle.track_layout.specs.Sweep.{AreLasts, AreEnds, AreFirsts};

use circuit_text::Circuit;
use gate_layout::placed::net_of_column;
use std::alloc::Global;
use surf_kinds::NoMemory;

/// The next column is the greatest one so far that has its net.
fn note_column(circuit: &Circuit, lasts: &mut Vec<u32>, col: u32)
    requires few { 6 * gate_count circuit.now.nets < 2 ^ 20 }
    requires col { col < 2 ^ 20 }
    requires before { AreLasts circuit.now lasts.old.items col }
    ensures { AreLasts circuit.now lasts.new.items (col + 1) }
{
    if let Some(net) = net_of_column(circuit, col + 1) {
        lasts[net as usize] = col + 1;
    }
}

/// The net of an output runs to the last column.
fn note_output(circuit: &Circuit, lasts: &mut Vec<u32>, output: u32)
    requires few { 6 * gate_count circuit.now.nets < 2 ^ 20 }
    requires output { output < length circuit.now.outputs }
    requires before { AreEnds circuit.now lasts.old.items output }
    ensures { AreEnds circuit.now lasts.new.items (output + 1) }
{
    lasts[circuit.output(output) as usize] = 6 * circuit.gate_count() + 2;
}

/// The greatest column of each net.
fn columns(alloc: Global, circuit: &Circuit) -> Result<Vec<u32>, NoMemory>
    requires few { 6 * gate_count circuit.now.nets < 2 ^ 20 }
    ensures { IfOk result (λ lasts. AreLasts circuit.now lasts.items (6 * gate_count circuit.now.nets)) }
{
    let mut lasts = vec![in alloc; 1u32; circuit.net_count() as usize]?;
    for col in 0..6 * circuit.gate_count() {
        note_column(circuit, &mut lasts, col);
    }
    Ok(lasts)
}

/// The last column of each net.
pub(crate) fn lasts_of(alloc: Global, circuit: &Circuit) -> Result<Vec<u32>, NoMemory>
    requires few { 6 * gate_count circuit.now.nets < 2 ^ 20 }
    ensures { IfOk result (λ lasts. AreEnds circuit.now lasts.items (length circuit.now.outputs)) }
{
    let mut lasts = columns(alloc, circuit)?;
    for output in 0..circuit.output_count() {
        note_output(circuit, &mut lasts, output);
    }
    Ok(lasts)
}

/// The net of a gate begins in its rise.
fn note_gate(circuit: &Circuit, firsts: &mut Vec<u32>, gate: u32)
    requires few { 6 * gate_count circuit.now.nets < 2 ^ 20 }
    requires gate { gate < gate_count circuit.now.nets }
    requires before { AreFirsts circuit.now firsts.old.items gate }
    ensures { AreFirsts circuit.now firsts.new.items (gate + 1) }
{
    firsts[circuit.gate_net(gate) as usize] = 6 * gate + 5;
}

/// The first column of each net.
pub(crate) fn firsts_of(alloc: Global, circuit: &Circuit) -> Result<Vec<u32>, NoMemory>
    requires few { 6 * gate_count circuit.now.nets < 2 ^ 20 }
    ensures { IfOk result (λ firsts. AreFirsts circuit.now firsts.items (gate_count circuit.now.nets)) }
{
    let mut firsts = vec![in alloc; 0u32; circuit.net_count() as usize]?;
    for gate in 0..circuit.gate_count() {
        note_gate(circuit, &mut firsts, gate);
    }
    Ok(firsts)
}
