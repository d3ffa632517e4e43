//! The tracks of nets, from the first column to the last.

ghost use Rattle.std.specs.Prelude.{◌≡◌, ℕ, ◌==◌, ◌<◌, ◌≤◌, ◌+◌, ◌*◌, ◌^◌, length, true, false, Some, IfOk, OnOk, slice_set, get_or};
ghost use Rattle.std.specs.BinaryHeap.{IsHeap, heap_items};
ghost use Rattle.std.specs.List.{IsDistinct};
ghost use Rattle.std.specs.Ordering.{nat_cmp};
ghost use Rattle.std.proofs.Props.{props};
ghost use Rattle.std.proofs.lemmas.Map.Keys.{IsDistinct-prop};
ghost use Rattle.circuit_text.specs.Values.{AreNets};
ghost use Rattle.gate_layout.specs.Nets.{gate_count};
ghost use Rattle.gate_layout.specs.Placed.{column_of, column_net};
ghost use Rattle.track_layout.specs.Tracks.{AreTracks};
ghost use Rattle.track_layout.specs.Free.{has};
ghost use Rattle.track_layout.specs.Sweep.{IsSwept, IsNext, IsInputBy, BeginsBy, seen, AreEnds};

use crate::free::{give, take_least};
use crate::lasts::lasts_of;
use circuit_text::laws::nets_are_ordered;
use circuit_text::{Circuit, Net};
use gate_layout::placed::{column_count, net_of_column};
use std::alloc::Global;
use std::cmp::Reverse;
use std::collections::BinaryHeap;
use surf_kinds::NoMemory;

/// The tracks so far: of each net, how many they are, and which are free.
#[derive(Drop)]
pub(crate) struct Sweep {
    pub(crate) tracks: Vec<u32>,
    pub(crate) count: u32,
    free: BinaryHeap<Reverse<u32>>,
    ghost heap: { IsHeap (λ x y. nat_cmp y.0 x.0) (heap_items free) } by { Prim.hlevel props },
    ghost once: { IsDistinct (λ x y. x.0 == y.0) (heap_items free) } by { IsDistinct-prop _ _ },
}

/// The track of a net that begins: the least one that is free, or else a new one.
fn next_track(sweep: &mut Sweep) -> u32
    requires below { (k : ℕ) → has (heap_items sweep.old.free) (λ r. r.0) k ≡ true → k < sweep.old.count }
    requires room { sweep.old.count < 2 ^ 31 }
    ensures tracks { sweep.new.tracks ≡ sweep.old.tracks }
    ensures few { sweep.new.count ≤ sweep.old.count + 1 }
    ensures next { IsNext (has (heap_items sweep.old.free) (λ r. r.0)) (has (heap_items sweep.new.free) (λ r. r.0)) sweep.old.count sweep.new.count result }
{
    match take_least(&mut sweep.free) {
        Some(track) => track,
        None => {
            let track = sweep.count;
            sweep.count = track + 1;
            track
        }
    }
}

/// Where the column is a rise, its net begins.
fn begin(circuit: &Circuit, sweep: &mut Sweep, net: u32, col: u32)
    requires nets { AreNets circuit.now.nets }
    requires net { column_net circuit.now.nets (column_of (gate_count circuit.now.nets) (col + 1)) ≡ Some net }
    requires within { net < length circuit.now.nets }
    requires room { sweep.old.count < 2 ^ 31 }
    requires swept { IsSwept circuit.now sweep.old.tracks.items sweep.old.count (has (heap_items sweep.old.free) (λ r. r.0)) (BeginsBy circuit.now col) (λ n. col) }
    ensures few { sweep.new.count ≤ sweep.old.count + 1 }
    ensures swept { IsSwept circuit.now sweep.new.tracks.items sweep.new.count (has (heap_items sweep.new.free) (λ r. r.0)) (BeginsBy circuit.now (col + 1)) (λ n. col) }
{
    if col % 6 == 4 {
        let track = next_track(sweep);
        sweep.tracks[net as usize] = track;
    }
}

/// Where the net of a column ends there, its track is free.
fn end(
    circuit: &Circuit,
    lasts: &[u32],
    sweep: &mut Sweep,
    net: u32,
    col: u32,
) -> Result<(), NoMemory>
    requires nets { AreNets circuit.now.nets }
    requires ends { AreEnds circuit.now lasts.now (length circuit.now.outputs) }
    requires net { column_net circuit.now.nets (column_of (gate_count circuit.now.nets) (col + 1)) ≡ Some net }
    requires within { net < length circuit.now.nets }
    requires some { 1 ≤ col }
    requires col { col + 1 ≤ 6 * gate_count circuit.now.nets }
    requires few { 6 * gate_count circuit.now.nets < 2 ^ 20 }
    requires swept { IsSwept circuit.now sweep.old.tracks.items sweep.old.count (has (heap_items sweep.old.free) (λ r. r.0)) (BeginsBy circuit.now (col + 1)) (λ n. col) }
    ensures count { OnOk result (sweep.new.count ≡ sweep.old.count) }
    ensures swept { OnOk result (IsSwept circuit.now sweep.new.tracks.items sweep.new.count (has (heap_items sweep.new.free) (λ r. r.0)) (BeginsBy circuit.now (col + 1)) (λ n. col + 1)) }
{
    if lasts[net as usize] == col + 1 {
        give(&mut sweep.free, sweep.tracks[net as usize])?;
    }
    Ok(())
}

/// The next column.
fn step(circuit: &Circuit, lasts: &[u32], sweep: &mut Sweep, col: u32) -> Result<(), NoMemory>
    requires nets { AreNets circuit.now.nets }
    requires ends { AreEnds circuit.now lasts.now (length circuit.now.outputs) }
    requires some { 1 ≤ col }
    requires col { col + 1 ≤ 6 * gate_count circuit.now.nets }
    requires few { 6 * gate_count circuit.now.nets < 2 ^ 20 }
    requires room { sweep.old.count < 2 ^ 31 }
    requires swept { IsSwept circuit.now sweep.old.tracks.items sweep.old.count (has (heap_items sweep.old.free) (λ r. r.0)) (BeginsBy circuit.now col) (λ n. col) }
    ensures count { OnOk result (sweep.new.count ≤ sweep.old.count + 1) }
    ensures swept { OnOk result (IsSwept circuit.now sweep.new.tracks.items sweep.new.count (has (heap_items sweep.new.free) (λ r. r.0)) (BeginsBy circuit.now (col + 1)) (λ n. col + 1)) }
{
    match net_of_column(circuit, col + 1) {
        Some(net) => {
            begin(circuit, sweep, net, col);
            end(circuit, lasts, sweep, net, col)
        }
        None => Ok(()),
    }
}

/// An input begins a track of its own.
fn begin_input(circuit: &Circuit, sweep: &mut Sweep, net: u32)
    requires within { net < length circuit.now.nets }
    requires room { sweep.old.count < 2 ^ 31 }
    requires none { (k : ℕ) → has (heap_items sweep.old.free) (λ r. r.0) k ≡ false }
    requires swept { IsSwept circuit.now sweep.old.tracks.items sweep.old.count (has (heap_items sweep.old.free) (λ r. r.0)) (IsInputBy circuit.now net) (λ n. 0) }
    ensures few { sweep.new.count ≤ sweep.old.count + 1 }
    ensures none { (k : ℕ) → has (heap_items sweep.new.free) (λ r. r.0) k ≡ false }
    ensures swept { IsSwept circuit.now sweep.new.tracks.items sweep.new.count (has (heap_items sweep.new.free) (λ r. r.0)) (IsInputBy circuit.now (net + 1)) (λ n. 0) }
{
    if let Net::Input { .. } = circuit.net(net) {
        sweep.tracks[net as usize] = sweep.count;
        sweep.count += 1;
    }
}

/// Where an input ends at column 1, its track is free.
fn end_input(circuit: &Circuit, lasts: &[u32], sweep: &mut Sweep, net: u32) -> Result<(), NoMemory>
    requires within { net < length circuit.now.nets }
    requires ends { AreEnds circuit.now lasts.now (length circuit.now.outputs) }
    requires swept { IsSwept circuit.now sweep.old.tracks.items sweep.old.count (has (heap_items sweep.old.free) (λ r. r.0)) (IsInputBy circuit.now (length circuit.now.nets)) (seen net) }
    ensures count { OnOk result (sweep.new.count ≡ sweep.old.count) }
    ensures swept { OnOk result (IsSwept circuit.now sweep.new.tracks.items sweep.new.count (has (heap_items sweep.new.free) (λ r. r.0)) (IsInputBy circuit.now (length circuit.now.nets)) (seen (net + 1))) }
{
    match circuit.net(net) {
        Net::Input { .. } => {
            if lasts[net as usize] == 1 {
                give(&mut sweep.free, sweep.tracks[net as usize])?;
            }
            Ok(())
        }
        Net::Gate { .. } => Ok(()),
    }
}

/// The tracks of the inputs, of which those are free that end at column 1.
fn inputs(alloc: Global, circuit: &Circuit, lasts: &[u32]) -> Result<Sweep, NoMemory>
    requires ends { AreEnds circuit.now lasts.now (length circuit.now.outputs) }
    ensures few { IfOk result (λ sweep. sweep.count ≤ 65536) }
    ensures swept { IfOk result (λ sweep. IsSwept circuit.now sweep.tracks.items sweep.count (has (heap_items sweep.free) (λ r. r.0)) (BeginsBy circuit.now 1) (λ n. 1)) }
{
    let nets = circuit.net_count();
    let mut sweep = Sweep {
        tracks: vec![in alloc; 0u32; nets as usize]?,
        count: 0,
        free: BinaryHeap::new(alloc),
    };
    for net in 0..nets {
        begin_input(circuit, &mut sweep, net);
    }
    for input in 0..nets {
        end_input(circuit, lasts, &mut sweep, input)?;
    }
    Ok(sweep)
}

/// The tracks of all nets.
pub(crate) fn tracks_of(alloc: Global, circuit: &Circuit) -> Result<Sweep, NoMemory>
    ensures { IfOk result (λ sweep. AreTracks circuit.now sweep.tracks.items sweep.count) }
{
    nets_are_ordered(circuit);
    let columns = column_count(circuit) - 3;
    let lasts = lasts_of(alloc, circuit)?;
    let mut sweep = inputs(alloc, circuit, &lasts)?;
    for col in 1..columns {
        step(circuit, &lasts, &mut sweep, col)?;
    }
    Ok(sweep)
}
