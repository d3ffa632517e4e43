//! A netlist and its reading.

ghost use Rattle.std.specs.Prelude.{◌≡◌, ◌<◌, ◌≤◌, ◌++◌, [], Ok, Err, length, map, OnOk, IfOk, true, false};
ghost use Rattle.std.specs.List.{All, list_all};
ghost use Rattle.bench_read.specs.Order.{operands_at, place_of, order_of, first_unplaced};
ghost use Rattle.bench_read.specs.Netlists.{IsNetlist, gates_for, gates_among, netlist_of, netlist_in, placed_netlist};
ghost use Rattle.bench_read.specs.Placing.{AreWithin, IsWhole};
ghost use Rattle.bench_read.specs.Readings.{item_of, gate_of};
ghost use Rattle.bench_read.specs.declared.fault.BenchFault.{BenchFault as FaultData};
ghost use Rattle.bench_read.specs.declared.fault.BenchError.TheVariants.{Fault};

use crate::chain::{Circuitry, numbers_at};
use crate::fault::{BenchError, BenchFault, BenchKind};
use crate::first::defined_names;
use crate::order::Order;
use crate::placing::place_all;
use crate::second::{Item, Resolved, resolve};
use circuit_text::{GateOp, Net};
use std::alloc::Global;
use std::marker::Model;
use surf_kinds::NoMemory;

/// A gate with the places of its operands.
#[derive(Drop)]
pub(crate) struct PlacedGate {
    pub(crate) op: GateOp,
    pub(crate) operands: Vec<u32>,
}

/// A netlist: the number of its inputs, its gates in the order in which they are placed, each behind its operands, and
/// its outputs. The inputs have the first places, in their order.
#[derive(Drop)]
pub struct Bench {
    inputs: u32,
    gates: Vec<PlacedGate>,
    outputs: Vec<u32>,
    /// The nets of its circuit, and the numbers of those that are outputs.
    nets: Vec<Net>,
    output_nets: Vec<u32>,
}

impl Model for Bench {
    ghost use Rattle.std.specs.Prelude.{◌≡◌, ◌≤◌, map, length};
    ghost use Rattle.bench_read.specs.Chains.{circuit_nets, circuit_outputs};
    ghost use Rattle.bench_read.specs.Netlists.{Netlist};
    ghost use Rattle.bench_read.specs.Readings.{gate_of};

    ghost Value = { Netlist };

    ghost view = { λ b. record { inputs = b.inputs; gates = map gate_of b.gates.items; outputs = b.outputs.items } };

    ghost invariant = { λ b. (length b.nets.items ≤ 65536)
        × (b.nets.items ≡ circuit_nets (record { inputs = b.inputs; gates = map gate_of b.gates.items; outputs = b.outputs.items }))
        × (b.output_nets.items ≡ circuit_outputs (record { inputs = b.inputs; gates = map gate_of b.gates.items; outputs = b.outputs.items })) };
}

impl Bench {
    ghost use Rattle.std.specs.Prelude.{◌≡◌, ◌≤◌, length};
    ghost use Rattle.bench_read.specs.Chains.{circuit_nets, circuit_outputs};

    /// The nets of the circuit.
    pub(crate) fn nets(&self) -> &[Net]
        ensures nets { result.now ≡ circuit_nets self.now }
        ensures few { length result.now ≤ 65536 }
    {
        &self.nets
    }

    /// The numbers of the nets of the circuit that are outputs.
    pub(crate) fn circuit_outputs(&self) -> &[u32]
        ensures { result.now ≡ circuit_outputs self.now }
    {
        &self.output_nets
    }
}

/// The places of items that are placed.
fn places_of(alloc: Global, order: &Order, numbers: &[u32]) -> Result<Vec<u32>, NoMemory>
    requires items { All (λ d. d < order.now.count) numbers.now }
    requires whole { IsWhole order.now.count order.now.placed }
    ensures { IfOk result (λ v. v.items ≡ map (place_of order.now.placed) numbers.now) }
{
    let mut places = Vec::new(alloc);
    for number in numbers {
        places.push(order.place(*number))?;
    }
    Ok(places)
}

/// The gate of an item goes last, where it is one.
fn push_gate(
    alloc: Global,
    gates: &mut Vec<PlacedGate>,
    order: &Order,
    item: &Item,
) -> Result<(), NoMemory>
    requires within { All (λ y. y < order.now.count) (operands_at (item_of item.now)) }
    requires whole { IsWhole order.now.count order.now.placed }
    ensures { OnOk result (map gate_of gates.new.items ≡ map gate_of gates.old.items ++ gates_for order.now.placed (item_of item.now)) }
{
    match item {
        Item::Input => Ok(()),
        Item::Gate { op, operands } => {
            let operands = places_of(alloc, order, operands)?;
            gates.push(PlacedGate { op: *op, operands })?;
            Ok(())
        }
    }
}

/// The gates in their order.
fn gates_of(alloc: Global, items: &[Item], order: &Order) -> Result<Vec<PlacedGate>, NoMemory>
    requires within { AreWithin (map item_of items.now) }
    requires count { order.now.count ≡ length items.now }
    requires whole { IsWhole order.now.count order.now.placed }
    requires bound { All (λ d. d < length items.now) order.now.placed }
    ensures { IfOk result (λ v. map gate_of v.items ≡ gates_among (map item_of items.now) order.now.placed order.now.placed) }
{
    let mut gates = Vec::new(alloc);
    for number in order.placed() {
        push_gate(alloc, &mut gates, order, &items[*number as usize])?;
    }
    Ok(gates)
}

/// The netlist of items that are all placed.
fn netlist(
    alloc: Global,
    resolved: &Resolved,
    order: &Order,
    inputs: u32,
) -> Result<Bench, NoMemory>
    requires within { AreWithin (map item_of resolved.now.items.items) }
    requires few { length resolved.now.items.items ≤ 65536 }
    requires outputs { All (λ d. d < length resolved.now.items.items) resolved.now.outputs.items }
    requires count { order.now.count ≡ length resolved.now.items.items }
    requires whole { IsWhole order.now.count order.now.placed }
    requires bound { All (λ d. d < length resolved.now.items.items) order.now.placed }
    requires sound { IsNetlist (record {
      inputs = inputs;
      gates = gates_among (map item_of resolved.now.items.items) order.now.placed order.now.placed;
      outputs = map (place_of order.now.placed) resolved.now.outputs.items;
    }) }
    ensures { IfOk result (λ b. b ≡ record {
      inputs = inputs;
      gates = gates_among (map item_of resolved.now.items.items) order.now.placed order.now.placed;
      outputs = map (place_of order.now.placed) resolved.now.outputs.items;
    }) }
{
    let gates = gates_of(alloc, &resolved.items, order)?;
    let outputs = places_of(alloc, order, &resolved.outputs)?;
    let circuit = Circuitry::of(alloc, inputs, &gates)?;
    let output_nets = numbers_at(alloc, &circuit.at, &outputs)?;
    let Circuitry { nets, .. } = circuit;
    Ok(Bench {
        inputs,
        gates,
        outputs,
        nets,
        output_nets,
    })
}

/// The netlist of what lines define, or the fault of the first line that can't be placed.
fn place_lines(alloc: Global, resolved: &Resolved) -> Result<Bench, BenchError>
    requires within { AreWithin (map item_of resolved.now.items.items) }
    requires few { length resolved.now.items.items ≤ 65536 }
    requires lines { length resolved.now.lines.items ≡ length resolved.now.items.items }
    requires outputs { All (λ d. d < length resolved.now.items.items) resolved.now.outputs.items }
    requires sound { first_unplaced (length resolved.now.items.items) (order_of (map item_of resolved.now.items.items)) ≡ length resolved.now.items.items → IsNetlist (netlist_of (map item_of resolved.now.items.items) (order_of (map item_of resolved.now.items.items)) resolved.now.outputs.items) }
    ensures ok { IfOk result (λ b. placed_netlist (map item_of resolved.now.items.items) resolved.now.lines.items resolved.now.outputs.items ≡ Ok b) }
    ensures fault { (f : FaultData) → result ≡ Err (Fault f) → placed_netlist (map item_of resolved.now.items.items) resolved.now.lines.items resolved.now.outputs.items ≡ Err f }
{
    let Ok(placement) = place_all(alloc, &resolved.items) else {
        return Err(BenchError::Memory);
    };
    if let Some(item) = placement.order.first_unplaced() {
        return Err(BenchError::Fault(BenchFault {
            kind: BenchKind::Cycle,
            line: resolved.lines[item],
        }));
    }
    match netlist(alloc, resolved, &placement.order, placement.inputs as u32) {
        Ok(bench) => Ok(bench),
        Err(NoMemory) => Err(BenchError::Memory),
    }
}

/// The netlist of a text of at most 64 MiB.
///
/// A line loses its comment from `#`. A line is `INPUT(name)`, `OUTPUT(name)` or `name = OP(name, .., name)`, with OP one
/// of AND, OR, XOR, NAND, NOR and XNOR with 2 to 64 operands, or NOT, BUF or BUFF with one; these words stand in any
/// mixture of cases. Lines may stand in any order. The inputs are placed first; then the next gate placed is the first one whose
/// operands are all placed.
///
/// The error `Fault` comes exactly where the text has a fault: it is the first one of the first of four passes that has
/// any, as [`BenchKind`] says. The only other error is want of memory.
pub fn read_bench(alloc: Global, text: &[u8]) -> Result<Bench, BenchError>
    requires size { length text.now ≤ 67108864 }
    ensures ok { IfOk result (λ b. netlist_in text.now ≡ Ok b) }
    ensures fault { (f : FaultData) → result ≡ Err (Fault f) → netlist_in text.now ≡ Err f }
{
    let names = match defined_names(alloc, text) {
        Ok(names) => names,
        Err(error) => return Err(error),
    };
    let resolved = match resolve(alloc, &names, text) {
        Ok(resolved) => resolved,
        Err(error) => return Err(error),
    };
    if resolved.outputs.as_slice().is_empty() {
        return Err(BenchError::Fault(BenchFault {
            kind: BenchKind::NoOutput,
            line: resolved.count + 1,
        }));
    }
    match place_lines(alloc, &resolved) {
        Ok(bench) => Ok(bench),
        Err(error) => Err(error),
    }
}
