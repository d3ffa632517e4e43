//! The circuit of a netlist: a gate of many operands becomes a chain of gates.

ghost use Rattle.std.specs.Prelude.{◌≡◌, ◌<◌, ◌≤◌, ◌+◌, ◌++◌, ◌^◌, length, map, OnOk, IfOk};
ghost use Rattle.std.specs.List.{AllByRecursion};
ghost use Rattle.bench_read.specs.Netlists.{IsPlacedGate, AreGates, nets_for};
ghost use Rattle.bench_read.specs.Chains.{base_op as base_op_of, links, numbers_at as numbers_at_of, with_gate, with_gates, input_nets};
ghost use Rattle.bench_read.specs.Readings.{gate_of, circuitry_by};

use crate::bench::PlacedGate;
use circuit_text::{GateOp, Net};
use std::alloc::Global;
use surf_kinds::NoMemory;

/// The nets of a circuit, and the number of the net that each placed net is.
#[derive(Drop)]
pub(crate) struct Circuitry {
    pub(crate) nets: Vec<Net>,
    pub(crate) at: Vec<u32>,
}

/// The operation of the gates of a chain before its last one.
fn base_op(op: GateOp) -> GateOp
    ensures { result ≡ base_op_of op }
{
    match op {
        GateOp::And | GateOp::Nand => GateOp::And,
        GateOp::Or | GateOp::Nor => GateOp::Or,
        GateOp::Xor | GateOp::Xnor => GateOp::Xor,
        GateOp::Not => GateOp::Not,
        GateOp::Buf => GateOp::Buf,
    }
}

/// Adds the gates from the left over net `a` and these nets. The last one has the operation itself.
fn push_links(nets: &mut Vec<Net>, op: GateOp, a: u32, operands: &[u32]) -> Result<(), NoMemory>
    requires { length nets.old.items + length operands.now < 2 ^ 32 }
    ensures { OnOk result (nets.new.items ≡ nets.old.items ++ links (length nets.old.items) op a operands.now) }
{
    let Some((last, middle)) = operands.split_last() else {
        nets.push(Net::Gate { op, a, b: None })?;
        return Ok(());
    };
    let mut left = a;
    for b in middle {
        let number = nets.len() as u32;
        nets.push(Net::Gate {
            op: base_op(op),
            a: left,
            b: Some(*b),
        })?;
        left = number;
    }
    nets.push(Net::Gate {
        op,
        a: left,
        b: Some(*last),
    })?;
    Ok(())
}

/// The numbers of the nets at these places.
pub(crate) fn numbers_at(alloc: Global, at: &[u32], places: &[u32]) -> Result<Vec<u32>, NoMemory>
    requires { AllByRecursion (λ p. p < length at.now) places.now }
    ensures { IfOk result (λ v. v.items ≡ numbers_at_of at.now places.now) }
{
    let mut numbers = Vec::new(alloc);
    for place in places {
        numbers.push(at[*place as usize])?;
    }
    Ok(numbers)
}

impl Circuitry {
    /// The inputs.
    fn of_inputs(alloc: Global, inputs: u32) -> Result<Circuitry, NoMemory>
        ensures { IfOk result (λ c. circuitry_by c ≡ input_nets inputs) }
    {
        let mut nets = Vec::new(alloc);
        let mut at = Vec::new(alloc);
        for number in 0..inputs {
            nets.push(Net::Input { number })?;
            at.push(number)?;
        }
        Ok(Circuitry { nets, at })
    }

    /// A gate more.
    fn push(&mut self, alloc: Global, gate: &PlacedGate) -> Result<(), NoMemory>
        requires gate { IsPlacedGate (length self.old.at.items) (gate_of gate.now) }
        requires few { length self.old.nets.items + length gate.now.operands.items < 2 ^ 32 }
        ensures { OnOk result (circuitry_by self.new ≡ with_gate (circuitry_by self.old) (gate_of gate.now)) }
    {
        let operands = numbers_at(alloc, &self.at, &gate.operands)?;
        let Some((a, more)) = operands.split_first() else {
            unreachable!()
        };
        push_links(&mut self.nets, gate.op, *a, more)?;
        let last = self.nets.len() as u32 - 1;
        self.at.push(last)?;
        Ok(())
    }

    /// The circuit of a netlist.
    pub(crate) fn of(
        alloc: Global,
        inputs: u32,
        gates: &[PlacedGate],
    ) -> Result<Circuitry, NoMemory>
        requires gates { AreGates inputs (map gate_of gates.now) }
        requires few { inputs + nets_for (map gate_of gates.now) ≤ 65536 }
        ensures { IfOk result (λ c. circuitry_by c ≡ with_gates (input_nets inputs) (map gate_of gates.now)) }
    {
        let mut circuit = Circuitry::of_inputs(alloc, inputs)?;
        for gate in gates {
            circuit.push(alloc, gate)?;
        }
        Ok(circuit)
    }
}
