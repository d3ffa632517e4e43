//! A circuit and the values of its nets.

ghost use Rattle.std.specs.Prelude.{◌≡◌, ◌<◌, ◌≤◌, ◌^◌, ℕ, Bool, List, length, IfOk, Some, slice_get, get_or};
ghost use Rattle.circuit_text.specs.Values.{operate as operate_of, net_value as net_value_of, values_of, AreNets, AreInputsBelow, AreValues, IsNetAt, IsBelow, input_count, input_numbers, gates_of};
ghost use Rattle.std.specs.List.{range_with_len};
ghost use Rattle.circuit_text.specs.Circuits.{NetList};

use crate::kinds::{GateOp, Net};
use crate::nets::Nets;
use species::Texts;
use std::alloc::Global;
use std::marker::Model;
use surf_kinds::NoMemory;

/// A circuit: its nets with their names, in the order in which they are defined, and the nets that are outputs.
#[derive(Drop)]
pub struct Circuit {
    names: Texts,
    nets: Nets,
    gates: Vec<u32>,
    outputs: Vec<u32>,
    ghost outputs_are: { (i : ℕ) → i < length outputs.items → get_or outputs.items i 0 < length nets },
}

impl Model for Circuit {
    ghost use Rattle.std.specs.Prelude.{◌≡◌, ◌≤◌, ◌<◌, ◌^◌, length};
    ghost use Rattle.std.specs.List.{All};
    ghost use Rattle.circuit_text.specs.Circuits.{NetList};
    ghost use Rattle.circuit_text.specs.Values.{gates_of};

    ghost Value = { NetList };

    ghost view = { λ c. record { names = c.names; nets = c.nets; outputs = c.outputs.items } };

    ghost invariant = { λ c. (length c.names ≡ length c.nets) × (1 ≤ length c.outputs.items) × (length c.outputs.items < 2 ^ 32) × (length c.gates.items ≤ 65536) × (c.gates.items ≡ gates_of c.nets) };
}

fn operate(op: GateOp, d: bool, e: bool) -> bool
    ensures { result ≡ operate_of op d e }
{
    match op {
        GateOp::And => d && e,
        GateOp::Or => d || e,
        GateOp::Xor => d != e,
        GateOp::Nand => !(d && e),
        GateOp::Nor => !(d || e),
        GateOp::Xnor => d == e,
        GateOp::Not => !d,
        GateOp::Buf => d,
    }
}

fn net_value(inputs: &[bool], known: &[bool], net: Net) -> bool
    requires operands { IsNetAt (length known.now) net }
    requires input { IsBelow (length inputs.now) net }
    ensures { result ≡ net_value_of inputs.now known.now net }
{
    match net {
        Net::Input { number } => inputs[number as usize],
        Net::Gate { op, a, b: None } => operate(op, known[a as usize], false),
        Net::Gate { op, a, b: Some(b) } => operate(op, known[a as usize], known[b as usize]),
    }
}

/// The values of nets, each after its operands.
#[tactic(auto, unfolding(crate::specs::Values::values_of))]
fn values_of(alloc: Global, nets: &[Net], inputs: &[bool]) -> Result<Vec<bool>, NoMemory>
    requires nets { AreNets nets.now }
    requires inputs { AreInputsBelow (length inputs.now) nets.now }
    ensures { IfOk result (λ v. v.items ≡ values_of nets.now inputs.now) }
{
    let mut known = Vec::new(alloc);
    for net in nets {
        let value = net_value(inputs, &known, *net);
        known.push(value)?;
    }
    Ok(known)
}

impl Circuit {
    /// The circuit of these parts.
    pub(crate) fn of(names: Texts, nets: Nets, gates: Vec<u32>, outputs: Vec<u32>) -> Circuit
        requires names { length names ≡ length nets }
        requires gates { gates.items ≡ gates_of nets }
        requires few { length gates.items ≤ 65536 }
        requires outputs { (i : ℕ) → i < length outputs.items → get_or outputs.items i 0 < length nets }
        requires some { 1 ≤ length outputs.items }
        requires size { length outputs.items < 2 ^ 32 }
        ensures { result ≡ record { names = names; nets = nets; outputs = outputs.items } }
    {
        Circuit {
            names,
            nets,
            gates,
            outputs,
        }
    }

    /// How many nets there are.
    pub fn net_count(&self) -> u32
        ensures count { result ≡ length self.now.nets }
        ensures names { result ≡ length self.now.names }
        ensures at_most { result ≤ 65536 }
    {
        self.nets.count()
    }

    /// Each net stands behind its operands, and each input has a number below the count of inputs.
    pub(crate) fn is_ordered(&self)
        ensures nets { AreNets self.now.nets }
        ensures inputs { AreInputsBelow (input_count self.now.nets) self.now.nets }
    {
        self.nets.as_slice();
    }

    /// The net with a number. The operands of a gate are nets with lower numbers.
    pub fn net(&self, n: u32) -> Net
        requires { n < length self.now.nets }
        ensures net { slice_get self.now.nets n ≡ Some result }
        ensures operands { IsNetAt n result }
        ensures input { IsBelow (input_count self.now.nets) result }
    {
        self.nets.as_slice()[n as usize]
    }

    /// How many of the nets are inputs. Their numbers are 0, 1, 2 and so on, in the order of the nets.
    pub fn input_count(&self) -> u32
        ensures count { result ≡ input_count self.now.nets }
        ensures numbers { input_numbers self.now.nets ≡ range_with_len 0 result }
    {
        self.nets.input_count()
    }

    /// How many outputs there are, at least one.
    pub fn output_count(&self) -> u32
        ensures count { result ≡ length self.now.outputs }
        ensures at_least { 1 ≤ result }
        ensures within { (i : ℕ) → i < result → get_or self.now.outputs i 0 < length self.now.nets }
    {
        self.outputs.len() as u32
    }

    /// The number of the net that an output is.
    pub fn output(&self, i: u32) -> u32
        requires { i < length self.now.outputs }
        ensures output { slice_get self.now.outputs i ≡ Some result }
        ensures within { result < length self.now.nets }
    {
        self.outputs[i as usize]
    }

    /// The name of a net.
    pub fn name(&self, n: u32) -> &[u8]
        requires { n < length self.now.nets }
        ensures { slice_get self.now.names n ≡ Some result.now }
    {
        self.names.text(n as usize).as_bytes()
    }

    /// How many of the nets are gates.
    pub fn gate_count(&self) -> u32
        ensures { result ≡ length (gates_of self.now.nets) }
    {
        self.gates.len() as u32
    }

    /// The number of the net that a gate has.
    pub fn gate_net(&self, g: u32) -> u32
        requires { g < length (gates_of self.now.nets) }
        ensures gate { slice_get (gates_of self.now.nets) g ≡ Some result }
    {
        self.gates[g as usize]
    }

    /// The value of each net, for a bit of each input: the bit of the input, or the operation on the values of the
    /// operands. No other list has each net's value so. The only error is want of memory.
    #[tactic(auto, using(crate::proofs::NetValues::values_are))]
    pub fn values(&self, inputs: &[bool]) -> Result<Vec<bool>, NoMemory>
        requires { length inputs.now ≡ input_count self.now.nets }
        ensures values { IfOk result (λ v. v.items ≡ values_of self.now.nets inputs.now) }
        ensures each { IfOk result (λ v. AreValues self.now.nets inputs.now v.items) }
        ensures only { IfOk result (λ v. (w : List Bool) → AreValues self.now.nets inputs.now w → w ≡ v.items) }
    {
        values_of(*self.gates.allocator(), self.nets.as_slice(), inputs)
    }
}
