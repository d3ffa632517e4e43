//! A list of nets that grows at its end, each net after its operands.

ghost use Rattle.std.specs.Prelude.{◌≡◌, ◌<◌, ◌≤◌, ◌++◌, ◌∷◌, [], length, Option, OnOk, OnErr};
ghost use Rattle.circuit_text.specs.Props.{nets_prop, inputs_prop};
ghost use Rattle.circuit_text.specs.Values.{AreNets, AreInputsBelow};

use crate::kinds::{GateOp, Net};
use std::alloc::Global;
use std::marker::Model;
use surf_kinds::NoMemory;

/// At most 65,536 nets. The inputs among them are numbered in their order.
#[derive(Drop)]
pub(crate) struct Nets {
    nets: Vec<Net>,
    inputs: u32,
    ghost nets_are: { AreNets nets.items } by { nets_prop nets.items },
    ghost inputs_are: { AreInputsBelow inputs nets.items } by { inputs_prop inputs nets.items },
}

impl Model for Nets {
    ghost use Rattle.std.specs.Prelude.{List, ◌≡◌, ◌≤◌, length};
    ghost use Rattle.circuit_text.specs.declared.kinds.Net.{Net};
    ghost use Rattle.std.specs.List.{range_with_len};
    ghost use Rattle.circuit_text.specs.Values.{input_count, input_numbers};

    ghost Value = { List Net };

    ghost view = { λ n. n.nets.items };

    ghost invariant = { λ n. (length n.nets.items ≤ 65536) × (n.inputs ≡ input_count n.nets.items) × (input_numbers n.nets.items ≡ range_with_len 0 n.inputs) };
}

impl Nets {
    ghost use Rattle.circuit_text.specs.declared.kinds.Net.TheVariants as net;
    ghost use Rattle.circuit_text.specs.Values.{IsNetAt, input_count, input_numbers};
    ghost use Rattle.std.specs.List.{range_with_len};

    /// No nets. Takes no memory.
    pub(crate) fn new(alloc: Global) -> Nets
        ensures { result ≡ [] }
    {
        Nets {
            nets: Vec::new(alloc),
            inputs: 0,
        }
    }

    pub(crate) fn count(&self) -> u32
        ensures count { result ≡ length self.now }
        ensures at_most { result ≤ 65536 }
    {
        self.nets.len() as u32
    }

    pub(crate) fn input_count(&self) -> u32
        ensures count { result ≡ input_count self.now }
        ensures numbers { input_numbers self.now ≡ range_with_len 0 result }
    {
        self.inputs
    }

    pub(crate) fn as_slice(&self) -> &[Net]
        ensures nets { result.now ≡ self.now }
        ensures formed { AreNets self.now }
        ensures inputs { AreInputsBelow (input_count self.now) self.now }
    {
        self.nets.as_slice()
    }

    /// Puts the next input last. After an error the nets are as they were.
    #[tactic(auto, using(crate::proofs::Grows::nets_push, crate::proofs::Grows::below_input, crate::proofs::Grows::count_input, crate::proofs::Grows::next_input))]
    pub(crate) fn push_input(&mut self) -> Result<(), NoMemory>
        requires { length self.old < 65536 }
        ensures ok { OnOk result (self.new ≡ self.old ++ net.Input (input_count self.old) ∷ []) }
        ensures err { OnErr result (self.new ≡ self.old) }
    {
        let number = self.inputs;
        self.nets.push(Net::Input { number })?;
        self.inputs = number + 1;
        Ok(())
    }

    /// Puts a gate last. After an error the nets are as they were.
    #[tactic(auto, using(crate::proofs::Grows::nets_push, crate::proofs::Grows::below_gate, crate::proofs::Grows::count_gate, crate::proofs::Grows::same_inputs))]
    pub(crate) fn push_gate(&mut self, op: GateOp, a: u32, b: Option<u32>) -> Result<(), NoMemory>
        requires room { length self.old < 65536 }
        requires formed { IsNetAt (length self.old) (net.Gate op a b) }
        ensures ok { OnOk result (self.new ≡ self.old ++ net.Gate op a b ∷ []) }
        ensures err { OnErr result (self.new ≡ self.old) }
    {
        self.nets.push(Net::Gate { op, a, b })?;
        Ok(())
    }
}
