//! Laws of netlists, over their definitions alone.

ghost use Rattle.std.specs.Prelude.{◌≡◌, ℕ, List, Bool, Ok, length, map};
ghost use Rattle.circuit_text.specs.Circuits.{circuit_in};
ghost use Rattle.circuit_text.specs.Values.{bit, values_of, input_count};
ghost use Rattle.bench_read.specs.Netlists.{Netlist, IsNetlist, netlist_in, output_values};
ghost use Rattle.bench_read.specs.Chains.{circuit_nets, circuit_outputs, circuit_of, text_of};

/// Netlists keep their values. The circuit text of a netlist is accepted. The circuit has as many inputs, and for all
/// inputs its outputs have the values of the outputs of the netlist.
pub fn netlists_keep_their_values()
    ensures accepted { (text : List ℕ) (n : Netlist) → netlist_in text ≡ Ok n → circuit_in (text_of n) ≡ Ok (circuit_of n) }
    ensures inputs { (n : Netlist) → input_count (circuit_nets n) ≡ n.inputs }
    ensures values { (text : List ℕ) (n : Netlist) → netlist_in text ≡ Ok n → (inputs : List Bool) → length inputs ≡ n.inputs → map (bit (values_of (circuit_nets n) inputs)) (circuit_outputs n) ≡ output_values n inputs }
{}

/// A text gives a netlist whose gates follow their operands, and for which a circuit has room.
pub fn netlists_are_ordered()
    ensures { (text : List ℕ) (n : Netlist) → netlist_in text ≡ Ok n → IsNetlist n }
{}
