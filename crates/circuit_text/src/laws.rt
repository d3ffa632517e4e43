//! Laws of circuits.

ghost use Rattle.std.specs.Prelude.{◌≡◌, List, Bool};
ghost use Rattle.circuit_text.specs.declared.kinds.Net.{Net};
ghost use Rattle.circuit_text.specs.Values.{values_of, AreNets, AreInputsBelow, AreValues, input_count};

use crate::circuit::Circuit;

/// In a circuit, each net stands behind its operands, and each input has a number below the count of inputs.
pub fn nets_are_ordered(circuit: &Circuit)
    ensures nets { AreNets circuit.now.nets }
    ensures inputs { AreInputsBelow (input_count circuit.now.nets) circuit.now.nets }
{
    circuit.is_ordered();
}

/// Where each net stands behind its operands, the nets have values, and no others.
pub fn nets_have_one_list_of_values()
    ensures values { (nets : List Net) (inputs : List Bool) → AreNets nets → AreValues nets inputs (values_of nets inputs) }
    ensures only { (nets : List Net) (inputs values : List Bool) → AreNets nets → AreValues nets inputs values → values ≡ values_of nets inputs }
{}
