//! The laws of layouts.

ghost use Rattle.gate_layout.specs.Table.{IsWellFormed};
ghost use Rattle.gate_layout.specs.Placed.{Placement as Placing, IsPlaced, table_on};
ghost use Rattle.gate_layout.specs.Layout.{layout};

use crate::placed::circuit_facts;
use crate::placement::Placement;
use circuit_text::Circuit;

/// The layout of each circuit, of whatever size, is well-formed: the roles of neighbours agree, inputs and outputs have
/// wires of their nets, and each half but those of input cells has a feeder of a lower rank.
pub fn layouts_are_well_formed(circuit: &Circuit)
    ensures { IsWellFormed circuit.now (layout circuit.now) }
{
    circuit_facts(circuit);
}

/// On each placement of a circuit the table is well-formed.
pub fn placed_tables_are_well_formed<P: Placement>(placement: &P)
    requires { IsPlaced (P.net_list placement.now) (P.placing placement.now) }
    ensures { IsWellFormed (P.net_list placement.now) (table_on (P.placing placement.now) (P.net_list placement.now)) }
{
    circuit_facts(placement.circuit());
}
