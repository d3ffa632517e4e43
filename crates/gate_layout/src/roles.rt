//! The role of a cell, by its row and its column.

ghost use Rattle.std.specs.Prelude.{◌≡◌, ◌<◌, length, IfSome};
ghost use Rattle.circuit_text.specs.Values.{AreNets};
ghost use Rattle.gate_layout.specs.Nets.{gate_count, net_of, operand_a, operand_b};
ghost use Rattle.gate_layout.specs.Table.{IsNamed};
ghost use Rattle.gate_layout.specs.Placed.{Placement as Placing, col_count, column_net, net_role, between_role, pin_a, pin_b, pins_role, bottom_role, role_in};
ghost use Rattle.gate_layout.specs.Within.{IsColumnOf, IsRowOf};

use crate::parts::{Column, Part, Row};
use crate::placement::Placement;
use crate::role::Role;
use circuit_text::{Circuit, Net};

/// The number of the net that a gate has.
pub(crate) fn gate_net(circuit: &Circuit, gate: u32) -> u32
    requires { gate < gate_count circuit.now.nets }
    ensures net { result ≡ net_of circuit.now.nets gate }
    ensures within { result < length circuit.now.nets }
{
    circuit.gate_net(gate)
}

/// The first operand of a gate.
fn operand_a(circuit: &Circuit, gate: u32) -> Option<u32>
    requires { gate < gate_count circuit.now.nets }
    ensures operand { result ≡ operand_a circuit.now.nets gate }
    ensures within { IfSome result (λ net. net < length circuit.now.nets) }
{
    match circuit.net(gate_net(circuit, gate)) {
        Net::Gate { a, .. } => Some(a),
        Net::Input { .. } => None,
    }
}

/// The second operand of a gate, where it has two.
pub(crate) fn operand_b(circuit: &Circuit, gate: u32) -> Option<u32>
    requires { gate < gate_count circuit.now.nets }
    ensures operand { result ≡ operand_b circuit.now.nets gate }
    ensures within { IfSome result (λ net. net < length circuit.now.nets) }
{
    match circuit.net(gate_net(circuit, gate)) {
        Net::Gate { b, .. } => b,
        Net::Input { .. } => None,
    }
}

/// The net of a column, which runs in it.
pub(crate) fn column_net(circuit: &Circuit, column: Column) -> Option<u32>
    requires { IsColumnOf circuit.now.nets column }
    ensures net { result ≡ column_net circuit.now.nets column }
    ensures within { IfSome result (λ net. net < length circuit.now.nets) }
{
    match column {
        Column::Of {
            gate,
            part: Part::FirstPin,
        } => operand_a(circuit, gate),
        Column::Of {
            gate,
            part: Part::SecondPin,
        } => operand_b(circuit, gate),
        Column::Of {
            gate,
            part: Part::Rise,
        } => Some(gate_net(circuit, gate)),
        _ => None,
    }
}

/// The role of a cell in the row of a track, by the net that runs there and the net of the column.
fn net_role<P: Placement>(
    placement: &P,
    track: u32,
    run: Option<u32>,
    crossing: Option<u32>,
) -> Role
    requires run { IfSome run (λ net. net < length (P.net_list placement.now).nets) }
    requires crossing { IfSome crossing (λ net. net < length (P.net_list placement.now).nets) }
    ensures role { result ≡ net_role (P.placing placement.now) track run crossing }
    ensures named { IsNamed (P.net_list placement.now).nets result }
{
    match (run, crossing) {
        (Some(row_net), Some(col_net)) => {
            if placement.track(col_net) < track {
                Role::Cross { row_net, col_net }
            } else {
                Role::Wire { net: row_net }
            }
        }
        (Some(net), None) => Role::Wire { net },
        (None, Some(net)) => {
            if placement.track(net) < track {
                Role::Vert { net }
            } else {
                Role::Inert
            }
        }
        (None, None) => Role::Inert,
    }
}

/// The role of a cell below the row of a track, by the net of its column.
fn between_role<P: Placement>(placement: &P, track: u32, crossing: Option<u32>) -> Role
    requires crossing { IfSome crossing (λ net. net < length (P.net_list placement.now).nets) }
    ensures role { result ≡ between_role (P.placing placement.now) track crossing }
    ensures named { IsNamed (P.net_list placement.now).nets result }
{
    match crossing {
        Some(net) => {
            if placement.track(net) <= track {
                Role::Vert { net }
            } else {
                Role::Inert
            }
        }
        None => Role::Inert,
    }
}

fn pin_a(circuit: &Circuit, net: Option<u32>) -> Role
    requires { IfSome net (λ net. net < length circuit.now.nets) }
    ensures role { result ≡ pin_a net }
    ensures named { IsNamed circuit.now.nets result }
{
    match net {
        Some(net) => Role::PinA { net },
        None => Role::Inert,
    }
}

fn pin_b(circuit: &Circuit, net: Option<u32>) -> Role
    requires { IfSome net (λ net. net < length circuit.now.nets) }
    ensures role { result ≡ pin_b net }
    ensures named { IsNamed circuit.now.nets result }
{
    match net {
        Some(net) => Role::PinB { net },
        None => Role::Inert,
    }
}

fn pins_role(circuit: &Circuit, column: Column) -> Role
    requires { IsColumnOf circuit.now.nets column }
    ensures role { result ≡ pins_role circuit.now.nets column }
    ensures named { IsNamed circuit.now.nets result }
{
    match column {
        Column::Of {
            gate,
            part: Part::FirstPin,
        } => pin_a(circuit, operand_a(circuit, gate)),
        Column::Of {
            gate,
            part: Part::Body,
        } => Role::Gate { gate },
        Column::Of {
            gate,
            part: Part::SecondPin,
        } => pin_b(circuit, operand_b(circuit, gate)),
        Column::Of {
            gate,
            part: Part::Rise,
        } => Role::Vert {
            net: gate_net(circuit, gate),
        },
        _ => Role::Inert,
    }
}

fn bottom_role(circuit: &Circuit, column: Column) -> Role
    requires { IsColumnOf circuit.now.nets column }
    ensures role { result ≡ bottom_role circuit.now.nets column }
    ensures named { IsNamed circuit.now.nets result }
{
    match column {
        Column::Of {
            gate,
            part: Part::Body | Part::SecondPin | Part::Bend | Part::Rise,
        } => Role::Wire {
            net: gate_net(circuit, gate),
        },
        _ => Role::Inert,
    }
}

/// The role of a cell, by what its row and its column are for.
pub(crate) fn role_in<P: Placement>(placement: &P, row: Row, column: Column, col: u32) -> Role
    requires row { IsRowOf (P.placing placement.now).tracks row }
    requires column { IsColumnOf (P.net_list placement.now).nets column }
    requires col { col < col_count (P.net_list placement.now).nets }
    ensures role { result ≡ role_in (P.placing placement.now) (P.net_list placement.now).nets row column col }
    ensures named { IsNamed (P.net_list placement.now).nets result }
{
    let circuit = placement.circuit();
    match row {
        Row::TrackRow { track } => {
            let crossing = column_net(circuit, column);
            net_role(placement, track, placement.runs(track, col), crossing)
        }
        Row::Between { track } => between_role(placement, track, column_net(circuit, column)),
        Row::Pins => pins_role(circuit, column),
        Row::Bottom => bottom_role(circuit, column),
    }
}
