//! From which side a half is filled.

ghost use Rattle.std.specs.Prelude.{◌≡◌, ◌<◌, ◌≤◌, ◌+◌, ◌*◌, ◌^◌, length, IfSome, Some, slice_get};
ghost use Rattle.gate_layout.specs.Nets.{gate_count, gate_at, is_input, input_net, AreNumbered};
ghost use Rattle.gate_layout.specs.Table.{IsNamed, halves, spot_of};
ghost use Rattle.gate_layout.specs.Placed.{Placement as Placing, col_count, source, source_side, row_side, column_side, net_side, body_side, pins_side, bottom_side, side_in, neighbour};
ghost use Rattle.gate_layout.specs.Within.{IsRowOf};
ghost use Rattle.gate_layout.specs.declared.parts.Side.TheVariants as sides;

use crate::parts::{Column, Part, Row, Side};
use crate::placement::Placement;
use crate::role::Role;
use crate::roles::operand_b;
use circuit_text::{Circuit, Net};

/// How many halves a role has.
pub(crate) fn halves(circuit: &Circuit, role: Role) -> u8
    requires { IsNamed circuit.now.nets role }
    ensures { result ≡ halves circuit.now.nets role }
{
    match role {
        Role::Inert => 0,
        Role::Cross { .. } => 2,
        Role::Gate { gate } => match operand_b(circuit, gate) {
            Some(_) => 2,
            None => 1,
        },
        Role::Wire { .. } | Role::Vert { .. } | Role::PinA { .. } | Role::PinB { .. } => 1,
    }
}

/// The gate that a net is; the number of gates, where it is none.
fn gate_at(circuit: &Circuit, net: u32) -> u32
    ensures gate { result ≡ gate_at circuit.now.nets net }
    ensures within { result ≤ gate_count circuit.now.nets }
{
    let gates = circuit.gate_count();
    for gate in 0..gates {
        if circuit.gate_net(gate) == net {
            return gate;
        }
    }
    gates
}

fn is_input(net: Net, number: u32) -> bool
    ensures { result ≡ is_input number net }
{
    match net {
        Net::Input { number: own } => own == number,
        Net::Gate { .. } => false,
    }
}

/// The number of the net that an input has.
///
/// No input comes before the net with its own number, so it is looked for from there on. That takes one step for each
/// gate before it.
pub(crate) fn input_net(circuit: &Circuit, number: u32) -> u32
    requires { AreNumbered circuit.now.nets }
    ensures net { result ≡ input_net circuit.now.nets number }
    ensures within { result ≤ length circuit.now.nets }
{
    let nets = circuit.net_count();
    for net in number..nets {
        if is_input(circuit.net(net), number) {
            return net;
        }
    }
    nets
}

/// The column at which a net comes into its row.
pub(crate) fn source(circuit: &Circuit, net: u32) -> u32
    requires net { net < length circuit.now.nets }
    requires few { 6 * gate_count circuit.now.nets < 2 ^ 20 }
    ensures column { result ≡ source circuit.now.nets net }
    ensures within { result < 2 ^ 21 }
{
    match circuit.net(net) {
        Net::Gate { .. } => 6 * gate_at(circuit, net) + 5,
        Net::Input { .. } => 0,
    }
}

fn source_side(net: Net) -> Option<Side>
    ensures { result ≡ source_side (Some net) }
{
    match net {
        Net::Gate { .. } => Some(Side::South),
        Net::Input { .. } => None,
    }
}

fn row_side(circuit: &Circuit, net: u32, col: u32) -> Option<Side>
    requires net { net < length circuit.now.nets }
    requires few { 6 * gate_count circuit.now.nets < 2 ^ 20 }
    ensures { result ≡ row_side circuit.now.nets net col }
{
    let source = source(circuit, net);
    if col < source {
        Some(Side::East)
    } else if source < col {
        Some(Side::West)
    } else {
        source_side(circuit.net(net))
    }
}

fn column_side(column: Column) -> Side
    ensures { result ≡ column_side column }
{
    match column {
        Column::Of {
            part: Part::Rise,
            ..
        } => Side::South,
        _ => Side::North,
    }
}

fn net_side(circuit: &Circuit, run: Option<u32>, column: Column, col: u32, half: u8) -> Option<Side>
    requires run { IfSome run (λ net. net < length circuit.now.nets) }
    requires few { 6 * gate_count circuit.now.nets < 2 ^ 20 }
    ensures { result ≡ net_side circuit.now.nets run column col half }
{
    match (run, half) {
        (Some(net), 0) => row_side(circuit, net, col),
        _ => Some(column_side(column)),
    }
}

fn body_side(half: u8) -> Side
    ensures { result ≡ body_side half }
{
    match half {
        0 => Side::West,
        _ => Side::East,
    }
}

fn pins_side(column: Column, half: u8) -> Side
    ensures { result ≡ pins_side column half }
{
    match column {
        Column::Of {
            part: Part::Body,
            ..
        } => body_side(half),
        _ => column_side(column),
    }
}

fn bottom_side(column: Column) -> Side
    ensures { result ≡ bottom_side column }
{
    match column {
        Column::Of {
            part: Part::Body,
            ..
        } => Side::North,
        _ => Side::West,
    }
}

/// The side of a half that a role has from which it is filled; `None` for an input cell.
pub(crate) fn side_in<P: Placement>(
    placement: &P,
    row: Row,
    column: Column,
    col: u32,
    half: u8,
) -> Option<Side>
    requires row { IsRowOf (P.placing placement.now).tracks row }
    requires col { col < col_count (P.net_list placement.now).nets }
    requires few { 6 * gate_count (P.net_list placement.now).nets < 2 ^ 20 }
    ensures { result ≡ side_in (P.placing placement.now) (P.net_list placement.now).nets row column col half }
{
    match row {
        Row::TrackRow { track } => net_side(
            placement.circuit(),
            placement.runs(track, col),
            column,
            col,
            half,
        ),
        Row::Between { .. } => Some(column_side(column)),
        Row::Pins => Some(pins_side(column, half)),
        Row::Bottom => Some(bottom_side(column)),
    }
}

/// The row and the column of the cell on a side, where there is one.
pub(crate) fn neighbour(row: u32, col: u32, side: Side) -> (u32, u32)
    requires north { side ≡ sides.North → 0 < row }
    requires west { side ≡ sides.West → 0 < col }
    requires small { (row < 2 ^ 20) × (col < 2 ^ 20) }
    ensures { spot_of result ≡ neighbour row col side }
{
    match side {
        Side::North => (row - 1, col),
        Side::East => (row, col + 1),
        Side::South => (row + 1, col),
        Side::West => (row, col - 1),
    }
}
