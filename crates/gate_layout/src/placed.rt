//! Roles, feeders and ranks, wherever the nets run.

ghost use Rattle.std.specs.Prelude.{◌≡◌, ℕ, ◌<◌, ◌≤◌, ◌+◌, ◌*◌, ◌^◌, ◌↔◌, ◌⊎◌, length, get_or, IfSome, IsNone};
ghost use Rattle.std.specs.Option.{option_map};
ghost use Rattle.circuit_text.specs.Values.{AreNets, input_count};
ghost use Rattle.gate_layout.specs.Nets.{gate_count, input_net as input_net_of, AreNumbered};
ghost use Rattle.gate_layout.specs.Table.{IsInput, IsNamed, halves, spot_of};
ghost use Rattle.gate_layout.specs.Placed.{Placement as Placing, IsPlaced, rows_on, col_count, column_net, role_on, side_on, feeder_on, rank_on, table_on};
ghost use Rattle.gate_layout.specs.Placed.{row_of as row_at, column_of as column_at};
ghost use Rattle.gate_layout.specs.Within.{IsRowOf, IsColumnOf};

use crate::feeds::{halves, input_net, neighbour, side_in};
use crate::parts::{Column, Row, Side, column_of, row_of};
use crate::placement::Placement;
use crate::ranks::rank_in;
use crate::role::Role;
use crate::roles::{column_net, role_in};
use circuit_text::Circuit;
use circuit_text::laws::nets_are_ordered;

/// What holds of each circuit: it has at most 65,536 nets, its inputs are numbered in the order of the nets, and its
/// outputs are nets. The calls say so, and their answers are not needed.
pub(crate) fn circuit_facts(circuit: &Circuit)
    ensures few { length circuit.now.nets ≤ 65536 }
    ensures nets { AreNets circuit.now.nets }
    ensures inputs { AreNumbered circuit.now.nets }
    ensures outputs { (i : ℕ) → i < length circuit.now.outputs → get_or circuit.now.outputs i 0 < length circuit.now.nets }
{
    nets_are_ordered(circuit);
    let _nets = circuit.net_count();
    let _inputs = circuit.input_count();
    let _outputs = circuit.output_count();
}

/// Six columns for each gate, and three more.
#[tactic(auto, using(crate::proofs::Gates::few_gates))]
pub fn column_count(circuit: &Circuit) -> u32
    ensures count { result ≡ col_count circuit.now.nets }
    ensures few { 6 * gate_count circuit.now.nets < 2 ^ 20 }
{
    let _nets = circuit.net_count();
    6 * circuit.gate_count() + 3
}

/// The net of a column, which runs in it.
#[tactic(auto, using(crate::proofs::Places::column_is))]
pub fn net_of_column(circuit: &Circuit, col: u32) -> Option<u32>
    requires { 6 * gate_count circuit.now.nets < 2 ^ 20 }
    ensures net { result ≡ column_net circuit.now.nets (column_at (gate_count circuit.now.nets) col) }
    ensures within { IfSome result (λ net. net < length circuit.now.nets) }
{
    column_net(circuit, column_of(circuit.gate_count(), col))
}

/// The net of an input.
pub fn net_of_input(circuit: &Circuit, i: u32) -> u32
    requires { i < input_count circuit.now.nets }
    ensures net { result ≡ input_net_of circuit.now.nets i }
    ensures within { result < length circuit.now.nets }
{
    circuit_facts(circuit);
    input_net(circuit, i)
}

/// What a row and a column are for.
#[tactic(auto, using(crate::proofs::Places::column_is, crate::proofs::Places::row_inside))]
fn places<P: Placement>(placement: &P, row: u32, col: u32) -> (Row, Column)
    requires row { row < rows_on (P.placing placement.now) }
    requires few { 6 * gate_count (P.net_list placement.now).nets < 2 ^ 20 }
    ensures row { result.0 ≡ row_at (P.placing placement.now).tracks row }
    ensures column { result.1 ≡ column_at (gate_count (P.net_list placement.now).nets) col }
    ensures row_within { IsRowOf (P.placing placement.now).tracks result.0 }
    ensures column_within { IsColumnOf (P.net_list placement.now).nets result.1 }
{
    let gates = placement.circuit().gate_count();
    (row_of(placement.tracks(), row), column_of(gates, col))
}

/// The role of a cell.
#[tactic(auto, unfolding(crate::specs::Placed::role_on))]
pub fn role_on<P: Placement>(placement: &P, row: u32, col: u32) -> Role
    requires row { row < rows_on (P.placing placement.now) }
    requires col { col < col_count (P.net_list placement.now).nets }
    requires few { 6 * gate_count (P.net_list placement.now).nets < 2 ^ 20 }
    ensures role { result ≡ role_on (P.placing placement.now) (P.net_list placement.now).nets row col }
    ensures named { IsNamed (P.net_list placement.now).nets result }
{
    let (place, column) = places(placement, row, col);
    role_in(placement, place, column, col)
}

/// The side of a half from which it is filled; `None` for an input cell and for a half that the role hasn't.
fn side<P: Placement>(placement: &P, row: u32, col: u32, half: u8) -> Option<Side>
    requires row { row < rows_on (P.placing placement.now) }
    requires col { col < col_count (P.net_list placement.now).nets }
    requires few { 6 * gate_count (P.net_list placement.now).nets < 2 ^ 20 }
    ensures { result ≡ side_on (P.placing placement.now) (P.net_list placement.now).nets row col half }
{
    let role = role_on(placement, row, col);
    if half >= halves(placement.circuit(), role) {
        return None;
    }
    let (place, column) = places(placement, row, col);
    side_in(placement, place, column, col, half)
}

/// Where there are nets there are tracks.
fn some_tracks<P: Placement>(placement: &P)
    ensures { 0 < length (P.net_list placement.now).nets → 0 < (P.placing placement.now).tracks }
{
    let _tracks = placement.tracks();
}

/// The cell from which a half is filled.
#[tactic(auto, using(crate::proofs::Edges::north_inside, crate::proofs::Edges::west_inside), unfolding(crate::specs::Placed::feeder_on))]
fn feeder<P: Placement>(placement: &P, row: u32, col: u32, half: u8) -> Option<(u32, u32)>
    requires row { row < rows_on (P.placing placement.now) }
    requires col { col < col_count (P.net_list placement.now).nets }
    requires sites { rows_on (P.placing placement.now) * col_count (P.net_list placement.now).nets ≤ 2 ^ 20 }
    ensures { option_map spot_of result ≡ feeder_on (P.placing placement.now) (P.net_list placement.now).nets row col half }
{
    some_tracks(placement);
    match side(placement, row, col, half) {
        Some(side) => Some(neighbour(row, col, side)),
        None => None,
    }
}

/// The neighbour from which a half is filled. Half 0 is the row half of a crossing or the first operand of a gate, half
/// 1 the other; other roles have half 0. `None` exactly for inert cells, for input cells, and for halves that the role
/// hasn't.
pub fn feeder_on<P: Placement>(placement: &P, row: u32, col: u32, half: u8) -> Option<(u32, u32)>
    requires row { row < rows_on (P.placing placement.now) }
    requires col { col < col_count (P.net_list placement.now).nets }
    requires sites { rows_on (P.placing placement.now) * col_count (P.net_list placement.now).nets ≤ 2 ^ 20 }
    requires placed { IsPlaced (P.net_list placement.now) (P.placing placement.now) }
    ensures feeder { option_map spot_of result ≡ feeder_on (P.placing placement.now) (P.net_list placement.now).nets row col half }
    ensures none { IsNone result ↔ ((halves (P.net_list placement.now).nets (role_on (P.placing placement.now) (P.net_list placement.now).nets row col) ≤ half) ⊎ IsInput (table_on (P.placing placement.now) (P.net_list placement.now)) (spot_of (row, col))) }
{
    circuit_facts(placement.circuit());
    feeder(placement, row, col, half)
}

/// The rank of a half. A half that has a feeder has a higher rank than the halves of the feeder that fill it.
#[tactic(auto, unfolding(crate::specs::Placed::rank_on))]
pub fn rank_on<P: Placement>(placement: &P, row: u32, col: u32, half: u8) -> u64
    requires row { row < rows_on (P.placing placement.now) }
    requires col { col < col_count (P.net_list placement.now).nets }
    requires few { 6 * gate_count (P.net_list placement.now).nets < 2 ^ 20 }
    ensures { result ≡ rank_on (P.placing placement.now) (P.net_list placement.now).nets row col half }
{
    rank_in(placement, places(placement, row, col), row, col, half)
}
