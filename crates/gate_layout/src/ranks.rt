//! The ranks of halves.

ghost use Rattle.std.specs.Prelude.{◌≡◌, ◌<◌, ◌≤◌, ◌+◌, ◌*◌, ◌^◌, length, IfSome};
ghost use Rattle.circuit_text.specs.Values.{AreNets};
ghost use Rattle.gate_layout.specs.Nets.{gate_count};
ghost use Rattle.gate_layout.specs.Placed.{Placement as Placing, col_count, stride, rank_at, up_steps, row_steps, down_steps, down_rank, column_rank, net_rank, pins_rank, bottom_rank, rank_in};
ghost use Rattle.gate_layout.specs.Within.{IsColumnOf, IsRowOf};

use crate::feeds::source;
use crate::parts::{Column, Part, Row};
use crate::placement::Placement;
use crate::roles::{column_net, gate_net};

/// The ranks of a net are so many. No circuit has more than 65,536 nets; the count of them is asked for that alone.
#[tactic(auto, unfolding(crate::specs::Placed::stride))]
fn stride<P: Placement>(placement: &P) -> u64
    requires { 6 * gate_count (P.net_list placement.now).nets < 2 ^ 20 }
    ensures stride { result ≡ stride (P.placing placement.now) (P.net_list placement.now).nets }
    ensures small { result < 2 ^ 22 }
    ensures nets { length (P.net_list placement.now).nets ≤ 65536 }
{
    let circuit = placement.circuit();
    let _nets = circuit.net_count();
    4 * placement.tracks() as u64 + 6 * circuit.gate_count() as u64 + 20
}

/// The product of a number of nets and a stride.
fn times(net: u32, stride: u64) -> u64
    requires net { net ≤ 65536 }
    requires stride { stride < 2 ^ 22 }
    ensures product { result ≡ net * stride }
    ensures small { result < 2 ^ 40 }
{
    net as u64 * stride
}

/// The rank of a net, so many steps after its gate.
fn rank_at<P: Placement>(placement: &P, net: u32, steps: u64) -> u64
    requires net { net < length (P.net_list placement.now).nets }
    requires few { 6 * gate_count (P.net_list placement.now).nets < 2 ^ 20 }
    requires steps { steps < 2 ^ 40 }
    ensures { result ≡ rank_at (P.placing placement.now) (P.net_list placement.now).nets net steps }
{
    times(net, stride(placement)) + steps
}

fn up_steps<P: Placement>(placement: &P, row: u32) -> u64
    ensures steps { result ≡ up_steps (P.placing placement.now) row }
    ensures small { result < 2 ^ 40 }
{
    5 + (2 * placement.tracks()).saturating_sub(row) as u64
}

fn row_steps<P: Placement>(placement: &P, net: u32, col: u32) -> u64
    requires net { net < length (P.net_list placement.now).nets }
    requires few { 6 * gate_count (P.net_list placement.now).nets < 2 ^ 20 }
    ensures steps { result ≡ row_steps (P.placing placement.now) (P.net_list placement.now).nets net col }
    ensures small { result < 2 ^ 40 }
{
    2 * placement.tracks() as u64 + 8 + col.abs_diff(source(placement.circuit(), net)) as u64
}

fn down_steps<P: Placement>(placement: &P, row: u32) -> u64
    requires { 6 * gate_count (P.net_list placement.now).nets < 2 ^ 20 }
    ensures steps { result ≡ down_steps (P.placing placement.now) (P.net_list placement.now).nets row }
    ensures small { result < 2 ^ 40 }
{
    2 * placement.tracks() as u64 + 6 * placement.circuit().gate_count() as u64 + 12 + row as u64
}

fn down_rank<P: Placement>(placement: &P, net: Option<u32>, row: u32) -> u64
    requires net { IfSome net (λ net. net < length (P.net_list placement.now).nets) }
    requires few { 6 * gate_count (P.net_list placement.now).nets < 2 ^ 20 }
    ensures { result ≡ down_rank (P.placing placement.now) (P.net_list placement.now).nets net row }
{
    match net {
        Some(net) => rank_at(placement, net, down_steps(placement, row)),
        None => 0,
    }
}

fn column_rank<P: Placement>(placement: &P, column: Column, row: u32) -> u64
    requires column { IsColumnOf (P.net_list placement.now).nets column }
    requires few { 6 * gate_count (P.net_list placement.now).nets < 2 ^ 20 }
    ensures { result ≡ column_rank (P.placing placement.now) (P.net_list placement.now).nets column row }
{
    match column {
        Column::Of {
            gate,
            part: Part::Rise,
        } => rank_at(
            placement,
            gate_net(placement.circuit(), gate),
            up_steps(placement, row),
        ),
        _ => down_rank(placement, column_net(placement.circuit(), column), row),
    }
}

fn net_rank<P: Placement>(
    placement: &P,
    run: Option<u32>,
    column: Column,
    row: u32,
    col: u32,
    half: u8,
) -> u64
    requires run { IfSome run (λ net. net < length (P.net_list placement.now).nets) }
    requires column { IsColumnOf (P.net_list placement.now).nets column }
    requires few { 6 * gate_count (P.net_list placement.now).nets < 2 ^ 20 }
    ensures { result ≡ net_rank (P.placing placement.now) (P.net_list placement.now).nets run column row col half }
{
    match (run, half) {
        (Some(net), 0) => rank_at(placement, net, row_steps(placement, net, col)),
        _ => column_rank(placement, column, row),
    }
}

fn pins_rank<P: Placement>(placement: &P, column: Column, row: u32) -> u64
    requires column { IsColumnOf (P.net_list placement.now).nets column }
    requires few { 6 * gate_count (P.net_list placement.now).nets < 2 ^ 20 }
    ensures { result ≡ pins_rank (P.placing placement.now) (P.net_list placement.now).nets column row }
{
    match column {
        Column::Of {
            gate,
            part: Part::Body,
        } => rank_at(placement, gate_net(placement.circuit(), gate), 0),
        _ => column_rank(placement, column, row),
    }
}

fn bottom_rank<P: Placement>(placement: &P, column: Column) -> u64
    requires column { IsColumnOf (P.net_list placement.now).nets column }
    requires few { 6 * gate_count (P.net_list placement.now).nets < 2 ^ 20 }
    ensures { result ≡ bottom_rank (P.placing placement.now) (P.net_list placement.now).nets column }
{
    let Column::Of { gate, part } = column else {
        return 0;
    };
    let steps = match part {
        Part::Body => 1,
        Part::SecondPin => 2,
        Part::Bend => 3,
        Part::Rise => 4,
        Part::FirstPin | Part::Gap => return 0,
    };
    rank_at(placement, gate_net(placement.circuit(), gate), steps)
}

/// The rank of a half, by what its row and its column are for.
pub(crate) fn rank_in<P: Placement>(
    placement: &P,
    places: (Row, Column),
    row: u32,
    col: u32,
    half: u8,
) -> u64
    requires row { IsRowOf (P.placing placement.now).tracks places.0 }
    requires column { IsColumnOf (P.net_list placement.now).nets places.1 }
    requires col { col < col_count (P.net_list placement.now).nets }
    requires few { 6 * gate_count (P.net_list placement.now).nets < 2 ^ 20 }
    ensures { result ≡ rank_in (P.placing placement.now) (P.net_list placement.now).nets places.0 places.1 row col half }
{
    let (place, column) = places;
    match place {
        Row::TrackRow { track } => {
            let run = placement.runs(track, col);
            net_rank(placement, run, column, row, col, half)
        }
        Row::Between { .. } => column_rank(placement, column, row),
        Row::Pins => pins_rank(placement, column, row),
        Row::Bottom => bottom_rank(placement, column),
    }
}
