//! The layout of a circuit.

ghost use Rattle.std.specs.Prelude.{◌≡◌, ℕ, ◌<◌, ◌≤◌, ◌+◌, ◌*◌, ◌^◌, ◌↔◌, ◌⊎◌, length, get_or, IfOk, IfErr, IsErr, IsNone};
ghost use Rattle.std.specs.Option.{option_map};
ghost use Rattle.gate_layout.specs.Nets.{gate_count, input_net};
ghost use Rattle.gate_layout.specs.Table.{IsWellFormed, IsInput, halves, spot_of};
ghost use Rattle.gate_layout.specs.Placed.{col_count};
ghost use Rattle.gate_layout.specs.Layout.{row_count, site_count, role_of, feeder_of, rank_of, input_cell, output_cell, layout};
ghost use Rattle.circuit_text.specs.Values.{input_count};

use crate::feeds::input_net;
use crate::placed::{circuit_facts, feeder_on, rank_on, role_on};
use crate::placement::Placement;
use crate::role::Role;
use crate::table::Roles;
use circuit_text::Circuit;
use std::marker::Model;

/// The most cells of a layout.
const MOST_SITES: u64 = 1 << 20;

/// A layout has more than 2^20 cells.
#[derive(Clone, Copy, Debug, PartialEq, Eq)]
pub struct TooManySites {
    /// How many it has.
    pub sites: u64,
}

/// The layout of a circuit: a row for each net, six columns for each gate, and where they meet a crossing or a wire.
/// Cells go by row and column.
#[derive(Drop)]
pub struct Layout<'a> {
    circuit: &'a Circuit,
}

impl<'a> Model for Layout<'a> {
    ghost use Rattle.std.specs.Prelude.{◌≤◌, ◌^◌};
    ghost use Rattle.circuit_text.specs.Circuits.{NetList};
    ghost use Rattle.gate_layout.specs.Layout.{site_count};

    ghost Value = { NetList };

    ghost view = { λ l. l.circuit.now };

    ghost invariant = { λ l. site_count l.circuit.now.nets ≤ 2 ^ 20 };
}

impl<'a> Placement for Layout<'a> {
    ghost use Rattle.gate_layout.specs.Layout.{closed};

    ghost placing = { λ l. closed l.nets };

    ghost net_list = { λ l. l };

    fn circuit(&self) -> &Circuit {
        self.circuit
    }

    fn tracks(&self) -> u32 {
        let circuit = self.circuit;
        circuit.net_count()
    }

    fn track(&self, net: u32) -> u32 {
        net
    }

    fn runs(&self, track: u32, _col: u32) -> Option<u32> {
        Some(track)
    }
}

impl<'a> Layout<'a> {
    /// The layout of a circuit, where it has at most 2^20 cells. It is well-formed: the roles of neighbours agree,
    /// inputs and outputs have wires of their nets, and each half but those of input cells has a feeder of a lower
    /// rank.
    pub fn of(circuit: &'a Circuit) -> Result<Layout<'a>, TooManySites>
        ensures laid { IfOk result (λ laid. laid ≡ circuit.now) }
        ensures sites { IfErr result (λ error. error.sites ≡ site_count circuit.now.nets) }
        ensures refused { IsErr result ↔ (2 ^ 20 < site_count circuit.now.nets) }
        ensures formed { IfOk result (λ laid. IsWellFormed circuit.now (layout laid)) }
    {
        circuit_facts(circuit);
        let rows = 2 * circuit.net_count() as u64 + 2;
        let cols = 6 * circuit.gate_count() as u64 + 3;
        let sites = rows * cols;
        if sites > MOST_SITES {
            return Err(TooManySites { sites });
        }
        Ok(Layout { circuit })
    }

    /// There are few enough cells, and so few enough gates.
    fn has_room(&self)
        ensures sites { site_count self.now.nets ≤ 2 ^ 20 }
        ensures few { 6 * gate_count self.now.nets < 2 ^ 20 }
    {
        let _circuit = self.circuit;
    }

    /// Two rows for each net, and two more.
    pub fn rows(&self) -> u32
        ensures rows { result ≡ row_count self.now.nets }
        ensures sites { site_count self.now.nets ≤ 2 ^ 20 }
    {
        let circuit = self.circuit;
        2 * circuit.net_count() + 2
    }

    /// Six columns for each gate, and three more.
    pub fn cols(&self) -> u32
        ensures { result ≡ col_count self.now.nets }
    {
        let circuit = self.circuit;
        6 * circuit.gate_count() + 3
    }

    /// The role of a cell.
    pub fn role(&self, row: u32, col: u32) -> Role
        requires row { row < row_count self.now.nets }
        requires col { col < col_count self.now.nets }
        ensures { result ≡ role_of self.now.nets row col }
    {
        self.has_room();
        role_on(self, row, col)
    }

    /// The cell of an input: the first one in the row of the input's net.
    pub fn input_cell(&self, i: u32) -> (u32, u32)
        requires { i < input_count self.now.nets }
        ensures { spot_of result ≡ input_cell self.now.nets i }
    {
        let circuit = self.circuit;
        circuit_facts(circuit);
        (2 * input_net(circuit, i), 0)
    }

    /// The cell of an output: the last one in the row of the output's net.
    pub fn output_cell(&self, i: u32) -> (u32, u32)
        requires { i < length self.now.outputs }
        ensures { spot_of result ≡ output_cell self.now i }
    {
        let circuit = self.circuit;
        (2 * circuit.output(i), 6 * circuit.gate_count() + 2)
    }

    /// The neighbour from which a half is filled. Half 0 is the row half of a crossing or the first operand of a
    /// gate, half 1 the other; other roles have half 0. `None` exactly for inert cells, for input cells, and for
    /// halves that the role hasn't.
    #[tactic(auto, using(crate::proofs::Whole::closed_is))]
    pub fn feeder(&self, row: u32, col: u32, half: u8) -> Option<(u32, u32)>
        requires row { row < row_count self.now.nets }
        requires col { col < col_count self.now.nets }
        ensures feeder { option_map spot_of result ≡ feeder_of self.now.nets row col half }
        ensures none { IsNone result ↔ ((halves self.now.nets (role_of self.now.nets row col) ≤ half) ⊎ IsInput (layout self.now) (spot_of (row, col))) }
    {
        self.has_room();
        feeder_on(self, row, col, half)
    }

    /// The rank of a half. A half that has a feeder has a higher rank than the halves of the feeder that fill it.
    pub fn rank(&self, row: u32, col: u32, half: u8) -> u64
        requires row { row < row_count self.now.nets }
        requires col { col < col_count self.now.nets }
        ensures { result ≡ rank_of self.now.nets row col half }
    {
        self.has_room();
        rank_on(self, row, col, half)
    }
}

impl<'a> Roles for Layout<'a> {
    ghost use Rattle.gate_layout.specs.Layout.{layout};

    ghost table = { layout };

    ghost circuit = { λ l. l };

    fn rows(&self) -> u32 {
        self.rows()
    }

    fn cols(&self) -> u32 {
        self.cols()
    }

    fn role(&self, row: u32, col: u32) -> Role {
        self.role(row, col)
    }

    fn input_cell(&self, i: u32) -> (u32, u32) {
        self.input_cell(i)
    }

    fn output_cell(&self, i: u32) -> (u32, u32) {
        self.output_cell(i)
    }

    fn feeder(&self, row: u32, col: u32, half: u8) -> Option<(u32, u32)> {
        self.feeder(row, col, half)
    }

    fn rank(&self, row: u32, col: u32, half: u8) -> u64 {
        self.rank(row, col, half)
    }
}
