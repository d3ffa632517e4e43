//! Tables of roles.

ghost use Rattle.std.specs.Prelude.{◌≡◌, ◌<◌, ◌≤◌, ◌↔◌, ◌⊎◌, IsNone};
ghost use Rattle.std.specs.Option.{option_map};
ghost use Rattle.circuit_text.specs.Circuits.{NetList};
ghost use Rattle.gate_layout.specs.Table.{Table, IsInput, halves, spot_of};

use crate::role::Role;

/// A table of roles for a circuit. Rows and columns that a call names are below the table's counts, and inputs and
/// outputs below the circuit's. Cells go by row and column.
///
/// Half 0 is the row half of a crossing or the first operand of a gate, half 1 the other; other roles have half 0.
pub trait Roles {
    ghost table: { Self → Table };

    ghost circuit: { Self → NetList };

    fn rows(&self) -> u32
        ensures { result ≡ (table self.now).rows };

    fn cols(&self) -> u32
        ensures { result ≡ (table self.now).cols };

    /// The role of a cell.
    fn role(&self, row: u32, col: u32) -> Role
        requires row { row < (table self.now).rows }
        requires col { col < (table self.now).cols }
        ensures { result ≡ (table self.now).role row col };

    /// The cell of an input.
    fn input_cell(&self, i: u32) -> (u32, u32)
        requires { i < (table self.now).inputs }
        ensures { spot_of result ≡ (table self.now).input_cell i };

    /// The cell of an output.
    fn output_cell(&self, i: u32) -> (u32, u32)
        requires { i < (table self.now).outputs }
        ensures { spot_of result ≡ (table self.now).output_cell i };

    /// The neighbour from which a half of a cell is filled. `None` exactly for inert cells, for input cells, and for
    /// halves that the role hasn't.
    fn feeder(&self, row: u32, col: u32, half: u8) -> Option<(u32, u32)>
        requires row { row < (table self.now).rows }
        requires col { col < (table self.now).cols }
        ensures feeder { option_map spot_of result ≡ (table self.now).feeder row col half }
        ensures none { IsNone result ↔ ((halves (circuit self.now).nets ((table self.now).role row col) ≤ half) ⊎ IsInput (table self.now) (spot_of (row, col))) };

    /// The rank of a half of a cell: what fills a half has a lower one.
    fn rank(&self, row: u32, col: u32, half: u8) -> u64
        requires row { row < (table self.now).rows }
        requires col { col < (table self.now).cols }
        ensures { result ≡ (table self.now).rank row col half };
}
