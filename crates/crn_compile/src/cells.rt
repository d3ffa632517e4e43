//! The first species of a compiled circuit.

ghost use Rattle.std.specs.Prelude.{◌≡◌, ◌<◌, ◌≤◌, ◌*◌, ◌+◌, ◌^◌, length, IfOk, Some, slice_set};
ghost use Rattle.circuit_text.specs.Values.{input_count};
ghost use Rattle.gate_layout.specs.Table.{Table, IsNamed, IsSpot, IsWellFormed};
ghost use Rattle.crn_compile.specs.Cells.{Wire as wire_cell};
ghost use Rattle.crn_compile.specs.Species.{gate_number as gate_number_of, id_of};
ghost use Rattle.crn_compile.specs.Start.{site as site_at, blank_cell, AreOfTable, IsStart};

use circuit_text::{Circuit, GateOp, Net};
use gate_layout::{Role, Roles};
use std::alloc::Global;
use surf_kinds::{NoMemory, SpeciesId};

// The numbers of the species that stand in a first surface. The number of a species is the place of its name in
// `name_list`, and the rules in `rule_list` go by it.
const WIRE_WITH_0: u16 = 0;

const WIRE: u16 = 1;

const WIRE_WITH_1: u16 = 2;

const VERT: u16 = 3;

const PIN_A: u16 = 6;

const PIN_B: u16 = 9;

const CROSS: u16 = 12;
/// The last number. The species before it are those of the rules.
pub(crate) const INERT: u16 = 55;

/// The species of a gate with no operand known.
fn gate_number(op: GateOp) -> u16
    ensures { result ≡ gate_number_of op }
{
    match op {
        GateOp::And => 21,
        GateOp::Or => 28,
        GateOp::Xor => 33,
        GateOp::Nand => 38,
        GateOp::Nor => 43,
        GateOp::Xnor => 48,
        GateOp::Not => 53,
        GateOp::Buf => 54,
    }
}

/// The species of a blank cell with this role.
fn blank_species(circuit: &Circuit, role: Role) -> SpeciesId
    requires named { IsNamed circuit.now.nets role }
    ensures { result ≡ id_of (blank_cell circuit.now.nets role) }
{
    match role {
        Role::Inert => SpeciesId(INERT),
        Role::Wire { .. } => SpeciesId(WIRE),
        Role::Vert { .. } => SpeciesId(VERT),
        Role::PinA { .. } => SpeciesId(PIN_A),
        Role::PinB { .. } => SpeciesId(PIN_B),
        Role::Cross { .. } => SpeciesId(CROSS),
        Role::Gate { gate } => match circuit.net(circuit.gate_net(gate)) {
            Net::Gate { op, .. } => SpeciesId(gate_number(op)),
            Net::Input { .. } => SpeciesId(INERT),
        },
    }
}

/// The cells of a table, all blank, row by row.
fn blank_cells<L: Roles>(
    alloc: Global,
    circuit: &Circuit,
    table: &L,
) -> Result<Vec<SpeciesId>, NoMemory>
    requires formed { IsWellFormed circuit.now (L.table table.now) }
    requires size { (L.table table.now).rows * (L.table table.now).cols ≤ 2 ^ 20 }
    ensures size { IfOk result (λ v. length v.items ≡ (L.table table.now).rows * (L.table table.now).cols) }
    ensures cells { IfOk result (λ v. AreOfTable circuit.now.nets (L.table table.now) v.items (length v.items)) }
{
    let rows = table.rows();
    let cols = table.cols();
    let mut cells = Vec::new(alloc);
    for site in 0..rows * cols {
        cells.push(blank_species(circuit, table.role(site / cols, site % cols)))?;
    }
    Ok(cells)
}

/// The site of a cell.
fn site_of(row: u32, col: u32, rows: u32, cols: u32) -> usize
    requires row { row < rows }
    requires col { col < cols }
    requires small { rows * cols ≤ 2 ^ 20 }
    ensures value { result ≡ row * cols + col }
    ensures below { result < rows * cols }
{
    row as usize * cols as usize + col as usize
}

/// Writes the bit of an input into its cell.
fn mark<L: Roles>(table: &L, cells: &mut Vec<SpeciesId>, number: u32, bit: bool)
    requires number { number < (L.table table.now).inputs }
    requires within { IsSpot (L.table table.now) ((L.table table.now).input_cell number) }
    requires size { length cells.old.items ≡ (L.table table.now).rows * (L.table table.now).cols }
    requires small { (L.table table.now).rows * (L.table table.now).cols ≤ 2 ^ 20 }
    ensures { cells.new.items ≡ slice_set cells.old.items (site_at (L.table table.now) ((L.table table.now).input_cell number)) (id_of (wire_cell (Some bit))) }
{
    let (row, col) = table.input_cell(number);
    let site = site_of(row, col, table.rows(), table.cols());
    cells[site] = SpeciesId(if bit { WIRE_WITH_1 } else { WIRE_WITH_0 });
}

/// The first species: input cells with their bits, and all else blank.
pub(crate) fn start_on<L: Roles>(
    alloc: Global,
    circuit: &Circuit,
    table: &L,
    inputs: &[bool],
) -> Result<Vec<SpeciesId>, NoMemory>
    requires count { length inputs.now ≡ input_count circuit.now.nets }
    requires formed { IsWellFormed circuit.now (L.table table.now) }
    requires size { (L.table table.now).rows * (L.table table.now).cols ≤ 2 ^ 20 }
    ensures start { IfOk result (λ v. IsStart circuit.now.nets inputs.now (L.table table.now) v.items) }
{
    let mut cells = blank_cells(alloc, circuit, table)?;
    let count = circuit.input_count();
    for i in 0..count {
        mark(table, &mut cells, i, inputs[i as usize]);
    }
    Ok(cells)
}
