//! Circuits to manifests.

ghost use Rattle.std.specs.Prelude.{◌≡◌, ◌≢◌, ◌<◌, ◌≤◌, ◌*◌, ◌↔◌, ◌^◌, ℕ, length, IfOk, Err};
ghost use Rattle.std.specs.List.{list_any};
ghost use Rattle.circuit_text.specs.Values.{AreNets, input_count, values_of};
ghost use Rattle.gate_layout.specs.Table.{Table, IsWellFormed};
ghost use Rattle.gate_layout.specs.Nets.{AreNumbered};
ghost use Rattle.gate_layout.specs.Layout.{site_count, layout};
ghost use Rattle.manifest_read.specs.Manifest.{IsValid};
ghost use Rattle.manifest_write.specs.Canon.{canonical_text};
ghost use Rattle.crn_compile.specs.Start.{flat, shape_of, IsStart};
ghost use Rattle.crn_compile.specs.Names.{is_inert, names_for};
ghost use Rattle.crn_compile.specs.Compiled.{IsCompiled, manifest_on, compiled_manifest};
ghost use Rattle.crn_compile.specs.Settled.{Settles, RunsOut};
ghost use Rattle.crn_compile.specs.declared.compiling.CompileError.TheVariants.{WrongInputs, TooManySites as TooMany};

use crate::cells::{INERT, start_on};
use crate::name_list::names_of;
use crate::rule_list::rules;
use circuit_text::Circuit;
use circuit_text::laws::nets_are_ordered;
use gate_layout::{Layout, Roles, TooManySites};
use lattice::{Kind, Lattice};
use manifest_read::{CellList, Manifest, Settings};
use std::alloc::Global;
use surf_kinds::{NoMemory, SpeciesId};

/// Why a circuit was not compiled.
#[derive(Clone, Copy, Debug, PartialEq, Eq)]
pub enum CompileError {
    /// The circuit has another number of inputs.
    WrongInputs { expected: u32, given: u32 },
    /// The layout has more than 2^20 cells.
    TooManySites { sites: u64 },
    /// Memory ran out.
    Memory,
}

/// 10^9 units of a million ticks.
const DURATION: u64 = 1_000_000_000_000_000;

/// Whether one of these cells is inert.
fn has_inert(cells: &[SpeciesId]) -> bool
    ensures { result ≡ list_any is_inert cells.now }
{
    cells.iter().any(|cell| cell.0 >= INERT)
}

/// The lattice of a table.
fn lattice_of(rows: u32, cols: u32) -> Lattice
    requires rows { 1 ≤ rows }
    requires cols { 1 ≤ cols }
    requires size { rows * cols ≤ 2 ^ 20 }
    ensures { result ≡ flat rows cols }
{
    match Lattice::new(Kind::Square, rows, cols, false) {
        Ok(lattice) => lattice,
        Err(_) => unreachable!(),
    }
}

/// What holds of each circuit. The calls say so, and their answers are not needed.
fn circuit_facts(circuit: &Circuit)
    ensures nets { AreNets circuit.now.nets }
    ensures inputs { AreNumbered circuit.now.nets }
    ensures outputs { 1 ≤ length circuit.now.outputs }
{
    nets_are_ordered(circuit);
    let _inputs = circuit.input_count();
    let _outputs = circuit.output_count();
}

/// The manifest of these species on a table.
fn manifest_of(
    alloc: Global,
    rows: u32,
    cols: u32,
    species: Vec<SpeciesId>,
) -> Result<Manifest, NoMemory>
    requires rows { 1 ≤ rows }
    requires cols { 1 ≤ cols }
    requires size { rows * cols ≤ 2 ^ 20 }
    ensures { IfOk result (λ m. m ≡ manifest_on rows cols species.items) }
{
    let names = names_of(alloc, has_inert(&species))?;
    let rules = rules(alloc)?;
    Ok(Manifest {
        seed: 0,
        until: DURATION,
        lattice: lattice_of(rows, cols),
        others: Settings::new(alloc),
        names,
        rules,
        cells: CellList::of(species),
        colours: None,
    })
}

/// The manifest of a circuit on a table, with these bits as inputs. Whatever order its rules fire in, each cell is
/// right throughout, each firing fills one half, and when no rule can fire each output cell has its net's value.
pub fn compile_on<L: Roles>(
    alloc: Global,
    circuit: &Circuit,
    table: &L,
    inputs: &[bool],
) -> Result<Manifest, NoMemory>
    requires count { length inputs.now ≡ input_count circuit.now.nets }
    requires size { (L.table table.now).rows * (L.table table.now).cols ≤ 2 ^ 20 }
    requires formed { IsWellFormed circuit.now (L.table table.now) }
    ensures exact { IfOk result (λ m. m ≡ compiled_manifest circuit.now inputs.now (L.table table.now)) }
    ensures compiled { IfOk result (λ m. IsCompiled circuit.now inputs.now (L.table table.now) m) }
    ensures valid { IfOk result (λ m. IsValid m) }
    ensures short { IfOk result (λ m. length (canonical_text m) ≤ 67108864) }
    ensures settles { IfOk result (λ m. Settles circuit.now (values_of circuit.now.nets inputs.now) (L.table table.now) m.cells) }
    ensures runs { IfOk result (λ m. (seed : ℕ) → RunsOut circuit.now (values_of circuit.now.nets inputs.now) (L.table table.now) m.cells seed (10 ^ 15)) }
{
    circuit_facts(circuit);
    let cells = start_on(alloc, circuit, table, inputs)?;
    manifest_of(alloc, table.rows(), table.cols(), cells)
}

/// The manifest of a circuit on its layout, with these bits as inputs.
pub fn compile(alloc: Global, circuit: &Circuit, inputs: &[bool]) -> Result<Manifest, CompileError>
    requires few { length inputs.now < 2 ^ 32 }
    ensures wrong { (expected given : ℕ) → (result ≡ Err (WrongInputs expected given)) ↔ ((expected ≡ input_count circuit.now.nets) × (given ≡ length inputs.now) × (length inputs.now ≢ input_count circuit.now.nets)) }
    ensures many { (sites : ℕ) → (result ≡ Err (TooMany sites)) ↔ ((length inputs.now ≡ input_count circuit.now.nets) × (sites ≡ site_count circuit.now.nets) × (2 ^ 20 < sites)) }
    ensures exact { IfOk result (λ m. m ≡ compiled_manifest circuit.now inputs.now (layout circuit.now)) }
    ensures compiled { IfOk result (λ m. IsCompiled circuit.now inputs.now (layout circuit.now) m) }
    ensures valid { IfOk result (λ m. IsValid m) }
    ensures short { IfOk result (λ m. length (canonical_text m) ≤ 67108864) }
    ensures settles { IfOk result (λ m. Settles circuit.now (values_of circuit.now.nets inputs.now) (layout circuit.now) m.cells) }
    ensures runs { IfOk result (λ m. (seed : ℕ) → RunsOut circuit.now (values_of circuit.now.nets inputs.now) (layout circuit.now) m.cells seed (10 ^ 15)) }
{
    let expected = circuit.input_count();
    let given = inputs.len() as u32;
    if given != expected {
        return Err(CompileError::WrongInputs { expected, given });
    }
    let table = match Layout::of(circuit) {
        Ok(table) => table,
        Err(TooManySites { sites }) => return Err(CompileError::TooManySites { sites }),
    };
    match compile_on(alloc, circuit, &table, inputs) {
        Ok(manifest) => Ok(manifest),
        Err(_) => Err(CompileError::Memory),
    }
}
