//! The first pass: the nets that the lines define.

ghost use Rattle.std.specs.Prelude.{◌≡◌, ◌+◌, ◌≤◌, ◌∷◌, ◌++◌, [], None, Some, Err, length, map, OnOk, IfOk, IfErr};
ghost use Rattle.std.specs.List.{flat_map};
ghost use Rattle.surf_text.specs.Lines.{lines_of};
ghost use Rattle.bench_read.specs.Lines.{operands_of, sort_of};
ghost use Rattle.bench_read.specs.Passes.{defines, gate_nets, net_count, name_fault, own_fault, first_pass};
ghost use Rattle.bench_read.specs.Readings.{Refuses};
ghost use Rattle.bench_read.specs.declared.fault.BenchFault.{BenchFault as FaultData};
ghost use Rattle.bench_read.specs.declared.fault.BenchError.TheVariants.{Fault};

use crate::fault::{BenchError, BenchFault, BenchKind};
use crate::names::NameTable;
use crate::operands::operand_count;
use crate::sort::{Sort, sort_line};
use std::alloc::Global;
use surf_text::Cursor;

const MOST_NETS: usize = 65_536;

/// Why a line was not taken.
#[derive(Clone, Copy)]
pub(crate) enum Refusal {
    Kind(BenchKind),
    Memory,
}

impl Refusal {
    ghost use Rattle.bench_read.specs.Readings.{error_at};

    /// Why a netlist was not read, of which this line was not taken.
    pub(crate) fn at(self, line: u64) -> BenchError
        ensures { result ≡ error_at line self }
    {
        match self {
            Refusal::Kind(kind) => BenchError::Fault(BenchFault { kind, line }),
            Refusal::Memory => BenchError::Memory,
        }
    }
}

/// What the lines so far define: the names of nets, and how many nets the circuit has for them.
#[derive(Drop)]
struct Definitions<'a> {
    names: NameTable<'a>,
    nets: usize,
}

/// How many nets a gate takes.
fn gate_nets(operands: &[u8]) -> usize
    ensures result { result ≡ gate_nets (length (operands_of operands.now)) }
    ensures at_least { 1 ≤ result }
    ensures at_most { result ≤ length operands.now + 1 }
{
    let count = operand_count(operands);
    if count <= 2 { 1 } else { count - 1 }
}

impl<'a> Definitions<'a> {
    /// A net with a new name, for which the circuit has so many nets.
    fn define(&mut self, name: &'a [u8], nets: usize) -> Result<(), Refusal>
        requires few { self.old.nets ≤ 65536 }
        requires named { length self.old.names ≤ self.old.nets }
        requires some { 1 ≤ nets }
        ensures ok { OnOk result (name_fault self.old.names name.now (self.old.nets + nets) ≡ None) }
        ensures names { OnOk result (self.new.names ≡ self.old.names ++ name.now ∷ []) }
        ensures nets { OnOk result (self.new.nets ≡ self.old.nets + nets) }
        ensures few { OnOk result (self.new.nets ≤ 65536) }
        ensures named { OnOk result (length self.new.names ≤ self.new.nets) }
        ensures kind { IfErr result (λ e. Refuses e (name_fault self.old.names name.now (self.old.nets + nets))) }
    {
        if self.names.has(name) {
            return Err(Refusal::Kind(BenchKind::NetTwice));
        }
        if nets > MOST_NETS - self.nets {
            return Err(Refusal::Kind(BenchKind::TooManyNets));
        }
        let Ok(()) = self.names.add(name) else {
            return Err(Refusal::Memory);
        };
        self.nets += nets;
        Ok(())
    }

    /// Takes the next line.
    fn take(&mut self, line: &'a [u8]) -> Result<(), Refusal>
        requires few { self.old.nets ≤ 65536 }
        requires named { length self.old.names ≤ self.old.nets }
        ensures ok { OnOk result (own_fault self.old.names self.old.nets (sort_of line.now) ≡ None) }
        ensures names { OnOk result (self.new.names ≡ self.old.names ++ defines (sort_of line.now)) }
        ensures nets { OnOk result (self.new.nets ≡ self.old.nets + net_count (sort_of line.now)) }
        ensures few { OnOk result (self.new.nets ≤ 65536) }
        ensures named { OnOk result (length self.new.names ≤ self.new.nets) }
        ensures kind { IfErr result (λ e. Refuses e (own_fault self.old.names self.old.nets (sort_of line.now))) }
    {
        match sort_line(line) {
            Sort::Input(name) => self.define(name, 1),
            Sort::Gate { name, operands, .. } => self.define(name, gate_nets(operands)),
            Sort::Blank | Sort::Output(_) => Ok(()),
            Sort::Flop => Err(Refusal::Kind(BenchKind::Sequential)),
            Sort::Formless => Err(Refusal::Kind(BenchKind::BadLine)),
        }
    }
}

/// The names that the lines of a text define, or the first fault of the first pass.
pub(crate) fn defined_names<'a>(alloc: Global, text: &'a [u8]) -> Result<NameTable<'a>, BenchError>
    ensures ok { OnOk result (first_pass 1 [] 0 (map sort_of (lines_of text.now)) ≡ None) }
    ensures names { IfOk result (λ names. names ≡ flat_map defines (map sort_of (lines_of text.now))) }
    ensures few { IfOk result (λ names. length names ≤ 65536) }
    ensures fault { (f : FaultData) → result ≡ Err (Fault f) → first_pass 1 [] 0 (map sort_of (lines_of text.now)) ≡ Some f }
{
    let mut definitions = Definitions {
        names: NameTable::new(alloc),
        nets: 0,
    };
    let mut cursor = Cursor::new(text);
    while let Some(line) = cursor.next_line() {
        match definitions.take(line.bytes) {
            Ok(()) => {}
            Err(refusal) => return Err(refusal.at(line.number)),
        }
    }
    Ok(definitions.names)
}
