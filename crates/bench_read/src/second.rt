//! The second pass: the operands of the gates, and the outputs.

ghost use Rattle.std.specs.Prelude.{◌≡◌, ◌+◌, ◌≤◌, ◌<◌, ◌∷◌, ◌++◌, [], None, Some, Err, length, map, OnOk, IfOk, IfErr, true, false, if◌then◌else◌};
ghost use Rattle.std.specs.List.{flat_map, list_all};
ghost use Rattle.surf_text.specs.Lines.{lines_of};
ghost use Rattle.species.specs.Texts.{is_in, index_of};
ghost use Rattle.bench_read.specs.Lines.{operands_of, sort_of};
ghost use Rattle.bench_read.specs.Passes.{defines, puts_out, uses, second_pass};
ghost use Rattle.bench_read.specs.Order.{items_in, lines_from, GateNet as gate_item};
ghost use Rattle.bench_read.specs.Readings.{item_of, Refuses};
ghost use Rattle.bench_read.specs.declared.fault.BenchKind.TheVariants.{UnknownNet};
ghost use Rattle.bench_read.specs.declared.fault.BenchFault.{BenchFault as FaultData};
ghost use Rattle.bench_read.specs.declared.fault.BenchError.TheVariants.{Fault};

use crate::fault::{BenchError, BenchKind};
use crate::first::Refusal;
use crate::names::NameTable;
use crate::operands::{are_known, operand_numbers};
use crate::sort::{Sort, sort_line};
use circuit_text::GateOp;
use std::alloc::Global;
use surf_text::Cursor;

/// What a line defines: an input, or a gate with the numbers of its operands. Nets are numbered as their lines define
/// them.
#[derive(Drop)]
pub(crate) enum Item {
    Input,
    Gate { op: GateOp, operands: Vec<u32> },
}

/// What the lines so far define.
#[derive(Drop)]
pub(crate) struct Resolved {
    pub(crate) items: Vec<Item>,
    /// The line of each item.
    pub(crate) lines: Vec<u64>,
    /// The numbers of the outputs.
    pub(crate) outputs: Vec<u32>,
    /// How many lines there are.
    pub(crate) count: u64,
}

impl Resolved {
    /// Takes what a line defines, if it defines a net.
    fn push(&mut self, item: Item, line: u64) -> Result<(), Refusal>
        ensures items { OnOk result (map item_of self.new.items.items ≡ map item_of self.old.items.items ++ item_of item ∷ []) }
        ensures lines { OnOk result (self.new.lines.items ≡ self.old.lines.items ++ line ∷ []) }
        ensures outputs { OnOk result (self.new.outputs.items ≡ self.old.outputs.items) }
        ensures kind { IfErr result (λ e. Refuses e None) }
    {
        let Ok(()) = self.items.push(item) else {
            return Err(Refusal::Memory);
        };
        let Ok(()) = self.lines.push(line) else {
            return Err(Refusal::Memory);
        };
        Ok(())
    }

    /// Takes an output.
    fn output(&mut self, names: &NameTable<'_>, name: &[u8]) -> Result<(), Refusal>
        requires few { length names.now ≤ 65536 }
        ensures known { OnOk result (is_in names.now name.now ≡ true) }
        ensures items { OnOk result (map item_of self.new.items.items ≡ map item_of self.old.items.items) }
        ensures lines { OnOk result (self.new.lines.items ≡ self.old.lines.items) }
        ensures outputs { OnOk result (self.new.outputs.items ≡ self.old.outputs.items ++ index_of names.now name.now ∷ []) }
        ensures kind { IfErr result (λ e. Refuses e (if is_in names.now name.now then None else Some UnknownNet)) }
    {
        if !names.has(name) {
            return Err(Refusal::Kind(BenchKind::UnknownNet));
        }
        let Ok(()) = self.outputs.push(names.number(name)) else {
            return Err(Refusal::Memory);
        };
        Ok(())
    }

    /// Takes a gate.
    fn gate(
        &mut self,
        alloc: Global,
        names: &NameTable<'_>,
        op: GateOp,
        operands: &[u8],
        line: u64,
    ) -> Result<(), Refusal>
        requires few { length names.now ≤ 65536 }
        ensures known { OnOk result (list_all (is_in names.now) (operands_of operands.now) ≡ true) }
        ensures items { OnOk result (map item_of self.new.items.items ≡ map item_of self.old.items.items ++ gate_item op (map (index_of names.now) (operands_of operands.now)) ∷ []) }
        ensures lines { OnOk result (self.new.lines.items ≡ self.old.lines.items ++ line ∷ []) }
        ensures outputs { OnOk result (self.new.outputs.items ≡ self.old.outputs.items) }
        ensures kind { IfErr result (λ e. Refuses e (if list_all (is_in names.now) (operands_of operands.now) then None else Some UnknownNet)) }
    {
        if !are_known(names, operands) {
            return Err(Refusal::Kind(BenchKind::UnknownNet));
        }
        let Ok(operands) = operand_numbers(alloc, names, operands) else {
            return Err(Refusal::Memory);
        };
        match self.push(Item::Gate { op, operands }, line) {
            Ok(()) => Ok(()),
            Err(_) => Err(Refusal::Memory),
        }
    }

    /// Takes the next line.
    fn take(
        &mut self,
        alloc: Global,
        names: &NameTable<'_>,
        line: &[u8],
        number: u64,
    ) -> Result<(), Refusal>
        requires few { length names.now ≤ 65536 }
        ensures known { OnOk result (list_all (is_in names.now) (uses (sort_of line.now)) ≡ true) }
        ensures items { OnOk result (map item_of self.new.items.items ≡ map item_of self.old.items.items ++ items_in names.now (sort_of line.now)) }
        ensures lines { OnOk result (self.new.lines.items ≡ self.old.lines.items ++ map (λ name. number) (defines (sort_of line.now))) }
        ensures outputs { OnOk result (self.new.outputs.items ≡ self.old.outputs.items ++ map (index_of names.now) (puts_out (sort_of line.now))) }
        ensures kind { IfErr result (λ e. Refuses e (if list_all (is_in names.now) (uses (sort_of line.now)) then None else Some UnknownNet)) }
    {
        match sort_line(line) {
            Sort::Input(_) => self.push(Item::Input, number),
            Sort::Output(name) => self.output(names, name),
            Sort::Gate { op, operands, .. } => self.gate(alloc, names, op, operands, number),
            Sort::Blank | Sort::Flop | Sort::Formless => Ok(()),
        }
    }
}

/// What the lines of a text define, where these are the names that they define; or the first fault of the second pass.
pub(crate) fn resolve(
    alloc: Global,
    names: &NameTable<'_>,
    text: &[u8],
) -> Result<Resolved, BenchError>
    requires few { length names.now ≤ 65536 }
    ensures ok { OnOk result (second_pass (is_in names.now) 1 (map sort_of (lines_of text.now)) ≡ None) }
    ensures items { IfOk result (λ r. map item_of r.items.items ≡ flat_map (items_in names.now) (map sort_of (lines_of text.now))) }
    ensures lines { IfOk result (λ r. r.lines.items ≡ lines_from 1 (map sort_of (lines_of text.now))) }
    ensures outputs { IfOk result (λ r. r.outputs.items ≡ map (index_of names.now) (flat_map puts_out (map sort_of (lines_of text.now)))) }
    ensures count { IfOk result (λ r. r.count ≡ length (lines_of text.now)) }
    ensures fault { (f : FaultData) → result ≡ Err (Fault f) → second_pass (is_in names.now) 1 (map sort_of (lines_of text.now)) ≡ Some f }
{
    let mut resolved = Resolved {
        items: Vec::new(alloc),
        lines: Vec::new(alloc),
        outputs: Vec::new(alloc),
        count: 0,
    };
    let mut cursor = Cursor::new(text);
    while let Some(line) = cursor.next_line() {
        match resolved.take(alloc, names, line.bytes, line.number) {
            Ok(()) => {}
            Err(refusal) => return Err(refusal.at(line.number)),
        }
        resolved.count = line.number;
    }
    Ok(resolved)
}
