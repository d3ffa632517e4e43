//! Reading a circuit.

ghost use Rattle.std.specs.Prelude.{◌≡◌, ◌≤◌, ◌<◌, ◌^◌, length, map, Ok, Err, IfOk, true};
ghost use Rattle.surf_text.specs.Lines.{lines_of};
ghost use Rattle.std.specs.List.{flat_map, list_all};
ghost use Rattle.species.specs.Texts.{is_in};
ghost use Rattle.circuit_text.specs.Circuits.{defines, circuit_in};
ghost use Rattle.circuit_text.specs.Lines.{sort_of};
ghost use Rattle.circuit_text.specs.Steps.{state_of, run, start, error_at, Reads, circuit_by};
ghost use Rattle.circuit_text.specs.declared.fault.CircuitFault.{CircuitFault as FaultData};
ghost use Rattle.circuit_text.specs.declared.fault.CircuitError.TheVariants.{Fault};

use crate::circuit::Circuit;
use crate::defined::defined_names;
use crate::fault::{CircuitError, CircuitFault, CircuitKind};
use crate::gates::gates_of;
use crate::outputs::numbers_of;
use crate::reader::{Reader, Refusal};
use species::Texts;
use std::alloc::Global;
use surf_kinds::NoMemory;
use surf_text::Cursor;

/// Why a text was not read, of which this line was not taken.
fn error_at(line: u64, refusal: Refusal) -> CircuitError
    ensures { result ≡ error_at line refusal }
{
    match refusal {
        Refusal::Kind(kind) => CircuitError::Fault(CircuitFault { kind, line }),
        Refusal::Memory => CircuitError::Memory,
    }
}

/// Takes the lines of a text; `all` are the names that its well-formed lines define.
fn read_lines<'a>(alloc: Global, all: &Texts, text: &'a [u8]) -> Result<Reader<'a>, CircuitError>
    requires size { length text.now ≤ 67108864 }
    ensures outcome { Reads result (run (is_in all.now) (map sort_of (lines_of text.now)) 1 start) }
    ensures names { IfOk result (λ s. s.names ≡ flat_map defines (map sort_of (lines_of text.now))) }
    ensures known { IfOk result (λ s. list_all (is_in all.now) (state_of s).output_names ≡ true) }
    ensures same { IfOk result (λ s. length s.names ≡ length s.nets) }
    ensures some { IfOk result (λ s. 1 ≤ length s.outputs.items) }
    ensures few { IfOk result (λ s. length s.outputs.items ≤ length text.now) }
{
    let mut state = Reader::new(alloc);
    let mut cursor = Cursor::new(text);
    let mut count = 0;
    while let Some(line) = cursor.next_line() {
        match state.take(all, line.bytes) {
            Ok(()) => {}
            Err(refusal) => return Err(error_at(line.number, refusal)),
        }
        count = line.number;
    }
    if state.outputs.as_slice().is_empty() {
        return Err(CircuitError::Fault(CircuitFault {
            kind: CircuitKind::NoOutput,
            line: count + 1,
        }));
    }
    Ok(state)
}

/// The circuit of a reader that took all the lines.
fn circuit_of(alloc: Global, state: Reader<'_>) -> Result<Circuit, NoMemory>
    requires same { length state.names ≡ length state.nets }
    requires known { list_all (is_in state.names) (state_of state).output_names ≡ true }
    requires some { 1 ≤ length state.outputs.items }
    requires few { length state.outputs.items < 2 ^ 32 }
    ensures { IfOk result (λ c. c ≡ circuit_by (state_of state.entry)) }
{
    let Reader {
        names,
        nets,
        outputs,
    } = state;
    let outputs = numbers_of(alloc, &names, &outputs)?;
    let gates = gates_of(alloc, nets.as_slice())?;
    Ok(Circuit::of(names, nets, gates, outputs))
}

/// The circuit of a text of at most 64 MiB.
///
/// A comment begins with `#`. A line `input a b` defines inputs, a line `s = XOR a b` or `n = NOT a` defines a gate,
/// and a line `output s n` names outputs. A name has ASCII letters, digits and `_`. The operands of a gate are
/// defined on lines above, an output anywhere.
///
/// The error `Fault` comes exactly where the text has a faulty line or no output. It is the first one. The only
/// other error is want of memory.
pub fn read_circuit(alloc: Global, text: &[u8]) -> Result<Circuit, CircuitError>
    requires size { length text.now ≤ 67108864 }
    ensures ok { IfOk result (λ c. circuit_in text.now ≡ Ok c) }
    ensures fault { (f : FaultData) → result ≡ Err (Fault f) → circuit_in text.now ≡ Err f }
{
    let Ok(all) = defined_names(alloc, text) else {
        return Err(CircuitError::Memory);
    };
    let state = match read_lines(alloc, &all, text) {
        Ok(state) => state,
        Err(error) => return Err(error),
    };
    match circuit_of(alloc, state) {
        Ok(circuit) => Ok(circuit),
        Err(NoMemory) => Err(CircuitError::Memory),
    }
}
