//! What `check`, `print`, `gen`, `compile`, `compact` and `value` write.

ghost use Rattle.std.specs.Prelude.{◌≡◌, ◌≢◌, ◌<◌, ◌≤◌, ◌^◌, ◌++◌, ◌∷◌, [], ℕ, Err, length, IfOk, OnOk, string_bytes};
ghost use Rattle.surface_top.specs.Answer.{Text, sites_on, table_of, gen_answer, compile_answer, value_answer};
ghost use Rattle.surface_top.specs.Checks.{check_text, lattice_text, sizes_text};
ghost use Rattle.surface_top.specs.Ending.{Answered};
ghost use Rattle.circuit_text.specs.Values.{input_count};
ghost use Rattle.surface_top.specs.ValueText.{bits_of, bit_text, value_line, value_text, outputs_text};
ghost use Rattle.manifest_write.specs.Canon.{canonical_text};
ghost use Rattle.manifest_read.specs.Manifest.{IsValid};
ghost use Rattle.crn_compile.specs.Compiled.{compiled_manifest};
ghost use Rattle.crn_compile.specs.declared.compiling.CompileError.TheVariants.{WrongInputs, TooManySites as TooMany};

use crate::ending::Ending;
use circuit_text::Circuit;
use crn_compile::CompileError;
use manifest_read::{Manifest, bool_name, kind_name};
use manifest_write::write_manifest;
use run_writer::Buffer;
use std::alloc::{AllocError, Global};
use surf_kinds::NoMemory;
use surf_outside::{Failed, Sink, put_all};

/// Writes a text to its end.
pub(crate) fn put_text<O: Sink>(out: &mut O, text: &[u8]) -> Ending
    ensures { Answered (Text text.now) result (O.written out.old) (O.written out.new) (O.faults out.old) (O.faults out.new) }
{
    match put_all(out, text) {
        Ok(()) => Ending::Done,
        Err(Failed) => Ending::WriteFault,
    }
}

/// The front of what `check` says: the lattice.
fn lattice_part(
    alloc: Global,
    rows: u32,
    cols: u32,
    kind: &str,
    wrap: &str,
) -> Result<String, AllocError>
    ensures { IfOk result (λ part. string_bytes part ≡ lattice_text rows cols kind.now wrap.now) }
{
    format!(in alloc; "ok {rows} {cols} {kind} {wrap}")
}

/// The back of what `check` says: the numbers of species and rules, and the duration.
fn sizes_part(alloc: Global, species: u32, rules: usize, until: u64) -> Result<String, AllocError>
    ensures { IfOk result (λ part. string_bytes part ≡ sizes_text species rules until) }
{
    format!(in alloc; " {species} {rules} {until}\n")
}

/// What `check` says of a manifest.
fn check_line(alloc: Global, manifest: &Manifest) -> Result<String, AllocError>
    ensures { IfOk result (λ line. string_bytes line ≡ check_text manifest.now) }
{
    let lattice = manifest.lattice;
    let kind = kind_name(lattice.kind());
    let wrap = bool_name(lattice.wrap());
    let mut line = lattice_part(alloc, lattice.rows(), lattice.cols(), kind, wrap)?;
    let species = manifest.names.count();
    let rules = manifest.rules.as_slice().len();
    let sizes = sizes_part(alloc, species, rules, manifest.until)?;
    line.push_str(sizes.as_str())?;
    Ok(line)
}

/// Writes what `check` says of a manifest.
pub(crate) fn check<O: Sink>(alloc: Global, manifest: &Manifest, out: &mut O) -> Ending
    ensures { Answered (Text (check_text manifest.now)) result (O.written out.old) (O.written out.new) (O.faults out.old) (O.faults out.new) }
{
    match check_line(alloc, manifest) {
        Ok(line) => put_text(out, line.as_bytes()),
        Err(_) => Ending::Memory,
    }
}

/// Writes the canonical text of a manifest.
pub(crate) fn print<O: Sink>(alloc: Global, manifest: &Manifest, out: &mut O) -> Ending
    requires { IsValid manifest.now }
    ensures { Answered (Text (canonical_text manifest.now)) result (O.written out.old) (O.written out.new) (O.faults out.old) (O.faults out.new) }
{
    let mut text = Buffer::new(alloc);
    match write_manifest(manifest, &mut text) {
        Ok(()) => put_text(out, text.bytes()),
        Err(Failed) => Ending::Memory,
    }
}

/// Writes the canonical text of the manifest of a number.
pub(crate) fn generate<O: Sink>(alloc: Global, number: u64, out: &mut O) -> Ending
    requires { number ≤ 1000000000 }
    ensures { Answered (gen_answer number) result (O.written out.old) (O.written out.new) (O.faults out.old) (O.faults out.new) }
{
    match workload::make(alloc, number) {
        Ok(manifest) => print(alloc, &manifest, out),
        Err(NoMemory) => Ending::Memory,
    }
}

/// The bits that a word of 0 and 1 spells.
fn bits(alloc: Global, word: &[u8]) -> Result<Vec<bool>, AllocError>
    ensures { IfOk result (λ bits. bits.items ≡ bits_of word.now) }
{
    word.iter().map(|c| *c == b'1').collect(alloc)
}

/// The back of a line: the value.
fn bit_part(bit: bool) -> &'static [u8]
    ensures { result.now ≡ 32 ∷ bit_text bit ++ 10 ∷ [] }
{
    if bit { b" 1\n" } else { b" 0\n" }
}

/// Puts the name of a net and its value.
fn put_value(
    text: &mut Vec<u8>,
    circuit: &Circuit,
    values: &[bool],
    net: u32,
) -> Result<(), AllocError>
    requires net { net < length circuit.now.nets }
    requires values { length values.now ≡ length circuit.now.nets }
    ensures { OnOk result (text.new.items ≡ text.old.items ++ value_line circuit.now values.now net) }
{
    text.extend_from_slice(circuit.name(net))?;
    text.extend_from_slice(bit_part(values[net as usize]))
}

/// The lines of the outputs.
fn value_lines(alloc: Global, circuit: &Circuit, values: &[bool]) -> Result<Vec<u8>, AllocError>
    requires { length values.now ≡ length circuit.now.nets }
    ensures { IfOk result (λ text. text.items ≡ outputs_text circuit.now values.now) }
{
    let mut text = Vec::new(alloc);
    for i in 0..circuit.output_count() {
        put_value(&mut text, circuit, values, circuit.output(i))?;
    }
    Ok(text)
}

/// The text of the values of the outputs, for a bit of each input.
fn value_lines_of(alloc: Global, circuit: &Circuit, word: &[u8]) -> Result<Vec<u8>, AllocError>
    requires { length word.now ≡ input_count circuit.now.nets }
    ensures { IfOk result (λ text. text.items ≡ value_text circuit.now (bits_of word.now)) }
{
    let bits = bits(alloc, word)?;
    let Ok(values) = circuit.values(&bits) else {
        return Err(AllocError);
    };
    value_lines(alloc, circuit, &values)
}

/// Writes the values of the outputs, for a word with a bit of each input.
pub(crate) fn value<O: Sink>(alloc: Global, circuit: &Circuit, word: &str, out: &mut O) -> Ending
    ensures { Answered (value_answer word.now circuit.now) result (O.written out.old) (O.written out.new) (O.faults out.old) (O.faults out.new) }
{
    let expected = circuit.input_count();
    let given = word.len() as u64;
    if given != u64::from(expected) {
        return Ending::WrongInputs { expected, given };
    }
    match value_lines_of(alloc, circuit, word.as_bytes()) {
        Ok(text) => put_text(out, &text),
        Err(_) => Ending::Memory,
    }
}

/// How a circuit is laid out.
#[derive(Clone, Copy)]
pub(crate) enum LayoutKind {
    /// Each net has a row of its own.
    Closed,
    /// Nets share rows.
    Compact,
}

/// The manifest of a circuit on a layout, with a bit for each input.
fn manifest_on(
    alloc: Global,
    circuit: &Circuit,
    bits: &[bool],
    layout: LayoutKind,
) -> Result<Manifest, CompileError>
    requires few { length bits.now < 2 ^ 32 }
    requires count { length bits.now ≡ input_count circuit.now.nets }
    ensures wrong { (expected given : ℕ) → result ≢ Err (WrongInputs expected given) }
    ensures many { (sites : ℕ) → result ≡ Err (TooMany sites) → (sites ≡ sites_on layout circuit.now) × (2 ^ 20 < sites) }
    ensures room { IfOk result (λ m. sites_on layout circuit.now ≤ 2 ^ 20) }
    ensures exact { IfOk result (λ m. m ≡ compiled_manifest circuit.now bits.now (table_of layout circuit.now)) }
    ensures valid { IfOk result IsValid }
{
    match layout {
        LayoutKind::Closed => crn_compile::compile(alloc, circuit, bits),
        LayoutKind::Compact => track_layout::compact(alloc, circuit, bits),
    }
}

/// Writes the canonical text of the circuit's manifest on a layout, for a word with a bit of each input.
pub(crate) fn compile<O: Sink>(
    alloc: Global,
    circuit: &Circuit,
    word: &str,
    layout: LayoutKind,
    out: &mut O,
) -> Ending
    ensures { Answered (compile_answer layout word.now circuit.now) result (O.written out.old) (O.written out.new) (O.faults out.old) (O.faults out.new) }
{
    let expected = circuit.input_count();
    let given = word.len() as u64;
    if given != u64::from(expected) {
        return Ending::WrongInputs { expected, given };
    }
    let Ok(bits) = bits(alloc, word.as_bytes()) else {
        return Ending::Memory;
    };
    match manifest_on(alloc, circuit, &bits, layout) {
        Ok(manifest) => print(alloc, &manifest, out),
        Err(CompileError::WrongInputs { expected, given }) => Ending::WrongInputs {
            expected,
            given: u64::from(given),
        },
        Err(CompileError::TooManySites { sites }) => Ending::TooManySites(sites),
        Err(CompileError::Memory) => Ending::Memory,
    }
}
