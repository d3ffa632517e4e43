//! Laws of the runs of compiled circuits, and of the circuit texts of netlists.

ghost use Rattle.std.specs.Prelude.{◌≡◌, ◌<◌, ◌^◌, ℕ, List, IfOk, length, ◌∷◌, [], codes};
ghost use Rattle.circuit_text.specs.Values.{values_of};
ghost use Rattle.gate_layout.specs.Layout.{layout};
ghost use Rattle.track_layout.specs.Tracks.{compact_table};
ghost use Rattle.track_layout.specs.Turns.{tracks_of};
ghost use Rattle.surface_words.specs.declared.commands.Program.TheVariants.{Surface};
ghost use Rattle.surface_top.specs.Answer.{Text, specified_answer};
ghost use Rattle.surface_top.specs.CircuitRuns.{IsLongRun, RunsToItsValues};
ghost use Rattle.surface_top.specs.NetlistTexts.{KeepsValues};

use bench_read::laws::netlists_keep_their_values;
use circuit_text::Circuit;
use crn_compile::{CompileError, compile};
use manifest_read::Manifest;
use manifest_write::read_again;
use std::alloc::Global;
use track_layout::compact;

/// A run of a compiled circuit ends with the values of its outputs. The words may give any seed and any number of
/// samples; the manifest's duration is long enough for every circuit.
pub fn compiled_circuits_run_to_their_values(
    alloc: Global,
    circuit: &Circuit,
    inputs: &[bool],
) -> Result<Manifest, CompileError>
    requires few { length inputs.now < 2 ^ 32 }
    ensures runs { IfOk result (λ m. (words : List (List ℕ)) (samples : ℕ) → IsLongRun words samples → RunsToItsValues circuit.now (values_of circuit.now.nets inputs.now) (layout circuit.now) m words samples) }
{
    read_again();
    compile(alloc, circuit, inputs)
}

/// So does a run of a circuit that is compiled on its compact layout.
pub fn compact_circuits_run_to_their_values(
    alloc: Global,
    circuit: &Circuit,
    inputs: &[bool],
) -> Result<Manifest, CompileError>
    requires few { length inputs.now < 2 ^ 32 }
    ensures runs { IfOk result (λ m. (words : List (List ℕ)) (samples : ℕ) → IsLongRun words samples → RunsToItsValues circuit.now (values_of circuit.now.nets inputs.now) (compact_table (tracks_of circuit.now)) m words samples) }
{
    read_again();
    compact(alloc, circuit, inputs)
}

/// Netlists keep their values. Where `bench` answers bytes by a text, these are the bytes of a netlist, the text is accepted
/// as a circuit, and for all inputs each output of the circuit has the value of the netlist's.
pub fn circuit_texts_keep_the_values_of_netlists()
    ensures { (bytes text : List ℕ) → specified_answer Surface (codes "bench" ∷ []) bytes ≡ Text text → KeepsValues bytes text }
{
    netlists_keep_their_values();
}
