//! Circuits compiled on their tracks.

ghost use Rattle.std.specs.Prelude.{◌≡◌, ◌≢◌, ◌<◌, ◌≤◌, ◌*◌, ◌+◌, ◌↔◌, ◌^◌, ℕ, List, length, IfOk, Err};
ghost use Rattle.circuit_text.specs.Values.{input_count};
ghost use Rattle.crn_compile.specs.declared.compiling.CompileError.TheVariants.{WrongInputs, TooManySites as TooMany};
ghost use Rattle.track_layout.specs.Tracks.{site_count};
ghost use Rattle.track_layout.specs.Turns.{tracks_of};
ghost use Rattle.track_layout.specs.Compact.{IsCompact};

use crate::tracks::{TrackError, Tracks};
use circuit_text::Circuit;
use crn_compile::{CompileError, compile_on};
use manifest_read::Manifest;
use std::alloc::Global;

/// The manifest of a circuit on its compact layout, with these bits as inputs.
pub fn compact(alloc: Global, circuit: &Circuit, inputs: &[bool]) -> Result<Manifest, CompileError>
    requires few { length inputs.now < 2 ^ 32 }
    ensures wrong { (expected given : ℕ) → (result ≡ Err (WrongInputs expected given)) ↔ ((expected ≡ input_count circuit.now.nets) × (given ≡ length inputs.now) × (length inputs.now ≢ input_count circuit.now.nets)) }
    ensures many { (sites : ℕ) → result ≡ Err (TooMany sites) → (length inputs.now ≡ input_count circuit.now.nets) × (sites ≡ site_count (tracks_of circuit.now)) × (2 ^ 20 < sites) }
    ensures compact { IfOk result (λ m. IsCompact circuit.now inputs.now m) }
{
    let expected = circuit.input_count();
    let given = inputs.len() as u32;
    if given != expected {
        return Err(CompileError::WrongInputs { expected, given });
    }
    let table = match Tracks::of(alloc, circuit) {
        Ok(table) => table,
        Err(TrackError::TooManySites { sites }) => return Err(CompileError::TooManySites { sites }),
        Err(TrackError::Memory) => return Err(CompileError::Memory),
    };
    match compile_on(alloc, circuit, &table, inputs) {
        Ok(manifest) => Ok(manifest),
        Err(_) => Err(CompileError::Memory),
    }
}
