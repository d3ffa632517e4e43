//! Messages on how a call ended.

ghost use Rattle.std.specs.Prelude.{◌≡◌, IfOk, string_bytes};
ghost use Rattle.surface_top.specs.Ending.{status_of, answer_by};
ghost use Rattle.surface_top.specs.Outcome.{manifest_note, circuit_note, netlist_note, inputs_note, message};

use crate::ending::Ending;
use bench_read::BenchFault;
use circuit_text::CircuitFault;
use manifest_read::ManifestFault;
use std::alloc::{AllocError, Global};

fn manifest_line(alloc: Global, fault: ManifestFault) -> Result<String, AllocError>
    ensures { IfOk result (λ line. string_bytes line ≡ manifest_note fault) }
{
    let kind = fault.kind.name();
    let unit = fault.kind.unit();
    let at = fault.at;
    format!(in alloc; "manifest {kind} {unit} {at}\n")
}

fn circuit_line(alloc: Global, fault: CircuitFault) -> Result<String, AllocError>
    ensures { IfOk result (λ line. string_bytes line ≡ circuit_note fault) }
{
    let kind = fault.kind.name();
    let line = fault.line;
    format!(in alloc; "circuit {kind} line {line}\n")
}

fn netlist_line(alloc: Global, fault: BenchFault) -> Result<String, AllocError>
    ensures { IfOk result (λ line. string_bytes line ≡ netlist_note fault) }
{
    let kind = fault.kind.name();
    let line = fault.line;
    format!(in alloc; "bench {kind} line {line}\n")
}

fn inputs_line(alloc: Global, expected: u32, given: u64) -> Result<String, AllocError>
    ensures { IfOk result (λ line. string_bytes line ≡ inputs_note expected given) }
{
    format!(in alloc; "circuit WrongInputs {expected} {given}\n")
}

/// The message of an ending; none where all went well.
#[tactic(auto, using(crate::proofs::Messages::joined), unfolding(crate::specs::Outcome::message))]
pub(crate) fn message_of(alloc: Global, ending: Ending) -> Result<String, AllocError>
    ensures { IfOk result (λ line. string_bytes line ≡ message (status_of ending) (answer_by ending)) }
{
    match ending {
        Ending::Done => Ok(String::new(alloc)),
        Ending::WrongWord(index) => format!(in alloc; "words {index}\n"),
        Ending::TooLong => String::from_str(alloc, "limit bytes 67108864\n"),
        Ending::BadManifest(fault) => manifest_line(alloc, fault),
        Ending::BadCircuit(fault) => circuit_line(alloc, fault),
        Ending::BadNetlist(fault) => netlist_line(alloc, fault),
        Ending::WrongInputs { expected, given } => inputs_line(alloc, expected, given),
        Ending::TooManySites(sites) => format!(in alloc; "limit sites {sites}\n"),
        Ending::EventLimit(limit) => format!(in alloc; "limit events {limit}\n"),
        Ending::ReadFault => String::from_str(alloc, "read fault\n"),
        Ending::WriteFault => String::from_str(alloc, "write fault\n"),
        Ending::Memory => String::from_str(alloc, "memory\n"),
    }
}
