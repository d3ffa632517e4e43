//! How a call ends.

ghost use Rattle.std.specs.Prelude.{◌≡◌};
ghost use Rattle.surface_top.specs.Ending.{status_of};
ghost use Rattle.surface_top.specs.Outcome.{manifest_status, circuit_status, netlist_status};

use bench_read::{BenchFault, BenchKind};
use circuit_text::{CircuitFault, CircuitKind};
use manifest_read::{ManifestFault, ManifestKind};
use surf_kinds::Status;

/// How a call ends, with what its message says.
#[derive(Clone, Copy)]
pub(crate) enum Ending {
    Done,
    WrongWord(u64),
    TooLong,
    BadManifest(ManifestFault),
    BadCircuit(CircuitFault),
    BadNetlist(BenchFault),
    WrongInputs { expected: u32, given: u64 },
    TooManySites(u64),
    EventLimit(u64),
    ReadFault,
    WriteFault,
    Memory,
}

/// A count above its limit is a limit; every other fault makes the text faulty.
fn manifest_status(kind: ManifestKind) -> Status
    ensures { result ≡ manifest_status kind }
{
    match kind {
        ManifestKind::TooManySites | ManifestKind::TooManyRules | ManifestKind::TooManySpecies =>
            Status::Limit,
        _ => Status::Faulty,
    }
}

fn circuit_status(kind: CircuitKind) -> Status
    ensures { result ≡ circuit_status kind }
{
    match kind {
        CircuitKind::TooManyNets => Status::Limit,
        _ => Status::Faulty,
    }
}

fn netlist_status(kind: BenchKind) -> Status
    ensures { result ≡ netlist_status kind }
{
    match kind {
        BenchKind::TooManyNets => Status::Limit,
        _ => Status::Faulty,
    }
}

impl Ending {
    pub(crate) fn status(self) -> Status
        ensures { result ≡ status_of self }
    {
        match self {
            Ending::Done => Status::Done,
            Ending::WrongWord(_) => Status::Words,
            Ending::TooLong | Ending::TooManySites(_) | Ending::EventLimit(_) => Status::Limit,
            Ending::BadManifest(fault) => manifest_status(fault.kind),
            Ending::BadCircuit(fault) => circuit_status(fault.kind),
            Ending::BadNetlist(fault) => netlist_status(fault.kind),
            Ending::WrongInputs { .. } => Status::Faulty,
            Ending::ReadFault => Status::ReadFault,
            Ending::WriteFault => Status::WriteFault,
            Ending::Memory => Status::Memory,
        }
    }
}
