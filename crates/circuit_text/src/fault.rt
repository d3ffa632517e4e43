//! What is wrong with a circuit text.

ghost use Rattle.std.specs.Prelude.{◌≡◌};

/// The kinds of faults.
#[derive(Clone, Copy, Debug, PartialEq, Eq)]
pub enum CircuitKind {
    /// The line is no gate line, input line or output line.
    BadLine,
    /// No well-formed line defines the net.
    UnknownNet,
    /// The net is defined before.
    NetTwice,
    /// The operand is defined on this line or below it.
    NetLater,
    /// No line names an output.
    NoOutput,
    /// 65,536 nets are defined before.
    TooManyNets,
}

impl CircuitKind {
    ghost use Rattle.circuit_text.specs.Faults.{kind_name};

    /// The name of the kind, as messages show it.
    pub fn name(self) -> &'static str
        ensures { result.now ≡ kind_name self }
    {
        match self {
            CircuitKind::BadLine => "BadLine",
            CircuitKind::UnknownNet => "UnknownNet",
            CircuitKind::NetTwice => "NetTwice",
            CircuitKind::NetLater => "NetLater",
            CircuitKind::NoOutput => "NoOutput",
            CircuitKind::TooManyNets => "TooManyNets",
        }
    }
}

/// The first fault of a circuit text.
#[derive(Clone, Copy, Debug, PartialEq, Eq)]
pub struct CircuitFault {
    pub kind: CircuitKind,
    /// The number of the line, from 1. For `NoOutput` it is the number of lines plus 1.
    pub line: u64,
}

/// Why a circuit was not read.
#[derive(Clone, Copy, Debug, PartialEq, Eq)]
pub enum CircuitError {
    /// The text is no circuit.
    Fault(CircuitFault),
    /// Memory ran out.
    Memory,
}
