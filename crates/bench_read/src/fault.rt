//! What is wrong with a netlist.

ghost use Rattle.std.specs.Prelude.{◌≡◌};

/// The kinds of faults. They are sought in four passes over the lines, and the first pass that finds one gives its
/// first line: `BadLine`, `Sequential`, `NetTwice` and `TooManyNets` in the first pass, `UnknownNet` in the second,
/// `NoOutput` in the third, `Cycle` in the fourth. The message of a fault is `bench <Kind> line <n>`.
#[derive(Clone, Copy, Debug, PartialEq, Eq)]
pub enum BenchKind {
    /// The line has none of the forms.
    BadLine,
    /// The gate is a flip-flop.
    Sequential,
    /// The net is defined above.
    NetTwice,
    /// The circuit would have more than 65,536 nets. An input takes one, a gate of k operands one or k - 1.
    TooManyNets,
    /// No line defines the operand or output.
    UnknownNet,
    /// No line names an output.
    NoOutput,
    /// The gate stands on a cycle, or behind one, and no gate above it does.
    Cycle,
}

impl BenchKind {
    ghost use Rattle.bench_read.specs.Passes.{kind_name};

    /// The name of the kind, as messages show it.
    pub fn name(self) -> &'static str
        ensures { result.now ≡ kind_name self }
    {
        match self {
            BenchKind::BadLine => "BadLine",
            BenchKind::Sequential => "Sequential",
            BenchKind::NetTwice => "NetTwice",
            BenchKind::TooManyNets => "TooManyNets",
            BenchKind::UnknownNet => "UnknownNet",
            BenchKind::NoOutput => "NoOutput",
            BenchKind::Cycle => "Cycle",
        }
    }
}

/// The fault of a netlist.
#[derive(Clone, Copy, Debug, PartialEq, Eq)]
pub struct BenchFault {
    pub kind: BenchKind,
    /// The number of the line, from 1. For `NoOutput` it is the number of lines plus 1.
    pub line: u64,
}

/// Why a netlist was not read.
#[derive(Clone, Copy, Debug, PartialEq, Eq)]
pub enum BenchError {
    /// The text is no netlist.
    Fault(BenchFault),
    /// Memory ran out.
    Memory,
}
