//! Nets and the operations of gates.

/// The operation of a gate. `Not` and `Buf`, which gives its operand, have one operand, the others two.
#[derive(Clone, Copy, Debug, PartialEq, Eq)]
pub enum GateOp {
    And,
    Or,
    Xor,
    Nand,
    Nor,
    Xnor,
    Not,
    Buf,
}

/// A net: an input of the circuit, or a gate with the numbers of the nets that are its operands.
#[derive(Clone, Copy, Debug, PartialEq, Eq)]
pub enum Net {
    Input { number: u32 },
    Gate { op: GateOp, a: u32, b: Option<u32> },
}
