//! The roles of cells.

/// What a cell does for a circuit. Nets and gates go by their numbers.
#[derive(Clone, Copy, Debug, PartialEq, Eq)]
pub enum Role {
    /// Nothing.
    Inert,
    /// Carries a net along a row.
    Wire { net: u32 },
    /// Carries a net along a column.
    Vert { net: u32 },
    /// Carries the first operand into the gate beside it.
    PinA { net: u32 },
    /// Carries the second operand into the gate beside it.
    PinB { net: u32 },
    /// Carries one net along its row and another one along its column.
    Cross { row_net: u32, col_net: u32 },
    /// Computes the net of a gate.
    Gate { gate: u32 },
}
