//! The crossbar layout: roles, and what fills the halves of cells.

use crate::circuits::{XOR, chain};
use circuit_text::{Circuit, read_circuit};
use gate_layout::{Layout, Role, Roles, TooManySites};
use std::alloc::Global;
use std::process::Abort;
use std::test::Fail;

/// A letter for each role.
fn letter(role: Role) -> u8 {
    match role {
        Role::Inert => b'.',
        Role::Wire { .. } => b'w',
        Role::Vert { .. } => b'v',
        Role::PinA { .. } => b'p',
        Role::PinB { .. } => b'q',
        Role::Cross { .. } => b'c',
        Role::Gate { .. } => b'g',
    }
}

/// The letters of a table's roles, with a line for each row.
fn letters<T: Roles>(alloc: Global, table: &T) -> Result<Vec<u8>, Fail> {
    let mut text = Vec::new(alloc);
    for row in 0..table.rows() {
        for col in 0..table.cols() {
            text.push(letter(table.role(row, col)))?;
        }
        text.push(b'\n')?;
    }
    Ok(text)
}

/// The role of a cell; nothing past the table's edges.
fn role_at<T: Roles>(table: &T, row: u32, col: u32) -> Option<Role> {
    if row < table.rows() && col < table.cols() {
        Some(table.role(row, col))
    } else {
        None
    }
}

/// The feeder of a half; nothing past the table's edges.
fn feeder_at<T: Roles>(table: &T, row: u32, col: u32, half: u8) -> Option<(u32, u32)> {
    if row < table.rows() && col < table.cols() {
        table.feeder(row, col, half)
    } else {
        None
    }
}

/// The rank of a half; 0 past the table's edges.
fn rank_at<T: Roles>(table: &T, row: u32, col: u32, half: u8) -> u64 {
    if row < table.rows() && col < table.cols() {
        table.rank(row, col, half)
    } else {
        0
    }
}

/// Sees the cells of an exclusive or. The nets are a, b and x, by their numbers 0, 1 and 2.
fn sees_roles<R: Abort, T: Roles>(rt: &R, table: &T) {
    for (row, col, role) in [
        (2, 8, Role::Wire { net: 1 }),
        (3, 3, Role::Vert { net: 1 }),
        (5, 5, Role::Vert { net: 2 }),
        (6, 1, Role::PinA { net: 0 }),
        (6, 3, Role::PinB { net: 1 }),
        (6, 2, Role::Gate { gate: 0 }),
        (7, 4, Role::Wire { net: 2 }),
    ] {
        assert_eq!(rt; role_at(table, row, col), Some(role), "at {row} {col}");
    }
    let crossing = Role::Cross {
        row_net: 2,
        col_net: 1,
    };
    assert_eq!(rt; role_at(table, 4, 3), Some(crossing));
}

#[test]
fn a_gate_of_two_operands_is_laid_out(rt: HostRuntime) -> Result<(), Fail> {
    let alloc = rt.alloc();
    let circuit = read_circuit(alloc, XOR)?;
    let laid = Layout::of(&circuit)?;
    // eight rows of nine cells
    let expected =
        b"wwwwwwwww\n.v.......\nwcwwwwwww\n.v.v.....\nwcwcwwwww\n.v.v.v...\n.pgq.v...\n..wwww...\n";
    assert!(rt; letters(alloc, &laid)?.as_slice() == expected.as_slice());
    sees_roles(&rt, &laid);
    Ok(())
}

/// Sees the letters of the cells of a gate with one operand, and what fills the gate.
fn sees_one_pin<R: Abort, T: Roles>(rt: &R, alloc: Global, table: &T) -> Result<(), Fail> {
    let expected = b"wwwwwwwww\n.v.......\nwcwwwwwww\n.v...v...\n.pg..v...\n..wwww...\n";
    assert!(rt; letters(alloc, table)?.as_slice() == expected.as_slice());
    assert_eq!(rt; feeder_at(table, 4, 2, 0), Some((4, 1)));
    assert_eq!(rt; feeder_at(table, 4, 2, 1), None);
    Ok(())
}

#[test]
fn a_gate_of_one_operand_has_one_pin(rt: HostRuntime) -> Result<(), Fail> {
    let circuit = read_circuit(rt.alloc(), b"input a\noutput x\nx = NOT a\n")?;
    let laid = Layout::of(&circuit)?;
    sees_one_pin(&rt, rt.alloc(), &laid)
}

/// Sees by which cell each half of an exclusive or is filled, and that this cell comes before it.
fn sees_feeders<R: Abort, T: Roles>(rt: &R, table: &T) {
    for (row, col, half, from) in [
        // the input b runs along its row and down to its pin
        (2, 1, 0, (2, 0)),
        (2, 1, 1, (1, 1)),
        (3, 3, 0, (2, 3)),
        (4, 3, 1, (3, 3)),
        (6, 3, 0, (5, 3)),
        // both pins fill the gate, and it leads up to the row of x
        (6, 2, 0, (6, 1)),
        (6, 2, 1, (6, 3)),
        (7, 2, 0, (6, 2)),
        (7, 5, 0, (7, 4)),
        (6, 5, 0, (7, 5)),
        (5, 5, 0, (6, 5)),
        (4, 5, 0, (5, 5)),
        // there it runs both ways
        (4, 3, 0, (4, 4)),
        (4, 8, 0, (4, 7)),
    ] {
        assert_eq!(rt;
            feeder_at(table, row, col, half),
            Some(from),
            "at {row} {col} {half}"
        );
        let (above, beside) = from;
        let fed = rank_at(table, row, col, half);
        assert!(rt;
            rank_at(table, above, beside, 0) < fed,
            "at {row} {col} {half}"
        );
    }
}

/// Sees that nothing fills input cells, an inert cell, and a half that a wire hasn't.
fn sees_no_feeders<R: Abort, T: Roles>(rt: &R, table: &T) {
    for (row, col, half) in [(0, 0, 0), (2, 0, 0), (1, 0, 0), (4, 8, 1)] {
        assert_eq!(rt;
            feeder_at(table, row, col, half),
            None,
            "at {row} {col} {half}"
        );
    }
}

#[test]
fn halves_are_filled_from_their_neighbours(rt: HostRuntime) -> Result<(), Fail> {
    let circuit = read_circuit(rt.alloc(), XOR)?;
    let laid = Layout::of(&circuit)?;
    sees_feeders(&rt, &laid);
    sees_no_feeders(&rt, &laid);
    Ok(())
}

/// How many cells the layout of a circuit has, or would have.
fn cells(circuit: &Circuit) -> (u64, bool) {
    match Layout::of(circuit) {
        Ok(laid) => (laid.rows() as u64 * laid.cols() as u64, true),
        Err(TooManySites { sites }) => (sites, false),
    }
}

#[test]
fn no_more_than_1048576_cells_are_laid_out(rt: HostRuntime) -> Result<(), Fail> {
    let alloc = rt.alloc();
    assert_eq!(rt; cells(&chain(alloc, 294, 0)?), (1_046_064, true));
    assert_eq!(rt; cells(&chain(alloc, 295, 0)?), (1_053_162, false));
    Ok(())
}

/// The cells of two inputs and two outputs; none where a circuit has other numbers of them.
fn ends(circuit: &Circuit) -> Option<[(u32, u32); 4]> {
    let Ok(laid) = Layout::of(circuit) else {
        return None;
    };
    if circuit.input_count() != 2 || circuit.output_count() != 2 {
        return None;
    }
    Some([
        laid.input_cell(0),
        laid.input_cell(1),
        laid.output_cell(0),
        laid.output_cell(1),
    ])
}

#[test]
fn inputs_and_outputs_have_cells(rt: HostRuntime) -> Result<(), Fail> {
    // the nets are a, x, b, y; the inputs a and b, the outputs y and a
    let text = b"input a\nx = BUF a\ninput b\noutput y a\ny = AND x b\n";
    let circuit = read_circuit(rt.alloc(), text.as_slice())?;
    assert_eq!(rt; ends(&circuit), Some([(0, 0), (4, 0), (6, 14), (0, 14)]));
    Ok(())
}
