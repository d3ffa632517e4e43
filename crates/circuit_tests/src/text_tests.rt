//! The texts of circuits, their faults, and the values of nets.

use circuit_text::{Circuit, CircuitError, CircuitKind, GateOp, Net, read_circuit};
use std::alloc::Global;
use std::process::Abort;
use std::test::Fail;
use surf_text::Digits;

/// The kind and the line of the fault of a text.
fn fault(alloc: Global, text: &[u8]) -> Option<(CircuitKind, u64)> {
    if text.len() > 10_000_000 {
        return None;
    }
    match read_circuit(alloc, text) {
        Err(CircuitError::Fault(fault)) => Some((fault.kind, fault.line)),
        _ => None,
    }
}

/// The outputs of a circuit with their values; nothing where it has another number of inputs.
fn outputs(alloc: Global, circuit: &Circuit, inputs: &[bool]) -> Result<Vec<u8>, Fail> {
    let mut text = Vec::new(alloc);
    if inputs.len() != circuit.input_count() as usize {
        return Ok(text);
    }
    let values = circuit.values(inputs)?;
    for i in 0..circuit.output_count() {
        let net = circuit.output(i);
        text.extend_from_slice(circuit.name(net))?;
        let value = if values[net as usize] { " 1 " } else { " 0 " };
        text.extend_from_slice(value.as_bytes())?;
    }
    Ok(text)
}

const ADDER: &[u8] =
    b"input a b c\ns1 = XOR a b\ns = XOR s1 c\nc1 = AND a b\nc2 = AND s1 c\nco = OR c1 c2\noutput s co\n";

/// Sees the nets of a full adder.
fn sees_adder<R: Abort>(rt: &R, adder: &Circuit) {
    assert_eq!(rt; adder.net_count(), 8);
    assert_eq!(rt; adder.input_count(), 3);
    assert_eq!(rt; adder.output_count(), 2);
    assert_eq!(rt; adder.gate_count(), 5);
    for gate in 0..adder.gate_count() {
        assert_eq!(rt; adder.gate_net(gate), gate + 3);
    }
    if adder.net_count() == 8 {
        let sum = Net::Gate {
            op: GateOp::Xor,
            a: 3,
            b: Some(2),
        };
        assert_eq!(rt; adder.net(4), sum);
        assert_eq!(rt; adder.net(2), Net::Input { number: 2 });
    }
}

/// Sees the sums of a full adder.
fn sees_sums<R: Abort>(rt: &R, alloc: Global, adder: &Circuit) -> Result<(), Fail> {
    for (inputs, text) in [
        ([true, true, false], "s 0 co 1 "),
        ([true, true, true], "s 1 co 1 "),
        ([true, false, false], "s 1 co 0 "),
    ] {
        let found = outputs(alloc, adder, inputs.as_slice())?;
        assert!(rt; found.as_slice() == text.as_bytes(), "at {text}");
    }
    Ok(())
}

#[test]
fn a_full_adder_adds(rt: HostRuntime) -> Result<(), Fail> {
    let adder = read_circuit(rt.alloc(), ADDER)?;
    sees_adder(&rt, &adder);
    sees_sums(&rt, rt.alloc(), &adder)
}

/// Sees the values of a gate of each operation.
fn sees_operations<R: Abort>(rt: &R, alloc: Global, circuit: &Circuit) -> Result<(), Fail> {
    for (inputs, found) in [
        (
            [false, false],
            "and 0 or 0 xor 0 nand 1 nor 1 xnor 1 not 1 buf 0 and 0 ",
        ),
        (
            [false, true],
            "and 0 or 1 xor 1 nand 1 nor 0 xnor 0 not 1 buf 0 and 0 ",
        ),
        (
            [true, false],
            "and 0 or 1 xor 1 nand 1 nor 0 xnor 0 not 0 buf 1 and 0 ",
        ),
        (
            [true, true],
            "and 1 or 1 xor 0 nand 0 nor 0 xnor 1 not 0 buf 1 and 1 ",
        ),
    ] {
        let values = outputs(alloc, circuit, inputs.as_slice())?;
        assert!(rt; values.as_slice() == found.as_bytes(), "at {found}");
    }
    Ok(())
}

#[test]
fn each_operation_has_its_values(rt: HostRuntime) -> Result<(), Fail> {
    // outputs stand above their gates, and one of them is named twice
    let text =
        b"output and or xor nand nor xnor not buf and\r\ninput a b\nand = AND a b\nor=OR a b\n xor = XOR\ta b # no words = here\nnand = NAND a b\nnor = NOR a b\nxnor = XNOR a b\nnot = NOT a\nbuf = BUF a\n";
    let circuit = read_circuit(rt.alloc(), text.as_slice())?;
    sees_operations(&rt, rt.alloc(), &circuit)
}

#[test]
fn the_first_fault_is_found(rt: HostRuntime) -> Result<(), Fail> {
    let alloc = rt.alloc();
    for (text, kind, line) in [
        (
            "input a\nx = AND a y\ny = NOT a\noutput x",
            CircuitKind::NetLater,
            2,
        ),
        ("input a\nx = NOT z\noutput x", CircuitKind::UnknownNet, 2),
        ("input a", CircuitKind::NoOutput, 2),
        ("", CircuitKind::NoOutput, 1),
        ("input a a\noutput a", CircuitKind::NetTwice, 1),
        // an operand that the line itself defines
        ("input a\nx = AND a x\noutput x", CircuitKind::NetLater, 2),
        // the line below is not well formed, so it defines nothing
        (
            "input a\nx = NOT y\ny = NOT a a\noutput x",
            CircuitKind::UnknownNet,
            2,
        ),
        // a net that is defined above comes before its operands, and those from the left
        ("input a\na = AND y z\noutput a", CircuitKind::NetTwice, 2),
        (
            "input a\nx = AND y z\nz = NOT a\noutput x",
            CircuitKind::UnknownNet,
            2,
        ),
        ("input a\noutput a z\nx = NOT", CircuitKind::UnknownNet, 2),
        ("input a\n\n# input b\nx = AND a", CircuitKind::BadLine, 4),
        ("input a\nx = and a a", CircuitKind::BadLine, 2),
        ("input a\nx = BUF a a", CircuitKind::BadLine, 2),
        ("input a\nx y = BUF a", CircuitKind::BadLine, 2),
        ("input a\nx = = BUF a", CircuitKind::BadLine, 2),
        ("input # a", CircuitKind::BadLine, 1),
        ("output a-b", CircuitKind::BadLine, 1),
        ("Input a", CircuitKind::BadLine, 1),
    ] {
        assert_eq!(rt;
            fault(alloc, text.as_bytes()),
            Some((kind, line)),
            "at {text}"
        );
    }
    let twice = b"input a\nx = AND a a\noutput x";
    assert!(rt; read_circuit(alloc, twice.as_slice()).is_ok());
    Ok(())
}

/// A circuit text of 65,536 nets in as many lines and one more.
fn longest_text(alloc: Global) -> Result<Vec<u8>, Fail> {
    let mut text = b"output n65534 n0\ninput n0\n".to_vec(alloc)?;
    for number in 1..65_535 {
        text.extend_from_slice(b"n")?;
        text.extend_from_slice(Digits::of(number).bytes())?;
        text.extend_from_slice(b" = NOT n")?;
        text.extend_from_slice(Digits::of(number - 1).bytes())?;
        text.extend_from_slice(b"\n")?;
    }
    text.extend_from_slice(b"last = AND n65534 n0\n")?;
    Ok(text)
}

/// A text with a line behind it.
fn with_line(alloc: Global, text: &[u8], line: &[u8]) -> Result<Vec<u8>, Fail> {
    let mut longer = text.to_vec(alloc)?;
    longer.extend_from_slice(line)?;
    Ok(longer)
}

/// How many nets a circuit text has, and its outputs with their values; nothing where it is longer than ten megabytes.
fn nets_and_outputs(alloc: Global, text: &[u8], inputs: &[bool]) -> Result<(u32, Vec<u8>), Fail> {
    if text.len() > 10_000_000 {
        return Ok((0, Vec::new(alloc)));
    }
    let circuit = read_circuit(alloc, text)?;
    Ok((circuit.net_count(), outputs(alloc, &circuit, inputs)?))
}

#[test]
fn no_more_than_65536_nets_are_read(rt: HostRuntime) -> Result<(), Fail> {
    let alloc = rt.alloc();
    let text = longest_text(alloc)?;
    let (count, values) = nets_and_outputs(alloc, &text, [true].as_slice())?;
    assert_eq!(rt; count, 65_536);
    assert!(rt; values.as_slice() == b"n65534 1 n0 1 ".as_slice());
    let twice = with_line(alloc, &text, b"input n7\n")?;
    assert_eq!(rt; fault(alloc, &twice), Some((CircuitKind::NetTwice, 65_538)));
    let more = with_line(alloc, &text, b"input new\nx = NOT\n")?;
    assert_eq!(rt;
        fault(alloc, &more),
        Some((CircuitKind::TooManyNets, 65_538))
    );
    Ok(())
}
