//! Netlists, their faults, and the circuit texts that are written of them.

use bench_read::{BenchError, BenchKind, read_bench, write_circuit};
use circuit_text::read_circuit;
use std::alloc::Global;
use std::test::Fail;
use surf_outside::{Failed, MemSink};
use surf_text::Digits;

/// The kind and the line of the fault of a text.
fn fault(alloc: Global, text: &[u8]) -> Option<(BenchKind, u64)> {
    if text.len() > 10_000_000 {
        return None;
    }
    match read_bench(alloc, text) {
        Err(BenchError::Fault(fault)) => Some((fault.kind, fault.line)),
        _ => None,
    }
}

#[test]
fn each_fault_is_found(rt: HostRuntime) -> Result<(), Fail> {
    let alloc = rt.alloc();
    for (text, kind, line) in [
        ("INPUT(a)\nx = DFF(a)", BenchKind::Sequential, 2),
        ("INPUT(a)\nx = dff(a, b", BenchKind::BadLine, 2),
        ("INPUT(a)\nx = NOT(a, a)\nOUTPUT(x)", BenchKind::BadLine, 2),
        ("INPUT(a)\nx = AND(a)\nOUTPUT(x)", BenchKind::BadLine, 2),
        ("INPUT(a) b\n", BenchKind::BadLine, 1),
        ("INPUT(a, b)\n", BenchKind::BadLine, 1),
        ("INPUT(a)\nINPUT(a)", BenchKind::NetTwice, 2),
        ("x = NOT(z)\nINPUT(a)\na = NOT(a)", BenchKind::NetTwice, 3),
        ("x = NOT(z)\nOUTPUT(x)", BenchKind::UnknownNet, 1),
        ("OUTPUT(y)\nx = NOT(z)", BenchKind::UnknownNet, 1),
        ("INPUT(a)\n\n# y\n", BenchKind::NoOutput, 4),
        ("", BenchKind::NoOutput, 1),
        (
            "INPUT(a)\nOUTPUT(y)\nx = NOT(y)\ny = NOT(x)\nz = BUFF(a)",
            BenchKind::Cycle,
            3,
        ),
        ("x = NOT(x)\nOUTPUT(x)", BenchKind::Cycle, 1),
    ] {
        assert_eq!(rt;
            fault(alloc, text.as_bytes()),
            Some((kind, line)),
            "at {text}"
        );
    }
    Ok(())
}

/// The circuit text of a netlist; none where the netlist has a fault.
fn circuit_text(alloc: Global, text: &[u8]) -> Result<Vec<u8>, Fail> {
    let mut out = MemSink::new(alloc, 5_000_000, 1_000, &[])?;
    if text.len() > 10_000_000 {
        return Ok(Vec::new(alloc));
    }
    if let Ok(bench) = read_bench(alloc, text)
        && write_circuit(&bench, &mut out).is_err()
    {
        return Ok(Vec::new(alloc));
    }
    Ok(out.bytes().to_vec(alloc)?)
}

/// The values of the outputs of a circuit text; none where it has a fault or another number of inputs.
fn output_values(alloc: Global, text: &[u8], inputs: &[bool]) -> Result<Vec<bool>, Fail> {
    let mut bits = Vec::new(alloc);
    if text.len() > 10_000_000 {
        return Ok(bits);
    }
    if let Ok(circuit) = read_circuit(alloc, text)
        && inputs.len() == circuit.input_count() as usize
    {
        let values = circuit.values(inputs)?;
        for i in 0..circuit.output_count() {
            bits.push(values[circuit.output(i) as usize])?;
        }
    }
    Ok(bits)
}

#[test]
fn a_wide_gate_is_a_chain(rt: HostRuntime) -> Result<(), Fail> {
    let alloc = rt.alloc();
    let text =
        b"Input(a)\r\nINPUT( b )\ninput (c)\nOUTPUT(y) # the last\ny = NAND(t, b, c)\n\tt=not( a )";
    let circuit = circuit_text(alloc, text)?;
    assert_eq!(rt;
        circuit.as_slice(),
        b"input n0\ninput n1\ninput n2\nn3 = NOT n0\nn4 = AND n3 n1\nn5 = NAND n4 n2\noutput n5\n".as_slice()
    );
    let values = output_values(alloc, &circuit, &[false, true, true])?;
    assert_eq!(rt; values.as_slice(), [false].as_slice());
    Ok(())
}

#[test]
fn the_benchmark_c17_is_read(rt: HostRuntime) -> Result<(), Fail> {
    let alloc = rt.alloc();
    let text =
        b"INPUT(1)\nINPUT(2)\nINPUT(3)\nINPUT(6)\nINPUT(7)\nOUTPUT(22)\nOUTPUT(23)\n10 = NAND(1, 3)\n11 = NAND(3, 6)\n16 = NAND(2, 11)\n19 = NAND(11, 7)\n22 = NAND(10, 16)\n23 = NAND(16, 19)\n";
    let circuit = circuit_text(alloc, text)?;
    assert!(rt;
        circuit.as_slice().ends_with(b"n9 = NAND n5 n7\nn10 = NAND n7 n8\noutput n9\noutput n10\n")
    );
    let values = output_values(alloc, &circuit, &[false; 5])?;
    assert_eq!(rt; values.as_slice(), [false, false].as_slice());
    Ok(())
}

#[test]
fn a_fault_of_the_sink_stops_the_text(rt: HostRuntime) -> Result<(), Fail> {
    let alloc = rt.alloc();
    let Ok(bench) = read_bench(alloc, b"INPUT(a)\nx = BUFF(a)\nOUTPUT(x)\n") else {
        return Ok(());
    };
    let mut out = MemSink::new(alloc, 12, 5, &[])?;
    assert_eq!(rt; write_circuit(&bench, &mut out), Err(Failed));
    assert_eq!(rt; out.bytes(), b"input n0\nn1 ".as_slice());
    Ok(())
}

/// Each operation on the same three inputs, or on one net. The gates stand above their operands.
const OPERATIONS: &[u8] = b"OUTPUT(0)
OUTPUT(1)
OUTPUT(2)
OUTPUT(3)
OUTPUT(4)
OUTPUT(5)
OUTPUT(6)
OUTPUT(7)
OUTPUT(8)
OUTPUT(9)
9 = Xnor(5, c, 1, 1, a)
8 = buff(7)
7 = BUF(6)
6 = NOT(a)
5 = XNOR(a, b, c)
4 = nor(a, b, c)
3 = NAND(a , b , c)
2 = Xor(a, b, c)
1 = or(a, b, c)
0 = AND(a, b, c)
INPUT(a)
INPUT(b)
INPUT(c)
";

#[test]
fn operations_keep_their_values(rt: HostRuntime) -> Result<(), Fail> {
    let alloc = rt.alloc();
    let circuit = circuit_text(alloc, OPERATIONS)?;
    for a in [false, true] {
        for b in [false, true] {
            for c in [false, true] {
                let all = a && b && c;
                let any = a || b || c;
                let odd = (a != b) != c;
                assert_eq!(rt;
                    output_values(alloc, &circuit, &[a, b, c])?.as_slice(),
                    [all, any, odd, !all, !any, !odd, !a, !a, !a, b].as_slice()
                );
            }
        }
    }
    Ok(())
}

#[test]
fn no_more_than_65536_nets_are_read(rt: HostRuntime) -> Result<(), Fail> {
    let alloc = rt.alloc();
    // each gate stands above its operand
    let mut text = b"OUTPUT(n0)\n".to_vec(alloc)?;
    for number in 0..65_535 {
        text.extend_from_slice(b"n")?;
        text.extend_from_slice(Digits::of(number).bytes())?;
        text.extend_from_slice(b" = NOT(n")?;
        text.extend_from_slice(Digits::of(number + 1).bytes())?;
        text.extend_from_slice(b")\n")?;
    }
    text.extend_from_slice(b"INPUT(n65535)\n")?;
    if text.len() > 10_000_000 {
        return Ok(());
    }
    let circuit = circuit_text(alloc, &text)?;
    assert!(rt;
        circuit
            .as_slice()
            .starts_with(b"input n0\nn1 = NOT n0\nn2 = NOT n1\n")
    );
    assert!(rt;
        circuit
            .as_slice()
            .ends_with(b"\nn65535 = NOT n65534\noutput n65535\n")
    );
    text.extend_from_slice(b"INPUT(more)\n")?;
    assert_eq!(rt; fault(alloc, &text), Some((BenchKind::TooManyNets, 65_538)));
    Ok(())
}
