//! Circuits: what they are compiled to, and how the runs of their surfaces end.

use crate::calls::{count, expect, push_number, refuses, written};
use crate::rows::XOR;
use std::alloc::{AllocError, Global};
use std::test::Fail;
use surf_kinds::Status;

/// A circuit, the words that lay it out, some rows of the surface that it begins with, some of the one that its run ends
/// with, and the end of the run.
#[derive(Clone, Copy)]
struct Compiled {
    line: &'static str,
    circuit: &'static str,
    first: &'static str,
    last: &'static str,
    end: &'static str,
}

/// How the manifest of each circuit begins.
const HEAD: &str =
    "rng_seed = 0\nmax_duration = 1000000000\nlattice = square\nwrap = false\n!START_TRANSITION_RULES\n(1) W0 + w -> W0 + W0\n";

const COMPILED: [Compiled; 6] = [
    Compiled {
        line: "compile --inputs 10",
        circuit: XOR,
        first: "(1) G1 + w -> G1 + W1\n!END_TRANSITION_RULES\n!START_INIT_STATE\nW1 w w w w w w w w\n. v . . . . . . .\nW0 cxx w w w w w w w\n. v . v . . . . .\nw cxx w cxx w w w w w\n. v . v . v . . .\n. p gXORxx q . v . . .\n. . w w w w . . .\n!END_INIT_STATE\n",
        last: "surface 1000000000000000 43\nW1 W1 W1 W1 W1 W1 W1 W1 W1\n. V1 . . . . . . .\nW0 c01 W0 W0 W0 W0 W0 W0 W0\n. V1 . V0 . . . . .\nW1 c11 W1 c10 W1 W1 W1 W1 W1\n. V1 . V0 . V1 . . .\n. P1 G1 Q0 . V1 . . .\n. . W1 W1 W1 W1 . . .\ncounts ",
        end: "end 1000000000000000 43\n",
    },
    Compiled {
        line: "compile --inputs 00",
        circuit: XOR,
        first: "\nW0 w w w w w w w w\n. v . . . . . . .\nW0 cxx w w w w w w w\n",
        last: " W0 W0 W0 W0 W0\n. V0 . V0 . V0 . . .\n",
        end: "end 1000000000000000 43\n",
    },
    Compiled {
        line: "compile --inputs 01",
        circuit: XOR,
        first: "\nW0 w w w w w w w w\n. v . . . . . . .\nW1 cxx w w w w w w w\n",
        last: " W1 W1 W1 W1 W1\n. V0 . V1 . V1 . . .\n",
        end: "end 1000000000000000 43\n",
    },
    Compiled {
        line: "compile --inputs 11",
        circuit: XOR,
        first: "\nW1 w w w w w w w w\n. v . . . . . . .\nW1 cxx w w w w w w w\n",
        last: " W0 W0 W0 W0 W0\n. V1 . V1 . V0 . . .\n",
        end: "end 1000000000000000 43\n",
    },
    Compiled {
        line: "compact --inputs 10",
        circuit: XOR,
        first: "\nW1 w . . . w w w w\n. v . . . v . . .\nW0 cxx w w . v . . .\n. v . v . v . . .\n. p gXORxx q . v . . .\n. . w w w w . . .\n",
        last: "surface 1000000000000000 24\nW1 W1 . . . W1 W1 W1 W1\n",
        end: "end 1000000000000000 24\n",
    },
    Compiled {
        line: "compact --inputs 01",
        circuit: "input a b\nx = NOT a\noutput x\n",
        first: "\nW1 cxx . . . v . . .\n",
        last: "surface 1000000000000000 19\nW0 W0 . . . W1 W1 W1 W1\n",
        end: "end 1000000000000000 19\n",
    },
];

#[test]
fn circuits_run_to_their_last_surfaces(rt: HostRuntime) -> Result<(), Fail> {
    for row in COMPILED {
        let line = row.line;
        let manifest = written(&rt, rt.alloc(), line, row.circuit)?;
        expect(&rt, count(manifest.as_bytes(), b"->") == 114, line);
        expect(&rt, manifest.starts_with(HEAD), line);
        expect(&rt, manifest.contains(row.first), line);
        let run = written(&rt, rt.alloc(), "run --seed 7", manifest.as_str())?;
        expect(&rt, run.contains(row.last), line);
        expect(&rt, run.ends_with(row.end), line);
    }
    Ok(())
}

/// Gates of one operand one behind the other.
fn chain(alloc: Global, count: u32) -> Result<String, AllocError> {
    let mut text = String::from_str(alloc, "input n0\n")?;
    for i in 0..count {
        push_number(alloc, &mut text, "n", i + 1, " = BUF ")?;
        push_number(alloc, &mut text, "n", i, "\n")?;
    }
    push_number(alloc, &mut text, "output n", count, "\n")?;
    Ok(text)
}

#[test]
fn long_chains_are_compiled_or_too_large(rt: HostRuntime) -> Result<(), Fail> {
    let alloc = rt.alloc();
    let fits = chain(alloc, 294)?;
    let manifest = written(&rt, alloc, "compile --inputs 0", fits.as_str())?;
    expect(&rt, count(manifest.as_bytes(), b"->") == 114, "294 gates");
    let long = chain(alloc, 295)?;
    let message = "limit sites 1053162\n";
    let bytes = long.as_bytes();
    refuses(
        &rt,
        alloc,
        "compile --inputs 0",
        bytes,
        Status::Limit,
        message,
    )?;
    // The inputs are tested first.
    let message = "circuit WrongInputs 1 2\n";
    refuses(
        &rt,
        alloc,
        "compile --inputs 01",
        bytes,
        Status::Faulty,
        message,
    )?;
    // The compact layout has one track.
    let manifest = written(&rt, alloc, "compact --inputs 1", long.as_str())?;
    let sizes = written(&rt, alloc, "check", manifest.as_str())?;
    expect(
        &rt,
        sizes.starts_with("ok 4 1773 square false "),
        "one track",
    );
    Ok(())
}

/// Numbers that look random.
#[derive(Drop)]
struct Dice {
    state: u64,
}

impl Dice {
    /// The next number below a bound; 0 where the bound is 0.
    fn below(&mut self, bound: u32) -> u32 {
        self.state = self
            .state
            .wrapping_mul(6_364_136_223_846_793_005)
            .wrapping_add(1_442_695_040_888_963_407);
        let drawn = (self.state / 8_589_934_592) as u32;
        drawn.checked_rem(bound).unwrap_or(0)
    }

    /// One of some texts; none where there are none.
    fn one_of(&mut self, texts: &[&'static str]) -> &'static str {
        let at = self.below(8) as usize;
        texts.get(at).copied().unwrap_or("")
    }
}

const OPERATIONS: [&str; 8] = ["AND", "OR", "XOR", "NAND", "NOR", "XNOR", "NOT", "BUF"];

const INPUTS: [&str; 8] = ["000", "001", "010", "011", "100", "101", "110", "111"];

/// Writes a gate line for a net, over nets before it.
fn push_gate(
    alloc: Global,
    text: &mut String,
    dice: &mut Dice,
    net: u32,
) -> Result<(), AllocError> {
    let operation = dice.one_of(&OPERATIONS);
    push_number(alloc, text, "n", net, " = ")?;
    text.push_str(operation)?;
    push_number(alloc, text, " n", dice.below(net), "")?;
    if operation != "NOT" && operation != "BUF" {
        push_number(alloc, text, " n", dice.below(net), "")?;
    }
    text.push_str("\n")
}

/// A circuit of three inputs and up to 12 gates. All of its nets are outputs, in their order.
fn random_circuit(alloc: Global, dice: &mut Dice, nets: u32) -> Result<String, AllocError> {
    let mut text = String::from_str(alloc, "input n0 n1 n2\n")?;
    for net in 3..nets {
        push_gate(alloc, &mut text, dice, net)?;
    }
    for net in 0..nets {
        push_number(alloc, &mut text, "output n", net, "\n")?;
    }
    Ok(text)
}

/// The last characters of the lines of a text.
fn line_ends(alloc: Global, text: &str) -> Result<Vec<u8>, AllocError> {
    let mut ends = Vec::new(alloc);
    let mut last = b' ';
    for c in text.as_bytes() {
        if *c == b'\n' {
            ends.push(last)?;
        }
        last = *c;
    }
    Ok(ends)
}

/// The bits at the right ends of the rows of the nets, on the last surface of a run of a circuit with so many nets. Two
/// lines stand behind the surface, which has two rows for each net and two more.
fn output_bits(alloc: Global, run: &str, nets: usize) -> Result<Vec<u8>, AllocError> {
    let ends = line_ends(alloc, run)?;
    let first = ends
        .len()
        .saturating_sub(nets.saturating_mul(2).saturating_add(4));
    let mut bits = Vec::new(alloc);
    for net in 0..nets {
        let row = first.saturating_add(net.saturating_mul(2));
        bits.push(ends.get(row).copied().unwrap_or(b' '))?;
    }
    Ok(bits)
}

/// Two texts as one.
fn joined(alloc: Global, first: &str, second: &str) -> Result<String, AllocError> {
    let mut text = String::from_str(alloc, first)?;
    text.push_str(second)?;
    Ok(text)
}

#[test]
fn random_circuits_have_their_values(rt: HostRuntime) -> Result<(), Fail> {
    let alloc = rt.alloc();
    let mut dice = Dice { state: 1 };
    for nets in 4..16 {
        let circuit = random_circuit(alloc, &mut dice, nets)?;
        let circuit = circuit.as_str();
        let inputs = dice.one_of(&INPUTS);
        let words = joined(alloc, "compile --inputs ", inputs)?;
        let manifest = written(&rt, alloc, words.as_str(), circuit)?;
        let run = written(&rt, alloc, "run", manifest.as_str())?;
        let bits = output_bits(alloc, run.as_str(), nets as usize)?;
        let words = joined(alloc, "value --inputs ", inputs)?;
        let values = written(&rt, alloc, words.as_str(), circuit)?;
        let values = line_ends(alloc, values.as_str())?;
        expect(&rt, bits.as_slice() == values.as_slice(), circuit);
    }
    Ok(())
}
