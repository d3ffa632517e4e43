//! Writing the circuit of a netlist.

ghost use Rattle.std.specs.Prelude.{◌≡◌, ◌++◌, ◌∷◌, ◌<◌, ◌^◌, [], length, map, OnOk, OnErr};
ghost use Rattle.std.specs.List.{flat_map};
ghost use Rattle.std.specs.Io.KnownBytes.{Appends};
ghost use Rattle.circuit_text.specs.declared.kinds.Net.TheVariants.{Gate};
ghost use Rattle.surf_outside.specs.Causes.{HasCause};
ghost use Rattle.surf_outside.specs.Known.{AppendsPrefix};
ghost use Rattle.surf_outside.specs.Puts.{Puts};
ghost use Rattle.bench_read.specs.Chains.{op_word as op_word_of, net_line, net_lines, output_line, ended_lines, text_of};

use crate::bench::Bench;
use circuit_text::{GateOp, Net};
use surf_outside::{Failed, Sink, put};
use surf_text::Digits;

/// Writes one piece after the other.
fn put_pieces<O: Sink>(out: &mut O, pieces: &[&[u8]]) -> Result<(), Failed>
    ensures { Puts (O.written out.old) (O.written out.new) (O.faults out.old) (O.faults out.new) (flat_map (λ p. p.now) pieces.now) result }
{
    for piece in pieces {
        put(out, piece)?;
    }
    Ok(())
}

/// The word of an operation in a circuit text.
fn op_word(op: GateOp) -> &'static str
    ensures { result.now ≡ op_word_of op }
{
    match op {
        GateOp::And => "AND",
        GateOp::Or => "OR",
        GateOp::Xor => "XOR",
        GateOp::Nand => "NAND",
        GateOp::Nor => "NOR",
        GateOp::Xnor => "XNOR",
        GateOp::Not => "NOT",
        GateOp::Buf => "BUF",
    }
}

/// Writes the line of a gate.
fn write_gate<O: Sink>(
    out: &mut O,
    number: u32,
    op: GateOp,
    a: u32,
    b: Option<u32>,
) -> Result<(), Failed>
    ensures { Puts (O.written out.old) (O.written out.new) (O.faults out.old) (O.faults out.new) (net_line number (Gate op a b) ++ 10 ∷ []) result }
{
    let name = Digits::of(u64::from(number));
    let word = op_word(op).as_bytes();
    let first = Digits::of(u64::from(a));
    match b {
        None => {
            put_pieces(
                out,
                &[
                    b"n",
                    name.bytes(),
                    b" = ",
                    word,
                    b" n",
                    first.bytes(),
                    b"\n",
                ],
            )
        }
        Some(b) => {
            let second = Digits::of(u64::from(b));
            put_pieces(
                out,
                &[
                    b"n",
                    name.bytes(),
                    b" = ",
                    word,
                    b" n",
                    first.bytes(),
                    b" n",
                    second.bytes(),
                    b"\n",
                ],
            )
        }
    }
}

/// Writes the line of a net.
fn write_net<O: Sink>(out: &mut O, number: u32, net: Net) -> Result<(), Failed>
    ensures { Puts (O.written out.old) (O.written out.new) (O.faults out.old) (O.faults out.new) (net_line number net ++ 10 ∷ []) result }
{
    match net {
        Net::Input { .. } => {
            let name = Digits::of(u64::from(number));
            put_pieces(out, &[b"input n", name.bytes(), b"\n"])
        }
        Net::Gate { op, a, b } => write_gate(out, number, op, a, b),
    }
}

/// Writes the line of an output.
fn write_output<O: Sink>(out: &mut O, number: u32) -> Result<(), Failed>
    ensures { Puts (O.written out.old) (O.written out.new) (O.faults out.old) (O.faults out.new) (output_line number ++ 10 ∷ []) result }
{
    let name = Digits::of(u64::from(number));
    put_pieces(out, &[b"output n", name.bytes(), b"\n"])
}

/// Writes the lines of the nets.
fn write_nets<O: Sink>(out: &mut O, nets: &[Net]) -> Result<(), Failed>
    requires { length nets.now < 2 ^ 32 }
    ensures { Puts (O.written out.old) (O.written out.new) (O.faults out.old) (O.faults out.new) (ended_lines (net_lines 0 nets.now)) result }
{
    let mut number = 0;
    for net in nets {
        write_net(out, number, *net)?;
        number += 1;
    }
    Ok(())
}

/// Writes the lines of the outputs.
fn write_outputs<O: Sink>(out: &mut O, outputs: &[u32]) -> Result<(), Failed>
    ensures { Puts (O.written out.old) (O.written out.new) (O.faults out.old) (O.faults out.new) (ended_lines (map output_line outputs.now)) result }
{
    for output in outputs {
        write_output(out, *output)?;
    }
    Ok(())
}

/// Writes the circuit text of a netlist: a line for each input, the gates, and a line for each output. The nets are
/// named n0, n1 and so on. A gate of k operands above 2 is k - 1 gates from the left, of which the last one has the
/// operation itself. `laws::netlists_keep_their_values` says that the text is accepted, and that each output has its
/// value for all inputs. After a fault of the sink a prefix of the text was written; nothing else fails.
pub fn write_circuit<O: Sink>(bench: &Bench, out: &mut O) -> Result<(), Failed>
    ensures ok { OnOk result (Appends (O.written out.old) (O.written out.new) (text_of bench.now)) }
    ensures err { OnErr result (AppendsPrefix (O.written out.old) (O.written out.new) (text_of bench.now)) }
    ensures cause { HasCause (O.faults out.old) (O.faults out.new) result }
{
    write_nets(out, bench.nets())?;
    write_outputs(out, bench.circuit_outputs())
}
