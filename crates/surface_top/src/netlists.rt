//! What `bench` writes: the circuit text of a netlist.

ghost use Rattle.std.specs.Prelude.{◌≡◌, ◌≤◌, Ok, length, IfOk, IfErr};
ghost use Rattle.bench_read.specs.Netlists.{netlist_in};
ghost use Rattle.surface_top.specs.Answer.{by_netlist, bench_answer};
ghost use Rattle.surface_top.specs.Ending.{IsNoNetlist, Answered};

use crate::answers::put_text;
use crate::ending::Ending;
use bench_read::{Bench, BenchError, read_bench, write_circuit};
use run_writer::Buffer;
use std::alloc::Global;
use surf_outside::{Failed, Sink};

fn netlist(alloc: Global, text: &[u8]) -> Result<Bench, Ending>
    requires size { length text.now ≤ 67108864 }
    ensures ok { IfOk result (λ n. netlist_in text.now ≡ Ok n) }
    ensures err { IfErr result (λ e. IsNoNetlist e (netlist_in text.now)) }
{
    match read_bench(alloc, text) {
        Ok(bench) => Ok(bench),
        Err(BenchError::Fault(fault)) => Err(Ending::BadNetlist(fault)),
        Err(BenchError::Memory) => Err(Ending::Memory),
    }
}

/// Writes the circuit text of a netlist.
fn write_netlist<O: Sink>(alloc: Global, bench: &Bench, out: &mut O) -> Ending
    ensures { Answered (bench_answer bench.now) result (O.written out.old) (O.written out.new) (O.faults out.old) (O.faults out.new) }
{
    let mut text = Buffer::new(alloc);
    match write_circuit(bench, &mut text) {
        Ok(()) => put_text(out, text.bytes()),
        Err(Failed) => Ending::Memory,
    }
}

/// Reads a netlist and writes its circuit text.
pub(crate) fn answer_netlist<O: Sink>(alloc: Global, text: &[u8], out: &mut O) -> Ending
    requires { length text.now ≤ 67108864 }
    ensures { Answered (by_netlist bench_answer (netlist_in text.now)) result (O.written out.old) (O.written out.new) (O.faults out.old) (O.faults out.new) }
{
    let bench = match netlist(alloc, text) {
        Ok(bench) => bench,
        Err(ending) => return ending,
    };
    write_netlist(alloc, &bench, out)
}
