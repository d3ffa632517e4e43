//! The report line of a run.

ghost use Rattle.std.specs.Prelude.{◌≡◌, ◌≤◌, IfOk, string_bytes};
ghost use Rattle.surface_top.specs.Outcome.{sink_view};
ghost use Rattle.surface_top.specs.Reporting.{report_text, Noted};

use crate::ending::Ending;
use crew::Report;
use std::alloc::{AllocError, Global};
use surf_outside::{Failed, Sink, put_all};

/// The report line.
fn report_line(alloc: Global, report: Report) -> Result<String, AllocError>
    ensures { IfOk result (λ line. string_bytes line ≡ report_text report) }
{
    let regions = report.regions;
    let rounds = report.rounds;
    let fired = report.fired;
    let committed = report.committed;
    let cancelled = report.cancelled;
    format!(in alloc;
        "report regions {regions} rounds {rounds} fired {fired} committed {committed} cancelled {cancelled}\n"
    )
}

/// Writes the report line, and gives how the call ends then.
pub(crate) fn put_report<N: Sink>(alloc: Global, report: Report, notes: &mut N) -> Ending
    ensures noted { Noted result (report_text report) (sink_view (N.written notes.old) (N.faults notes.old)) (sink_view (N.written notes.new) (N.faults notes.new)) }
    ensures later { N.faults notes.old ≤ N.faults notes.new }
{
    match report_line(alloc, report) {
        Ok(line) => match put_all(notes, line.as_bytes()) {
            Ok(()) => Ending::Done,
            Err(Failed) => Ending::WriteFault,
        },
        Err(_) => Ending::Memory,
    }
}
