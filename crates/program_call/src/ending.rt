//! How a program ends that was called.

ghost use Rattle.std.specs.Prelude.{◌≡◌, Option};
ghost use Rattle.crew.specs.Crews.{CrewView};
ghost use Rattle.surf_kinds.specs.declared.status.Status.{Status};
ghost use Rattle.surf_kinds.specs.Status.{code_of};
ghost use Rattle.surface_words.specs.declared.commands.Program.TheVariants.{Surface};
ghost use Rattle.surface_top.specs.Reporting.{IsAnsweredCall};
ghost use Rattle.surface_top.specs.Watched.{IsWatchedCall};
ghost use Rattle.program_call.specs.Calls.{words_of, outside_of};

use crate::call::Call;
use crate::words::words_behind_name;
use std::alloc::Global;
use std::sync::Wait;
use std::thread::Threads;
use surf_outside::{OpenGate, Sink, Source};
use surface_top::{surface_main, watch_main};

/// Answers a call of the program `surface`, and gives the code of the status as the exit status.
pub fn surface_exit<R: Threads + Sync, S: Source, O: Sink, N: Sink>(
    rt: &R,
    alloc: Global,
    call: &mut Call<S, O, N>,
) -> u8
    ensures { (status : Status) × (kept : Option CrewView) × (result ≡ code_of status) × IsAnsweredCall Surface (words_of call.old) status kept (outside_of S.unread S.faults O.written O.faults N.written N.faults call.old) (outside_of S.unread S.faults O.written O.faults N.written N.faults call.new) }
{
    let mut kept = None;
    let words = words_behind_name(&call.words);
    let (source, out, notes) = (&mut call.source, &mut call.out, &mut call.notes);
    surface_main(rt, alloc, words, &mut kept, source, out, notes, &OpenGate).code()
}

/// Answers a call of the program `surface_watch`, and gives the code of the status as the exit status.
pub fn watch_exit<R: Threads + Wait + Sync, S: Source, O: Sink + Send, N: Sink>(
    rt: &R,
    alloc: Global,
    call: &mut Call<S, O, N>,
) -> u8
    ensures { (status : Status) × (kept : Option CrewView) × (result ≡ code_of status) × IsWatchedCall (words_of call.old) status kept (outside_of S.unread S.faults O.written O.faults N.written N.faults call.old) (outside_of S.unread S.faults O.written O.faults N.written N.faults call.new) }
{
    let mut kept = None;
    let words = words_behind_name(&call.words);
    let (source, out, notes) = (&mut call.source, &mut call.out, &mut call.notes);
    watch_main(rt, alloc, words, &mut kept, source, out, notes, &OpenGate).code()
}
