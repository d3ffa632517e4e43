//! The program `surface_watch`.
#![tactic(auto)]

use program_call::{Call, watch_exit};
use std::process::ExitCode;

/// Ends with the code of the top call's status, or of why the program has no words; then it writes nothing.
fn main(rt: HostRuntime) -> ExitCode {
    match Call::given(&rt, rt.stdin(), rt.stdout(), rt.stderr()) {
        Ok(mut call) => ExitCode::from(watch_exit(&rt, rt.alloc(), &mut call)),
        Err(none) => ExitCode::from(none.code()),
    }
}
