//! The program `drill`: plays a script of events on an intake and the outboxes of its filers, all in memory, and shows
//! what came of it. What may live here: the one call of `drill_commands`.
#![tactic(auto)]

use std::process::ExitCode;

fn main(rt: HostRuntime) -> ExitCode {
    ExitCode::from(drill_commands::main(&rt))
}
