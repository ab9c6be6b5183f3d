//! The program `intake`: answers the HTTP requests of filers, from standard input or a port, and shows what its
//! register holds. What may live here: the one call of `intake_commands`.
#![tactic(auto)]

use std::process::ExitCode;

fn main(rt: HostRuntime) -> ExitCode {
    ExitCode::from(intake_commands::main(&rt))
}
