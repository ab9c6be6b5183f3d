//! The program `outbox`: keeps the reports that a filer is to send, and sends them. What may live here: the one call of
//! `outbox_commands`.
#![tactic(auto)]

use std::process::ExitCode;

fn main(rt: HostRuntime) -> ExitCode {
    ExitCode::from(outbox_commands::main(&rt))
}
