//! What a command shows.

ghost use Rattle.std.specs.Prelude.{◌≡◌, IfErr, OnOk};
ghost use Rattle.std.specs.Io.KnownBytes.{Appends};
ghost use Rattle.clap.specs.Values.{kind_of};
ghost use Rattle.command_line.specs.Status.{IsRefusalStatus};
ghost use Rattle.command_line.specs.declared.fault.CommandFault.TheVariants.{Output};

use crate::fault::CommandFault;
use clap::Error;
use clap::error::ErrorKind;
use std::alloc::Global;
use std::fmt;
use std::io::Write;
use terminal_text::OneLine;

/// The status of a command that is done.
pub const DONE: u8 = 0;

/// Writes a text whole.
pub fn show<'a, O: Write>(output: &mut O, text: &[u8]) -> Result<(), CommandFault<'a>>
    ensures shown { OnOk result (Appends (O.contents output.old) (O.contents output.new) text.now) }
    ensures fault { IfErr result (λ fault. fault ≡ Output) }
{
    if output.write_all(text).is_err() || output.flush().is_err() {
        return Err(CommandFault::Output);
    }
    Ok(())
}

/// Writes why this program does not do what it was asked for, as a line.
pub fn tell<F: fmt::Display, E: Write>(program: &str, fault: &F, errors: &mut E) {
    // Nothing is left to be done if this text can't be written either.
    let _ = writeln!(errors, "{program}: {fault}");
}

/// Writes what the reader says of wrong words. A word of it may be any text.
fn explain<E: Write>(alloc: Global, error: &Error, errors: &mut E) {
    // If memory is short, or this text can't be written either, nothing is left to do.
    if let Ok(text) = format!(in alloc; "{error}") {
        for line in text.lines() {
            let _ = writeln!(errors, "{}", OneLine(line));
        }
    }
}

/// Shows what the reader of the command line says of the words of this program, and answers the status: help and the
/// version are what was asked for; anything else is a fault of the words or of memory.
pub fn refuse<O: Write, E: Write>(
    alloc: Global,
    program: &str,
    error: &Error,
    output: &mut O,
    errors: &mut E,
) -> u8
    ensures { IsRefusalStatus (kind_of error.now) result }
{
    if error.kind() == ErrorKind::OutOfMemory {
        return CommandFault::Memory.tell(program, errors);
    }
    if error.use_stderr() {
        explain(alloc, error, errors);
        return CommandFault::NoTask.status();
    }
    if write!(output, "{error}").is_err() || output.flush().is_err() {
        return CommandFault::Output.tell(program, errors);
    }
    DONE
}
