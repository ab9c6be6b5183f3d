//! The words of the command line.

ghost use Rattle.std.specs.Prelude.{◌≡◌, ◌⊎◌, IfErr};
ghost use Rattle.command_line.specs.declared.fault.CommandFault.TheVariants.{NotText, Memory};

use crate::fault::CommandFault;
use std::env;
use std::io::{Error, ErrorKind};

/// The words that the program was started with, its name first.
pub fn words(rt: &HostRuntime) -> Result<Vec<String>, CommandFault<'static>>
    ensures { IfErr result (λ fault. (fault ≡ NotText) ⊎ (fault ≡ Memory)) }
{
    match env::args(rt) {
        Ok(words) => Ok(words.collect(rt.alloc())?),
        Err(error) => Err(fault_of(&error)),
    }
}

/// Why there are no words.
fn fault_of(error: &Error) -> CommandFault<'static>
    ensures { (result ≡ NotText) ⊎ (result ≡ Memory) }
{
    if error.kind() == ErrorKind::InvalidData {
        CommandFault::NotText
    } else {
        CommandFault::Memory
    }
}
