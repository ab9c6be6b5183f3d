//! Prints a text.

ghost use Rattle.std.specs.Prelude.{◌≡◌, IfErr, OnOk};
ghost use Rattle.std.specs.Io.KnownBytes.{Appends};

use command_line::show;
use register_extracts::Why;
use std::io::Write;

/// Prints a text whole.
pub(crate) fn print<O: Write>(output: &mut O, text: &[u8]) -> Result<(), Why>
    ensures printed { OnOk result (Appends (O.contents output.old) (O.contents output.new) text.now) }
    ensures fault { IfErr result (λ why. why ≡ Why.Output) }
{
    match show(output, text) {
        Ok(()) => Ok(()),
        Err(_) => Err(Why::Output),
    }
}
