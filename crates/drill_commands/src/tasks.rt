//! Reads a script, plays it, and shows what came of it.

ghost use Rattle.std.specs.Prelude.{◌≡◌, IfOk, IfErr, OnOk, map, string_bytes};
ghost use Rattle.command_line.specs.Reading.{IsWhole};
ghost use Rattle.drill_commands.specs.Performing.{IsWritten, PlaysScript, PerformsScript, PerformsInput, Performs};
ghost use Rattle.drill_commands.specs.Refusals.{IsNotDrilled, IsNotRead};
ghost use Rattle.drill_commands.specs.Shown.{IsShownOf};
ghost use Rattle.drill_commands.specs.Status.{status_of};
ghost use Rattle.drill_commands.specs.Words.{refusals};

use crate::complaint::complaint;
use crate::fault::NotDone;
use crate::lines::shown;
use crate::options;
use crate::playing::played;
use command_line::{DONE, ReadFault, read_whole, refuse, show, words};
use event_script::ScriptFault;
use http_wire::{Device, Source};
use schedule::{Durable, Honest, World};
use std::alloc::Global;
use std::io::{IsTerminal, Read, Write};

/// The longest script that is read (own rule).
const MAX_SCRIPT_LEN: usize = 8_388_608;

/// The bytes of the script, of which there may be 8,388,608.
fn read_bytes<R: Source>(alloc: Global, reader: &mut R) -> Result<Vec<u8>, NotDone>
    ensures whole { IfOk result (λ bytes.
        IsWhole (R.left reader.old) (R.left reader.new) MAX_SCRIPT_LEN bytes.items) }
    ensures fine { OnOk result (R.read_failures reader.new ≡ R.read_failures reader.old) }
    ensures fault { IfErr result (IsNotRead R.left R.read_failures reader.old reader.new) }
{
    match read_whole(alloc, reader, MAX_SCRIPT_LEN) {
        Ok(bytes) => Ok(bytes),
        Err(ReadFault::TooLarge) => Err(NotDone::TooLong),
        Err(why) => Err(NotDone::Read(why)),
    }
}

/// Plays the script, starts each end that is down then, and answers what is shown.
fn drill<D: Honest>(alloc: Global, bytes: &[u8]) -> Result<Vec<u8>, NotDone>
    ensures shown { IfOk result (λ text. IsShownOf bytes.now text.items) }
    ensures refusal { IfErr result (IsNotDrilled bytes.now) }
{
    let mut world: World<D> = played(alloc, bytes)?;
    shown(alloc, &mut world)
}

/// Says on a line of its own what is wrong with the line of a script that may not stand there.
fn explain<E: Write>(fault: &NotDone, script: &[u8], errors: &mut E) {
    if let NotDone::Script(ScriptFault::Unreadable { line }) = fault {
        if let Some(complaint) = complaint(script, *line) {
            // Nothing is left to be done if this text can't be written either.
            let _ = writeln!(errors, "drill: {complaint}");
        }
    }
}

/// Says on the standard error why a script is not played to its end, and answers the status. If it `explains`, it also
/// says what is wrong with a line that may not stand there.
fn tell<E: Write>(fault: NotDone, script: &[u8], errors: &mut E, explains: bool) -> u8
    ensures { result ≡ status_of fault }
{
    let status = fault.tell(errors);
    if explains {
        explain(&fault, script, errors);
    }
    status
}

/// Writes what is shown, and answers the status.
fn write_shown<O: Write>(output: &mut O, text: &[u8]) -> Result<u8, NotDone>
    ensures { IsWritten text.now (O.contents output.old) (O.contents output.new) result }
{
    match show(output, text) {
        Ok(()) => Ok(DONE),
        Err(fault) => Err(NotDone::Command(fault)),
    }
}

/// Plays the script of these bytes, writes what is shown of it, and answers the status. If nothing is shown, the
/// standard error says why.
fn play_script<O: Write, E: Write>(
    alloc: Global,
    script: &[u8],
    output: &mut O,
    errors: &mut E,
    explains: bool,
) -> Result<u8, NotDone>
    ensures { PlaysScript script.now (O.contents output.old) (O.contents output.new) result }
{
    // The kit's `Memory` would copy each file whole at every sync.
    match drill::<Durable>(alloc, script) {
        Ok(text) => write_shown(output, text.as_slice()),
        Err(fault) => Ok(tell(fault, script, errors, explains)),
    }
}

/// Reads the script to the end, plays it, and answers the status.
fn perform_script<R: Source, O: Write, E: Write>(
    alloc: Global,
    reader: &mut R,
    output: &mut O,
    errors: &mut E,
    explains: bool,
) -> Result<u8, NotDone>
    ensures { PerformsScript R.left R.read_failures reader.old reader.new (O.contents output.old)
        (O.contents output.new) result }
{
    match read_bytes(alloc, reader) {
        Ok(script) => play_script(alloc, script.as_slice(), output, errors, explains),
        Err(fault) => Err(fault),
    }
}

/// Plays the script that the input has, and answers the status. A fault's text goes to `errors`.
fn perform_input<R: Read, O: Write, E: Write>(
    alloc: Global,
    input: &mut R,
    output: &mut O,
    errors: &mut E,
    explains: bool,
) -> u8
    ensures { PerformsInput R.remaining input.old (O.contents output.old) (O.contents output.new) result }
{
    match perform_script(alloc, &mut Device::new(input), output, errors, explains) {
        Ok(status) => status,
        Err(fault) => fault.tell(errors),
    }
}

/// Performs what these words ask for, the program's name first, and answers the status. A fault's text
/// goes to `errors`, and then nothing is written to `output`. If it `explains`, what is wrong with a line of the script
/// follows the text that names it.
pub fn perform<R: Read, O: Write, E: Write>(
    alloc: Global,
    words: &[String],
    input: &mut R,
    output: &mut O,
    errors: &mut E,
    explains: bool,
) -> u8
    ensures { Performs R.remaining input.old (refusals (map string_bytes words.now)) (O.contents output.old)
        (O.contents output.new) result }
{
    match options::read(alloc, words) {
        Ok(()) => perform_input(alloc, input, output, errors, explains),
        Err(error) => refuse(alloc, "drill", &error, output, errors),
    }
}

/// The program: performs the words that it was started with, over the standard streams, and answers
/// the status. It explains what is wrong with a script to somebody who reads the standard error on a terminal.
pub fn main(rt: &HostRuntime) -> u8 {
    let explains = rt.stderr().is_terminal();
    match words(rt) {
        Ok(words) => perform(
            rt.alloc(),
            words.as_slice(),
            &mut rt.reader(),
            &mut rt.stdout(),
            &mut rt.stderr(),
            explains,
        ),
        Err(fault) => fault.tell("drill", &mut rt.stderr()),
    }
}
