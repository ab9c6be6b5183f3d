//! The lines that are printed.

ghost use Rattle.std.specs.Prelude.{◌≡◌, Some, IfOk, IfErr, OnOk, flat_map, string_bytes};
ghost use Rattle.std.specs.Io.KnownBytes.{Appends};
ghost use Rattle.filing_model.specs.Views.{view_state};
ghost use Rattle.outbox_core.specs.Reading.{view_entry};
ghost use Rattle.outbox_process.specs.Faults.{IsNotPrinted};
ghost use Rattle.outbox_process.specs.Lines.{id_line, entry_line, front_part, size_part, target_part, long_line};
ghost use Rattle.outbox_process.specs.Lines.{nothing_open, told_line};

use crate::fault::Why;
use command_line::show;
use outbox_core::{Entry, State};
use std::alloc::{AllocError, Global};
use std::io::Write;

/// Prints a text whole.
fn print<O: Write>(text: &str, output: &mut O) -> Result<(), Why>
    ensures printed { OnOk result (Appends (O.contents output.old) (O.contents output.new) text.now) }
    ensures refused { IfErr result IsNotPrinted }
{
    print_bytes(text.as_bytes(), output)
}

/// Prints bytes whole.
pub(crate) fn print_bytes<O: Write>(text: &[u8], output: &mut O) -> Result<(), Why>
    ensures printed { OnOk result (Appends (O.contents output.old) (O.contents output.new) text.now) }
    ensures refused { IfErr result IsNotPrinted }
{
    match show(output, text) {
        Ok(()) => Ok(()),
        Err(_) => Err(Why::Output),
    }
}

/// Prints the id of an entry.
pub(crate) fn print_id<O: Write>(alloc: Global, id: u64, output: &mut O) -> Result<(), Why>
    ensures printed { OnOk result (Appends (O.contents output.old) (O.contents output.new) (id_line id)) }
    ensures refused { IfErr result IsNotPrinted }
{
    let text = format!(in alloc; "entry {id}\n")?;
    print(text.as_str(), output)
}

/// Prints the state of an entry.
pub(crate) fn print_state<O: Write>(
    alloc: Global,
    id: u64,
    state: State,
    output: &mut O,
) -> Result<(), Why>
    ensures printed { OnOk result
        (Appends (O.contents output.old) (O.contents output.new) (entry_line id (view_state state))) }
    ensures refused { IfErr result IsNotPrinted }
{
    let text = format!(in alloc; "entry {id} {state}\n")?;
    print(text.as_str(), output)
}

/// Prints the state of each of these entries, all in one text.
pub(crate) fn print_states<O: Write>(
    alloc: Global,
    states: &[(u64, State)],
    output: &mut O,
) -> Result<(), Why>
    ensures printed { OnOk result
        (Appends (O.contents output.old) (O.contents output.new) (flat_map told_line states.now)) }
    ensures refused { IfErr result IsNotPrinted }
{
    let text = state_lines(alloc, states)?;
    print(text.as_str(), output)
}

/// The lines of these entries.
fn state_lines(alloc: Global, states: &[(u64, State)]) -> Result<String, AllocError>
    ensures { IfOk result (λ text. string_bytes text ≡ flat_map told_line states.now) }
{
    let mut text = String::new(alloc);
    for &(id, state) in states {
        text.push_str(format!(in alloc; "entry {id} {state}\n")?.as_str())?;
    }
    Ok(text)
}

/// Prints the state of an entry, its length, which filing it replaces, and its key, which is last because it may have
/// spaces.
pub(crate) fn print_long<O: Write>(
    alloc: Global,
    id: u64,
    entry: &Entry,
    output: &mut O,
) -> Result<(), Why>
    ensures printed { OnOk result
        (Appends (O.contents output.old) (O.contents output.new) (long_line (id, (view_entry entry.now).1))) }
    ensures refused { IfErr result IsNotPrinted }
{
    let text = long_text(alloc, id, entry)?;
    print(text.as_str(), output)
}

/// The line of such an entry.
fn long_text(alloc: Global, id: u64, entry: &Entry) -> Result<String, AllocError>
    ensures { IfOk result (λ text. string_bytes text ≡ long_line (id, (view_entry entry.now).1)) }
{
    let mut text = front_text(alloc, id, entry.state)?;
    let size = size_text(alloc, entry.body.len())?;
    text.push_str(size.as_str())?;
    let replaces = target_text(alloc, entry.target)?;
    text.push_str(replaces.as_str())?;
    text.push_str(", key ")?;
    text.push_str(entry.key.as_str())?;
    text.push_str("\n")?;
    Ok(text)
}

/// Its id and its state.
fn front_text(alloc: Global, id: u64, state: State) -> Result<String, AllocError>
    ensures { IfOk result (λ text. string_bytes text ≡ front_part id (view_state state)) }
{
    let text = format!(in alloc; "entry {id} {state}, ")?;
    Ok(text)
}

/// Its length.
fn size_text(alloc: Global, bytes: usize) -> Result<String, AllocError>
    ensures { IfOk result (λ text. string_bytes text ≡ size_part bytes) }
{
    let text = format!(in alloc; "{bytes} bytes")?;
    Ok(text)
}

/// Which filing it replaces, or nothing.
fn target_text(alloc: Global, target: Option<u64>) -> Result<String, AllocError>
    ensures { IfOk result (λ text. string_bytes text ≡ target_part target) }
{
    match target {
        Some(number) => replaces_text(alloc, number),
        None => Ok(String::new(alloc)),
    }
}

fn replaces_text(alloc: Global, number: u64) -> Result<String, AllocError>
    ensures { IfOk result (λ text. string_bytes text ≡ target_part (Some number)) }
{
    let text = format!(in alloc; ", replaces {number}")?;
    Ok(text)
}

/// Prints that no entry is open.
pub(crate) fn print_none<O: Write>(output: &mut O) -> Result<(), Why>
    ensures printed { OnOk result (Appends (O.contents output.old) (O.contents output.new) nothing_open) }
    ensures refused { IfErr result IsNotPrinted }
{
    print("nothing open\n", output)
}
