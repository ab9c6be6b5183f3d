//! Shows entries.

ghost use Rattle.outbox_process.specs.Lines.{long_line};
ghost use Rattle.outbox_process.specs.Looking.{AreAny};
ghost use Rattle.outbox_process.specs.Showing.{AreTold, ShowsStates, ShowsEntry, ShowsEach, body_of};

use crate::fault::Why;
use crate::tasks::lines::{print_bytes, print_long, print_states};
use crate::tasks::looking::{entry_of, states_of};
use outbox_core::{Outbox, State};
use sqlite::Alter;
use std::alloc::Global;
use std::io::Write;

/// Prints the state of each entry, in the order of the ids.
pub fn show_states<S: Alter, O: Write>(
    alloc: Global,
    outbox: &mut Outbox<S>,
    output: &mut O,
) -> Result<(), Why>
    ensures { ShowsStates S.Store outbox.old outbox.new (O.contents output.old) (O.contents output.new) result }
{
    let states = states_of(outbox)?;
    print_states(alloc, states.as_slice(), output)
}

/// Prints the entry of this id with its length, which filing it replaces, and its key. Answers `NoEntry` exactly if no
/// entry has the id.
pub fn show_entry<S: Alter, O: Write>(
    alloc: Global,
    outbox: &mut Outbox<S>,
    id: u64,
    output: &mut O,
) -> Result<(), Why>
    ensures { ShowsEntry S.Store long_line id outbox.old outbox.new (O.contents output.old) (O.contents output.new)
        result }
{
    let entry = entry_of(outbox, id)?;
    print_long(alloc, id, &entry, output)
}

/// Prints the report of the entry of this id: its bytes, and nothing else. Answers `NoEntry` exactly if no entry has
/// the id.
pub fn show_body<S: Alter, O: Write>(
    outbox: &mut Outbox<S>,
    id: u64,
    output: &mut O,
) -> Result<(), Why>
    ensures { ShowsEntry S.Store body_of id outbox.old outbox.new (O.contents output.old) (O.contents output.new)
        result }
{
    let entry = entry_of(outbox, id)?;
    print_bytes(entry.body.as_slice(), output)
}

/// Prints each entry as `show_entry` does, in the order of the ids.
pub fn show_each<S: Alter, O: Write>(
    alloc: Global,
    outbox: &mut Outbox<S>,
    output: &mut O,
) -> Result<(), Why>
    ensures { ShowsEach S.Store AreAny outbox.old outbox.new (O.contents output.old) (O.contents output.new) result }
{
    let states = states_of(outbox)?;
    show_those(alloc, outbox, states.as_slice(), output)
}

/// Prints these entries, which are all.
fn show_those<S: Alter, O: Write>(
    alloc: Global,
    outbox: &mut Outbox<S>,
    states: &[(u64, State)],
    output: &mut O,
) -> Result<(), Why>
    ensures { ShowsEach S.Store (AreTold states.now) outbox.old outbox.new (O.contents output.old)
        (O.contents output.new) result }
{
    for &(id, _) in states {
        show_entry(alloc, outbox, id, output)?;
    }
    Ok(())
}
