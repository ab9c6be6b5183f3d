//! What is printed of a database that is judged.

ghost use Rattle.std.specs.Prelude.{◌≡◌, ◌⊎◌, IfErr, IfOk, OnOk, string_bytes};
ghost use Rattle.std.specs.Io.KnownBytes.{Appends};
ghost use Rattle.command_line.specs.declared.fault.CommandFault.TheVariants.{Output, Memory};
ghost use Rattle.database_places.specs.Verdicts.{verdict_of, verdict_text};

use command_line::{CommandFault, DatabaseFault, show};
use std::alloc::{AllocError, Global};
use std::io::Write;

/// What is wrong with a database that a command takes for a register or an outbox.
#[derive(Clone, Copy)]
pub enum DatabaseFlaw {
    /// It is not one.
    NotOurs,
    /// It is damaged at this row.
    Damaged(u64),
}

impl DatabaseFlaw {
    /// The verdict on a file that was not opened for this cause, if the cause gives one: a database whose pages are
    /// wrong is damaged at row 0.
    pub fn of(fault: DatabaseFault) -> Option<DatabaseFlaw>
        ensures { result ≡ verdict_of fault }
    {
        match fault {
            DatabaseFault::Missing
            | DatabaseFault::Empty
            | DatabaseFault::NotADatabase
            | DatabaseFault::Foreign
            | DatabaseFault::AutoVacuum(_) => Some(DatabaseFlaw::NotOurs),
            DatabaseFault::Damaged | DatabaseFault::Unsummed(_) => Some(DatabaseFlaw::Damaged(0)),
            DatabaseFault::Busy
            | DatabaseFault::Memory
            | DatabaseFault::Denied
            | DatabaseFault::ReadOnly
            | DatabaseFault::Folder
            | DatabaseFault::NotAFile
            | DatabaseFault::Linked
            | DatabaseFault::Journal
            | DatabaseFault::NoFolder
            | DatabaseFault::Loop
            | DatabaseFault::LongName
            | DatabaseFault::Descriptors
            | DatabaseFault::Full
            | DatabaseFault::Disk => None,
        }
    }
}

/// Prints the verdict on a database that is expected to be this thing, such as `an outbox`.
pub fn show_verdict<'a, O: Write>(
    alloc: Global,
    verdict: DatabaseFlaw,
    thing: &str,
    output: &mut O,
) -> Result<(), CommandFault<'a>>
    ensures shown { OnOk result (Appends (O.contents output.old) (O.contents output.new)
        (verdict_text verdict thing.now)) }
    ensures quiet { IfErr result (λ fault.
        (fault ≡ Output) ⊎ ((fault ≡ Memory) × (O.contents output.new ≡ O.contents output.old))) }
{
    let text = verdict_text(alloc, verdict, thing)?;
    show(output, text.as_bytes())
}

/// The line of a verdict on a database that is expected to be this thing.
fn verdict_text(alloc: Global, verdict: DatabaseFlaw, thing: &str) -> Result<String, AllocError>
    ensures { IfOk result (λ text. string_bytes text ≡ verdict_text verdict thing.now) }
{
    match verdict {
        DatabaseFlaw::NotOurs => Ok(format!(in alloc; "not {thing}\n")?),
        DatabaseFlaw::Damaged(row) => Ok(format!(in alloc; "damaged at row {row}\n")?),
    }
}
