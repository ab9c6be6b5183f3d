//! Which fault is reported if something went wrong with the register of a file.

ghost use Rattle.std.specs.Prelude.{◌≡◌};
ghost use Rattle.intake_commands.specs.ReportedFault.{IsDatabaseTold, IsErrandTold, IsTold};

use crate::fault::NotDone;
use crate::folder::SiteFolder;
use command_line::{CommandFault, DatabaseFault};
use database_places::{Place, refusal as refusal_of_pages};
use intake_process::Refusal;
use register_extracts::Why;
use sqlite_disk::Disk;
use std::alloc::Global;

/// Why the files in this place, with this name, gave no database.
fn database_fault<'a, D: Disk + Drop, P: Place<D>>(
    alloc: Global,
    place: &P,
    name: &'a str,
    fault: DatabaseFault,
) -> NotDone<'a>
    ensures { IsDatabaseTold name.entry fault result }
{
    let fault = refusal_of_pages(alloc, place, fault);
    NotDone::Command(CommandFault::Database { name, fault })
}

/// Why the register that lies in this place, in the file with this name, was not opened.
pub(crate) fn opening_fault<'a, D: Disk + Drop, P: Place<D>>(
    alloc: Global,
    place: &P,
    name: &'a str,
    refusal: Refusal,
) -> NotDone<'a>
    ensures { IsTold name.entry refusal.why refusal.holding result }
{
    let Refusal { why, holding } = refusal;
    match why {
        Why::Files(fault) => database_fault(alloc, place, name, fault),
        Why::Memory => NotDone::Command(CommandFault::Memory),
        Why::Output => NotDone::Command(CommandFault::Output),
        _ => NotDone::Register { name, why, holding },
    }
}

/// Why an errand to the register that lies in this place, in the file with this name, is not done.
pub(crate) fn errand_fault<'a, D: Disk + Drop, P: Place<D>, F: SiteFolder>(
    alloc: Global,
    place: &P,
    folder: &mut F,
    name: &'a str,
    refusal: Refusal,
) -> NotDone<'a>
    ensures told { IsErrandTold name.entry refusal.why refusal.holding result }
    ensures same { F.Folder.pages folder.new ≡ F.Folder.pages folder.old }
{
    match refusal.why {
        Why::Folder => NotDone::Page(folder.take_fault()),
        _ => opening_fault(alloc, place, name, refusal),
    }
}
