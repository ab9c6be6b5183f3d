//! Visits the register of a file.

ghost use Rattle.std.specs.Prelude.{◌≡◌, None};
ghost use Rattle.intake_process.specs.Process.{parts};
ghost use Rattle.intake_process.specs.Visits.{outputs};
ghost use Rattle.intake_commands.specs.Tasks.{EndsWith, IsFaultTold, Visits, VisitsCurrent, shown_verdict};
ghost use Rattle.intake_commands.specs.Tasks.{IsCurrentShown, is_not_earlier, refusal_of};

use crate::fault::NotDone;
use crate::folder::SiteFolder;
use crate::progress::TerminalProgress;
use crate::reported_fault::errand_fault;
use command_line::{DONE, show};
use database_places::{DatabaseFlaw, Place, show_verdict};
use intake_process::{Errand, IntakeProcess, Refusal, Visited};
use register_extracts::Why;
use register_store::OpenFault;
use sqlite::Error;
use sqlite_disk::Disk;
use std::alloc::Global;
use std::io::{Write, sink};

/// Does an errand to the register of this process, which lies in the file with this name. What was done stays whether
/// or not the files are then closed; if they are not, that is reported. If the errand judges the register, the output
/// says what is wrong with it, too. A register that was to be migrated and is none of an earlier version is checked. If
/// it is sound, the output says that it has this version already.
pub(crate) fn visit<'a, D: Disk + Drop, P: Place<D> + Drop, F: SiteFolder, O: Write, E: Write>(
    rt: &HostRuntime,
    name: &'a str,
    errand: Errand<'_>,
    process: &mut IntakeProcess<D, P>,
    folder: &mut F,
    output: &mut O,
    errors: &mut E,
) -> Result<u8, NotDone<'a>>
    requires { (parts P.lying process.old).intake ≡ None }
    ensures { Visits name.entry errand.entry (outputs (O.contents output.old) (F.Folder.pages folder.old))
        (outputs (O.contents output.new) (F.Folder.pages folder.new)) (parts P.lying process.old)
        (parts P.lying process.new) result }
{
    let mut progress = TerminalProgress::new(rt);
    let Visited {
        done,
        holding,
        closed,
        ..
    } = process.visit(rt.alloc(), errand, &mut progress, folder, output);
    tell_close(closed, name, errors);
    match done {
        Ok(()) => Ok(DONE),
        Err(why) => {
            let refusal = Refusal { why, holding };
            // By its tables a file may look like one of this version and be none: so it is checked.
            if is_not_earlier(why) {
                return visit_current(rt, name, refusal, process, folder, output, errors);
            }
            end_refused(
                rt.alloc(),
                process.place(),
                name,
                errand,
                refusal,
                folder,
                output,
            )
        }
    }
}

/// Checks the register of this process, which lies in the file with this name and was not migrated since it is none of
/// an earlier version. If it is sound, the output says that it has this version already. Nothing is written to it.
fn visit_current<'a, D: Disk + Drop, P: Place<D> + Drop, F: SiteFolder, O: Write, E: Write>(
    rt: &HostRuntime,
    name: &'a str,
    not_earlier: Refusal,
    process: &mut IntakeProcess<D, P>,
    folder: &mut F,
    output: &mut O,
    errors: &mut E,
) -> Result<u8, NotDone<'a>>
    requires { (parts P.lying process.old).intake ≡ None }
    ensures { VisitsCurrent name.entry not_earlier (outputs (O.contents output.old) (F.Folder.pages folder.old))
        (outputs (O.contents output.new) (F.Folder.pages folder.new)) (parts P.lying process.old)
        (parts P.lying process.new) result }
{
    let mut progress = TerminalProgress::new(rt);
    let mut unshown = sink();
    let Visited {
        done,
        holding,
        closed,
        ..
    } = process.visit(
        rt.alloc(),
        Errand::Check { against: None },
        &mut progress,
        folder,
        &mut unshown,
    );
    tell_close(closed, name, errors);
    match done {
        Ok(()) => show_current(output),
        Err(why) => end_refused(
            rt.alloc(),
            process.place(),
            name,
            Errand::Migrate,
            refusal_of(not_earlier, Refusal { why, holding }),
            folder,
            output,
        ),
    }
}

/// Prints that a register has this version already.
fn show_current<'a, O: Write>(output: &mut O) -> Result<u8, NotDone<'a>>
    ensures { IsCurrentShown (O.contents output.old) (O.contents output.new) result }
{
    show(output, b"has this version already\n")?;
    Ok(DONE)
}

/// Whether an errand was not done since the register that should be migrated is none of an earlier version.
fn is_not_earlier(why: Why) -> bool
    ensures { result ≡ is_not_earlier why }
{
    match why {
        Why::Migrate(OpenFault::NotOurs) => true,
        _ => false,
    }
}

/// Why a register that is none of an earlier version is not of this version either, as its check found it.
fn refusal_of(not_earlier: Refusal, checked: Refusal) -> Refusal
    ensures { result ≡ refusal_of not_earlier checked }
{
    match checked.why {
        Why::Open(OpenFault::NotOurs) => not_earlier,
        _ => checked,
    }
}

/// Gives back why this errand to the register that lies in this place, in the file with this name, is not done, and
/// prints the verdict on the register, if the errand judges it.
fn end_refused<'a, D: Disk + Drop, P: Place<D>, F: SiteFolder, O: Write>(
    alloc: Global,
    place: &P,
    name: &'a str,
    errand: Errand<'_>,
    refusal: Refusal,
    folder: &mut F,
    output: &mut O,
) -> Result<u8, NotDone<'a>>
    ensures told { IsFaultTold name.entry errand.entry refusal (O.contents output.old) (O.contents output.new)
        result }
    ensures same { F.Folder.pages folder.new ≡ F.Folder.pages folder.old }
{
    let told = errand_fault(alloc, place, folder, name, refusal);
    let verdict = shown_verdict(errand, &told);
    end_with(alloc, verdict, told, output)
}

/// Says if the files of a register are not closed. What was answered is kept then, in the log beside the file.
fn tell_close<E: Write>(closed: Result<(), Error>, name: &str, errors: &mut E) {
    if let Err(error) = closed {
        NotDone::not_closed(name, error).tell(errors);
    }
}

/// The verdict that is printed beside the text of a fault: that of a check or a migration on the register.
fn shown_verdict(errand: Errand<'_>, fault: &NotDone<'_>) -> Option<DatabaseFlaw>
    ensures { result ≡ shown_verdict errand.entry fault.now }
{
    match errand {
        Errand::Check { against: _ } => fault.verdict(),
        Errand::Migrate => fault.verdict(),
        _ => None,
    }
}

/// Prints the verdict, if there is one, and gives the fault back.
fn end_with<'a, O: Write>(
    alloc: Global,
    verdict: Option<DatabaseFlaw>,
    told: NotDone<'a>,
    output: &mut O,
) -> Result<u8, NotDone<'a>>
    ensures { EndsWith verdict told.entry (O.contents output.old) (O.contents output.new) result }
{
    if let Some(verdict) = verdict {
        show_verdict(alloc, verdict, "a register", output)?;
    }
    Err(told)
}
