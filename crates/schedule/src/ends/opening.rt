//! The process of an outbox is made in a drawer, opened there again, and closed.

ghost use Rattle.std.specs.Prelude.{◌≡◌, ◌≢◌, [], ℕ, List, true, None, is_some, IfOk, IfErr, OnOk, Err};
ghost use Rattle.filing_model.specs.Outbox.{Entry as Item};
ghost use Rattle.schedule.specs.OutboxEnd.{KeepsSurely, IsNotOpenedIn, IsNotClosedIn, lying_in};

use crate::ends::fault::EndFault;
use crate::ends::honest::Honest;
use database_places::Drawer;
use outbox_process::{Beginning, OutboxProcess};
use std::alloc::Global;

/// The process of an outbox of this filer that is open and has no entries.
pub(crate) fn make<D: Honest>(
    alloc: Global,
    filer: &str,
) -> Result<OutboxProcess<D, Drawer<D>>, EndFault>
    ensures kept { IfOk result (λ process. KeepsSurely process filer.now []) }
    ensures up { IfOk result (λ process. is_some process.outbox ≡ true) }
{
    let mut process = OutboxProcess::new(Drawer::new(alloc));
    process.open(alloc, Beginning::Made { filer })?;
    Ok(process)
}

/// Opens the outbox that lies in the drawer of a process, unless it is open.
pub(crate) fn open<D: Honest>(
    alloc: Global,
    process: &mut OutboxProcess<D, Drawer<D>>,
) -> Result<(), EndFault>
    ensures kept { (filer : List ℕ) (entries : List Item) → KeepsSurely process.old filer entries
        → OnOk result (KeepsSurely process.new filer entries) }
    ensures up { OnOk result (is_some process.new.outbox ≡ true) }
    ensures refused { IfErr result
        (IsNotOpenedIn D.Disk (lying_in process.old.place) (lying_in process.new.place)) }
    ensures store { result ≢ Err EndFault.Store }
{
    match process.open(alloc, Beginning::Found) {
        Ok(()) => Ok(()),
        Err(refusal) => Err(EndFault::from(refusal)),
    }
}

/// Closes the outbox of a process, if it is open.
pub(crate) fn close<D: Honest>(process: &mut OutboxProcess<D, Drawer<D>>) -> Result<(), EndFault>
    ensures kept { (filer : List ℕ) (entries : List Item) → KeepsSurely process.old filer entries
        → OnOk result (KeepsSurely process.new filer entries) }
    ensures closed { process.new.outbox ≡ None }
    ensures refused { IfErr result
        (IsNotClosedIn process.old.outbox (lying_in process.old.place) (lying_in process.new.place)) }
    ensures store { result ≢ Err EndFault.Store }
{
    match process.close() {
        Ok(()) => Ok(()),
        Err(error) => Err(EndFault::of_close(error)),
    }
}
