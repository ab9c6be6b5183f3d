//! The process of an intake is opened in its drawer, asked, and closed.

ghost use Rattle.std.specs.Prelude.{◌≡◌, ◌≢◌, ◌≤◌, ◌^◌, ◌↔◌, ℕ, [], List, true, None, is_some, IfOk, IfErr, OnOk, Err};
ghost use Rattle.filing_model.specs.Request.{Request};
ghost use Rattle.filing_model.specs.Register.{register};
ghost use Rattle.schedule.specs.OutboxEnd.{lying_in};
ghost use Rattle.schedule.specs.Processes.{KeepsSurely, IsNotStarted, IsNotStopped, is_asleep};

use crate::ends::fault::EndFault;
use crate::ends::honest::Honest;
use database_places::{Drawer, Opening, PageCache};
use intake_core::Unavailable;
use intake_process::{Closed, IntakeProcess};
use register_store::Registered;
use std::alloc::Global;

/// The process of an intake that is open, over an empty register, which keeps at most `limit` keys.
pub(crate) fn make<D: Honest>(
    alloc: Global,
    limit: u64,
) -> Result<IntakeProcess<D, Drawer<D>>, EndFault>
    requires { limit ≤ 2 ^ 62 }
    ensures kept { IfOk result (λ process. KeepsSurely process limit []) }
    ensures up { IfOk result (λ process. is_some process.intake ≡ true) }
{
    let mut process = IntakeProcess::new(Drawer::new(alloc));
    process.open(alloc, Opening::Made(PageCache::OfTheFile), limit)?;
    Ok(process)
}

/// Opens the register that lies in the drawer of a process.
pub(crate) fn open<D: Honest>(
    alloc: Global,
    process: &mut IntakeProcess<D, Drawer<D>>,
    limit: u64,
) -> Result<(), EndFault>
    requires { limit ≤ 2 ^ 62 }
    ensures kept { (requests : List Request) → KeepsSurely process.old limit requests
        → OnOk result (KeepsSurely process.new limit requests) }
    ensures up { OnOk result (is_some process.new.intake ≡ true) }
    ensures refused { IfErr result
        (IsNotStarted D.Disk true (lying_in process.old.place) (lying_in process.new.place)) }
    ensures store { result ≢ Err EndFault.Store }
{
    match process.open(alloc, Opening::Found(PageCache::OfTheFile), limit) {
        Ok(_) => Ok(()),
        Err(refusal) => Err(EndFault::from(refusal)),
    }
}

/// Closes the register of a process, if it is open.
pub(crate) fn close<D: Honest>(process: &mut IntakeProcess<D, Drawer<D>>) -> Result<(), EndFault>
    ensures kept { (limit : ℕ) (requests : List Request) → KeepsSurely process.old limit requests
        → OnOk result (KeepsSurely process.new limit requests) }
    ensures closed { process.new.intake ≡ None }
    ensures refused { IfErr result (IsNotStopped process.old.intake (lying_in process.new.place)) }
    ensures store { result ≢ Err EndFault.Store }
{
    let Closed { kept: _, outcome } = process.close();
    match outcome {
        Ok(()) => Ok(()),
        Err(error) => Err(EndFault::of_close(error)),
    }
}

/// The registered requests under their numbers, ascending. Answers `Down` exactly if the process is closed or its
/// database refused an earlier call, and never `Full`.
pub(crate) fn registered<D: Honest>(
    process: &mut IntakeProcess<D, Drawer<D>>,
) -> Result<Vec<Registered>, Unavailable>
    ensures list { (limit : ℕ) (requests : List Request) → KeepsSurely process.old limit requests
        → IfOk result (λ rows. rows.items ≡ register requests) }
    ensures kept { (limit : ℕ) (requests : List Request) → KeepsSurely process.old limit requests
        → KeepsSurely process.new limit requests }
    ensures up { is_some process.new.intake ≡ is_some process.old.intake }
    ensures down { (result ≡ Err Unavailable.Down) ↔ (is_asleep process.old.intake ≡ true) }
    ensures room { (k : ℕ) → result ≢ Err (Unavailable.Full k) }
{
    match process.intake_mut() {
        Some(intake) => intake.register(),
        None => Err(Unavailable::Down),
    }
}
