//! The intake's end: the process that it runs in, with the requests that it completed.

ghost use Rattle.std.specs.Prelude.{◌≡◌, ◌≢◌, ◌≤◌, ◌^◌, ◌++◌, ◌↔◌, [], ℕ, List, true, false, Some, IsSome, is_some};
ghost use Rattle.std.specs.Prelude.{IfOk, IfSome, OnOk, Err, length};
ghost use Rattle.http_messages.specs.Message.{Arrival, Ending};
ghost use Rattle.event_script.specs.Events.{view_crash};
ghost use Rattle.filing_model.specs.Request.{Request, firsts};
ghost use Rattle.filing_model.specs.Register.{register};
ghost use Rattle.filing_model.specs.Serving.{BeginsArrivals};
ghost use Rattle.filing_model.specs.Text.{completed};
ghost use Rattle.filing_world.specs.Step.{is_no};
ghost use Rattle.sqlite.specs.Files.{over_files};
ghost use Rattle.intake_core.specs.Held.{HoldsRequests};
ghost use Rattle.gateway_server.specs.Stopping.{view_stop};
ghost use Rattle.schedule.specs.Processes.{KeepsSurely};

use crate::delivery::{Exchange, serve_bytes};
use crate::ends::fault::EndFault;
use crate::ends::honest::Honest;
use crate::opening::{close, make, open, registered};
use database_places::Drawer;
use event_script::Crash;
use filing_model::{Ended, Mark};
use gateway_server::{Stop, completed};
use intake_core::{Intake, Unavailable};
use intake_process::IntakeProcess;
use register_store::{Completed, Registered};
use sqlite::FileStore;
use std::alloc::{AllocError, Global};
use std::marker::Model;

/// The intake with the requests that it completed.
pub(crate) struct Server<D: Honest> {
    alloc: Global,
    limit: u64,
    done: Vec<Completed>,
    /// `None` after a fault. Then no event is played.
    process: Option<IntakeProcess<D, Drawer<D>>>,
}

impl<D: Honest> Model for Server<D> {
    ghost use Rattle.std.specs.Prelude.{◌≤◌, ◌^◌};
    ghost use Rattle.filing_model.specs.Request.{firsts};
    ghost use Rattle.schedule.specs.Served.{Served};
    ghost use Rattle.schedule.specs.Processes.{Keeps, is_up, is_taken};

    ghost Value = { Served };

    ghost view = { λ s. record {
      limit = s.limit;
      done = s.done.items;
      up = is_up s.process;
      taken = is_taken s.process;
    } };

    ghost invariant = { λ s. (s.limit ≤ 2 ^ 62) × Keeps s.process s.limit (firsts s.done.items) };
}

impl<D: Honest> Drop for Server<D> {
    fn drop(self) {
        let Server {
            alloc: _,
            limit: _,
            done: _,
            process: _,
        } = self;
    }
}

/// What became of one delivery.
#[derive(Drop)]
pub(crate) struct Delivered {
    /// How many requests were completed before it.
    pub(crate) before: usize,
    /// The marks of its requests, in order.
    pub(crate) marks: Vec<Mark>,
    /// How its connection ended, unless it was stopped.
    pub(crate) ended: Option<Ended>,
    /// The bytes that were written.
    pub(crate) text: Vec<u8>,
}

/// Where serving a delivery stops.
fn stop_of(crash: Crash) -> Stop
    ensures { view_stop result ≡ view_crash crash }
{
    match crash {
        Crash::No => Stop::Never,
        Crash::Before(request) => Stop::Before(request),
        Crash::After(request) => Stop::After(request),
    }
}

/// Closes the register of a process after a delivery with a crash.
fn stop_by<D: Honest>(
    process: &mut IntakeProcess<D, Drawer<D>>,
    crash: Crash,
) -> Result<(), EndFault>
    ensures kept { (limit : ℕ) (requests : List Request) → KeepsSurely process.old limit requests
        → OnOk result (KeepsSurely process.new limit requests) }
    ensures up { is_some process.old.intake ≡ true
        → OnOk result (is_some process.new.intake ≡ is_no (view_crash crash)) }
    ensures store { result ≢ Err EndFault.Store }
    ensures reopen { result ≡ Err EndFault.Reopen → is_no (view_crash crash) ≡ false }
{
    match crash {
        Crash::No => Ok(()),
        Crash::Before(_) => close(process),
        Crash::After(_) => close(process),
    }
}

/// Appends the requests that these bytes completed.
fn append_completed(
    alloc: Global,
    done: &mut Vec<Completed>,
    bytes: &[u8],
    marks: &[Mark],
) -> Result<(), AllocError>
    ensures { OnOk result ((arrivals : List Arrival) (ending : Ending)
        → BeginsArrivals bytes.now arrivals ending → length marks.now ≤ length arrivals
        → done.new.items ≡ done.old.items ++ completed arrivals marks.now) }
{
    for request in completed(alloc, bytes, marks)? {
        done.reserve(1)?;
        done.push_reserved(request);
    }
    Ok(())
}

impl<D: Honest> Server<D> {
    ghost use Rattle.schedule.specs.Delivery.{IsDelivered};

    /// An intake that is up, over an empty register, which keeps at most `limit` keys.
    pub(crate) fn new(alloc: Global, limit: u64) -> Result<Server<D>, EndFault>
        requires { limit ≤ 2 ^ 62 }
        ensures made { IfOk result (λ s. s ≡ record { limit = limit; done = []; up = true; taken = false }) }
    {
        Ok(Server {
            alloc,
            limit,
            done: Vec::new(alloc),
            process: Some(make(alloc, limit)?),
        })
    }

    /// Whether the intake is up.
    pub(crate) fn is_up(&self) -> bool
        ensures { result ≡ self.now.up }
    {
        match &self.process {
            Some(process) => process.is_open(),
            None => false,
        }
    }

    /// The requests that were completed so far.
    pub(crate) fn done(&self) -> &[Completed]
        ensures { result.now ≡ self.now.done }
    {
        self.done.as_slice()
    }

    /// The intake, if it is up.
    pub(crate) fn intake(&self) -> Option<&Intake<FileStore<D>>>
        ensures lent { IsSome result ↔ (self.now.up ≡ true) }
        ensures keeps { IfSome result (λ intake. HoldsRequests over_files intake.now (firsts self.now.done)) }
    {
        match &self.process {
            Some(process) => process.intake(),
            None => None,
        }
    }

    /// Serves the bytes of a delivery, and stops where the crash says.
    pub(crate) fn deliver(&mut self, bytes: &[u8], crash: Crash) -> Result<Delivered, EndFault>
        requires { self.old.up ≡ true }
        ensures delivered { IfOk result (IsDelivered self.old self.new bytes.now (view_crash crash)) }
        ensures store { result ≢ Err EndFault.Store }
        ensures reopen { result ≡ Err EndFault.Reopen → is_no (view_crash crash) ≡ false }
    {
        let before = self.done.len();
        // It is taken out first, so that a refusal on the way leaves no end.
        let Some(mut process) = self.process.take() else {
            unreachable!();
        };
        let exchange = serve_bytes(self.alloc, &mut process, bytes, stop_of(crash))?;
        append_completed(self.alloc, &mut self.done, bytes, exchange.marks.as_slice())?;
        stop_by(&mut process, crash)?;
        self.process = Some(process);
        let Exchange { marks, ended, text } = exchange;
        Ok(Delivered {
            before,
            marks,
            ended,
            text,
        })
    }

    /// Closes the register, if it is open, and opens it again.
    pub(crate) fn restart(&mut self) -> Result<(), EndFault>
        ensures restarted { OnOk result (self.new ≡ record self.old { up = true }) }
        ensures store { result ≢ Err EndFault.Store }
    {
        // As in `deliver`, a refusal in between leaves no end.
        let Some(mut process) = self.process.take() else {
            return Err(EndFault::Reopen);
        };
        close(&mut process)?;
        open(self.alloc, &mut process, self.limit)?;
        self.process = Some(process);
        Ok(())
    }

    /// The registered requests under their numbers, ascending. Answers `Down` if the intake is down, and after `Store`;
    /// never answers `Full`.
    pub(crate) fn register(&mut self) -> Result<Vec<Registered>, Unavailable>
        ensures list { IfOk result (λ rows. rows.items ≡ register self.old.done) }
        ensures down { self.old.up ≡ false → result ≡ Err Unavailable.Down }
        ensures room { (k : ℕ) → result ≢ Err (Unavailable.Full k) }
        ensures same { self.new ≡ self.old }
    {
        match &mut self.process {
            Some(process) => registered(process),
            None => Err(Unavailable::Down),
        }
    }
}
