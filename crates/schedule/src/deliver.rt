//! The first bytes of an item arrive at the intake.

ghost use Rattle.std.specs.Prelude.{◌≡◌, ◌≢◌, List, OnOk, Err, false};
ghost use Rattle.event_script.specs.Events.{view_crash};
ghost use Rattle.filing_world.specs.World.{Deliver};
ghost use Rattle.filing_world.specs.Step.{is_no, Delivers, CannotPlay};
ghost use Rattle.schedule.specs.Filers.{FilerParts};
ghost use Rattle.schedule.specs.Played.{world_of};

use crate::element::{first, index_of};
use crate::ends::fault::EndFault;
use crate::ends::honest::Honest;
use crate::fault::Unplayed;
use crate::lists::{Output, Sent};
use crate::server::{Delivered, Server};
use event_script::Crash;

pub(crate) fn deliver<D: Honest>(
    server: &mut Server<D>,
    sent: &[Sent],
    outputs: &mut Vec<Output>,
    item: u64,
    bytes: usize,
    crash: Crash,
) -> Result<(), Unplayed>
    ensures step { OnOk result ((filers : List FilerParts)
        → Delivers (world_of server.old sent.now outputs.old.items filers) item bytes (view_crash crash)
        (world_of server.new sent.now outputs.new.items filers)) }
    ensures stays { OnOk result (server.new.taken ≡ server.old.taken) }
    ensures no_such { result ≡ Err Unplayed.NoSuch → (filers : List FilerParts)
        → CannotPlay (world_of server.old sent.now outputs.old.items filers) (Deliver item bytes (view_crash crash)) }
    ensures store { result ≢ Err (Unplayed.Refused EndFault.Store) }
    ensures reopen { result ≡ Err (Unplayed.Refused EndFault.Reopen)
        → (is_no (view_crash crash) ≡ false) × ((filers : List FilerParts)
        → ¬ CannotPlay (world_of server.old sent.now outputs.old.items filers)
        (Deliver item bytes (view_crash crash))) }
{
    if !server.is_up() {
        return Err(Unplayed::NoSuch);
    }
    let Some(at) = index_of(item, sent.len()) else {
        return Err(Unplayed::NoSuch);
    };
    outputs.reserve(1)?;
    let from = &sent[at];
    let given = first(from.bytes.as_slice(), bytes);
    let Delivered {
        before,
        marks,
        ended,
        text,
    } = server.deliver(given, crash)?;
    outputs.push_reserved(Output {
        item,
        given: given.len(),
        before,
        marks,
        ended,
        bytes: text,
    });
    Ok(())
}
