//! The first bytes of an output arrive at the outbox whose entry's request it answers.

ghost use Rattle.std.specs.Prelude.{◌≡◌, OnOk, Err, false};
ghost use Rattle.event_script.specs.Events.{view_crash};
ghost use Rattle.filing_world.specs.World.{Hand};
ghost use Rattle.filing_world.specs.Step.{is_no, Hands, CannotPlay};
ghost use Rattle.filing_world.specs.Invariant.{AllOwn, Keeps};
ghost use Rattle.schedule.specs.Filers.{boxes, takens};
ghost use Rattle.schedule.specs.Served.{Served};
ghost use Rattle.schedule.specs.Played.{world_of};
ghost use Rattle.schedule.specs.Playing.{AsksOutbox};

use crate::element::{first, index_of, sender_of, up_at};
use crate::ends::fault::EndFault;
use crate::ends::honest::Honest;
use crate::fault::Unplayed;
use crate::filer::Filer;
use crate::lists::{Output, Sent};
use event_script::Crash;

/// If the items that were sent for entries carry these, it is a step of the world.
pub(crate) fn hand<D: Honest>(
    filers: &mut Vec<Filer<D>>,
    sent: &[Sent],
    outputs: &[Output],
    output: u64,
    bytes: usize,
    crash: Crash,
) -> Result<(), Unplayed>
    ensures step { OnOk result ((server : Served) → AllOwn (boxes filers.old.items) sent.now
        → Hands (world_of server sent.now outputs.now filers.old.items) output bytes (view_crash crash)
        (world_of server sent.now outputs.now filers.new.items)) }
    ensures stays { OnOk result (takens filers.new.items ≡ takens filers.old.items) }
    ensures no_such { result ≡ Err Unplayed.NoSuch → (server : Served)
        → CannotPlay (world_of server sent.now outputs.now filers.old.items) (Hand output bytes (view_crash crash)) }
    ensures store { result ≡ Err (Unplayed.Refused EndFault.Store) → (server : Served)
        → Keeps (world_of server sent.now outputs.now filers.old.items)
        → AsksOutbox (world_of server sent.now outputs.now filers.old.items) (Hand output bytes (view_crash crash)) }
    ensures reopen { result ≡ Err (Unplayed.Refused EndFault.Reopen)
        → (is_no (view_crash crash) ≡ false) × ((server : Served)
        → ¬ CannotPlay (world_of server sent.now outputs.now filers.old.items)
        (Hand output bytes (view_crash crash))) }
{
    let Some(at) = index_of(output, outputs.len()) else {
        return Err(Unplayed::NoSuch);
    };
    let from = &outputs[at];
    let (outbox, entry) = sender_of(sent, from.item)?;
    let Some(index) = up_at(filers.as_slice(), outbox) else {
        return Err(Unplayed::NoSuch);
    };
    Ok(filers[index].hand(entry, first(from.bytes.as_slice(), bytes), crash)?)
}
