//! An outbox is opened again.

ghost use Rattle.std.specs.Prelude.{◌≡◌, ◌≢◌, List, OnOk, Err};
ghost use Rattle.filing_world.specs.World.{Sent as Item, Output as Left, RestartOutbox};
ghost use Rattle.filing_world.specs.Step.{Restarts, CannotPlay};
ghost use Rattle.schedule.specs.Filers.{takens};
ghost use Rattle.schedule.specs.Served.{Served};
ghost use Rattle.schedule.specs.Played.{world_of};

use crate::element::index_of;
use crate::ends::fault::EndFault;
use crate::ends::honest::Honest;
use crate::fault::Unplayed;
use crate::filer::Filer;

pub(crate) fn restart_outbox<D: Honest>(
    filers: &mut Vec<Filer<D>>,
    outbox: u64,
) -> Result<(), Unplayed>
    ensures step { OnOk result ((server : Served) (sent : List Item) (outputs : List Left)
        → Restarts (world_of server sent outputs filers.old.items) outbox
        (world_of server sent outputs filers.new.items)) }
    ensures stays { OnOk result (takens filers.new.items ≡ takens filers.old.items) }
    ensures no_such { result ≡ Err Unplayed.NoSuch → (server : Served) (sent : List Item) (outputs : List Left)
        → CannotPlay (world_of server sent outputs filers.old.items) (RestartOutbox outbox) }
    ensures store { result ≢ Err (Unplayed.Refused EndFault.Store) }
    ensures reopen { result ≡ Err (Unplayed.Refused EndFault.Reopen)
        → (server : Served) (sent : List Item) (outputs : List Left)
        → ¬ CannotPlay (world_of server sent outputs filers.old.items) (RestartOutbox outbox) }
{
    let Some(at) = index_of(outbox, filers.len()) else {
        return Err(Unplayed::NoSuch);
    };
    Ok(filers[at].restart()?)
}
