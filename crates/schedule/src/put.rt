//! A report is put into an outbox.

ghost use Rattle.std.specs.Prelude.{◌≡◌, ◌≢◌, List, OnOk, Err};
ghost use Rattle.http_messages.specs.Posting.{IsTarget};
ghost use Rattle.filing_world.specs.World.{Sent as Item, Output as Left, Put};
ghost use Rattle.filing_world.specs.Step.{Puts, CannotPlay};
ghost use Rattle.outbox_core.specs.Entries.{opened};
ghost use Rattle.schedule.specs.Filers.{boxes, takens};
ghost use Rattle.schedule.specs.Served.{Served};
ghost use Rattle.schedule.specs.Played.{world_of};
ghost use Rattle.schedule.specs.Playing.{IsUp};

use crate::element::up_at;
use crate::ends::fault::EndFault;
use crate::ends::honest::Honest;
use crate::fault::Unplayed;
use crate::filer::Filer;
use key_string::KeyText;

pub(crate) fn put<D: Honest>(
    filers: &mut Vec<Filer<D>>,
    outbox: u64,
    key: &KeyText,
    target: Option<u64>,
    body: &[u8],
) -> Result<(), Unplayed>
    requires { IsTarget target }
    ensures step { OnOk result ((server : Served) (sent : List Item) (outputs : List Left)
        → Puts (world_of server sent outputs filers.old.items) outbox (opened key.now target body.now)
        (world_of server sent outputs filers.new.items)) }
    ensures stays { OnOk result (takens filers.new.items ≡ takens filers.old.items) }
    ensures no_such { result ≡ Err Unplayed.NoSuch → (server : Served) (sent : List Item) (outputs : List Left)
        → CannotPlay (world_of server sent outputs filers.old.items) (Put outbox key.now target body.now) }
    ensures store { result ≡ Err (Unplayed.Refused EndFault.Store) → IsUp (boxes filers.old.items) outbox }
    ensures reopen { result ≢ Err (Unplayed.Refused EndFault.Reopen) }
{
    let Some(at) = up_at(filers.as_slice(), outbox) else {
        return Err(Unplayed::NoSuch);
    };
    Ok(filers[at].put(key, target, body)?)
}
