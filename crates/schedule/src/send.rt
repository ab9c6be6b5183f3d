//! The request of an entry is sent, or someone else's bytes.

ghost use Rattle.std.specs.Prelude.{◌≡◌, ◌≢◌, ◌∷◌, ◌++◌, [], List, OnOk, Err, None};
ghost use Rattle.filing_world.specs.World.{Output as Left, Send};
ghost use Rattle.filing_world.specs.Step.{Sends, CannotPlay};
ghost use Rattle.schedule.specs.Filers.{boxes, takens};
ghost use Rattle.schedule.specs.Served.{Served};
ghost use Rattle.schedule.specs.Played.{world_of};
ghost use Rattle.schedule.specs.Playing.{IsUp};

use crate::element::up_at;
use crate::ends::fault::EndFault;
use crate::ends::honest::Honest;
use crate::fault::Unplayed;
use crate::filer::Filer;
use crate::lists::Sent;
use std::alloc::{AllocError, Global};

pub(crate) fn send<D: Honest>(
    filers: &mut Vec<Filer<D>>,
    sent: &mut Vec<Sent>,
    outbox: u64,
    entry: u64,
) -> Result<(), Unplayed>
    ensures step { OnOk result ((server : Served) (outputs : List Left)
        → Sends (world_of server sent.old.items outputs filers.old.items) outbox entry
        (world_of server sent.new.items outputs filers.new.items)) }
    ensures stays { OnOk result (takens filers.new.items ≡ takens filers.old.items) }
    ensures no_such { result ≡ Err Unplayed.NoSuch → (server : Served) (outputs : List Left)
        → CannotPlay (world_of server sent.old.items outputs filers.old.items) (Send outbox entry) }
    ensures store { result ≡ Err (Unplayed.Refused EndFault.Store) → IsUp (boxes filers.old.items) outbox }
    ensures reopen { result ≢ Err (Unplayed.Refused EndFault.Reopen) }
{
    let Some(at) = up_at(filers.as_slice(), outbox) else {
        return Err(Unplayed::NoSuch);
    };
    sent.reserve(1)?;
    let Some(bytes) = filers[at].request(entry)? else {
        return Err(Unplayed::NoSuch);
    };
    sent.push_reserved(Sent {
        from: Some((outbox, entry)),
        bytes,
    });
    Ok(())
}

pub(crate) fn send_bytes(
    alloc: Global,
    sent: &mut Vec<Sent>,
    bytes: &[u8],
) -> Result<(), AllocError>
    ensures { OnOk result (sent.new.items ≡ sent.old.items ++ record { from = None; bytes = bytes.now } ∷ []) }
{
    let mut copy = Vec::new(alloc);
    copy.extend_from_slice(bytes)?;
    sent.reserve(1)?;
    sent.push_reserved(Sent {
        from: None,
        bytes: copy,
    });
    Ok(())
}
