//! What has a number in a list, counted from 1.

ghost use Rattle.std.specs.Prelude.{◌≡◌, ◌≢◌, ◌<◌, ◌⊎◌, suc, Some, None, IfSome, IfOk, Err, length, slice_get, take};
ghost use Rattle.std.specs.Prelude.{true};
ghost use Rattle.filing_world.specs.World.{Sent as Item, numbered};
ghost use Rattle.filing_world.specs.Step.{IsAway};
ghost use Rattle.schedule.specs.Filers.{FilerParts, boxes};
ghost use Rattle.schedule.specs.Played.{IsLent};

use crate::ends::fault::EndFault;
use crate::ends::honest::Honest;
use crate::fault::Unplayed;
use crate::filer::Filer;
use crate::lists::Sent;
use outbox_core::Outbox;
use sqlite::FileStore;

/// The index of the element of this number, if there are so many.
pub(crate) fn index_of(number: u64, count: usize) -> Option<usize>
    ensures some { IfSome result (λ at. (number ≡ suc at) × (at < count)) }
    ensures none { result ≡ None → (number ≡ 0) ⊎ (count < number) }
{
    if number == 0 {
        return None;
    }
    let at = (number - 1) as usize;
    if at < count { Some(at) } else { None }
}

/// The index of the outbox of this number, if it is up.
pub(crate) fn up_at<D: Honest>(filers: &[Filer<D>], outbox: u64) -> Option<usize>
    ensures some { IfSome result (λ at. (outbox ≡ suc at)
        × (it : FilerParts) × (slice_get filers.now at ≡ Some it) × (it.box.up ≡ true) × (at < length filers.now)) }
    ensures none { result ≡ None → IsAway (boxes filers.now) outbox }
{
    let at = index_of(outbox, filers.len())?;
    if filers[at].is_up() { Some(at) } else { None }
}

/// The outbox of this number, if it is up.
pub(crate) fn outbox_at<D: Honest>(
    filers: &[Filer<D>],
    outbox: u64,
) -> Option<&Outbox<FileStore<D>>>
    ensures lent { IfSome result (λ it. IsLent (boxes filers.now) outbox it.now) }
    ensures none { result ≡ None → IsAway (boxes filers.now) outbox }
{
    let at = index_of(outbox, filers.len())?;
    let filer = &filers[at];
    filer.outbox()
}

/// The numbers of the outbox and the entry that this item was sent for. Answers `NoSuch` if a stranger sent it, and
/// `Store` if there is no such item.
pub(crate) fn sender_of(sent: &[Sent], item: u64) -> Result<(u64, u64), Unplayed>
    ensures some { IfOk result (λ from. (it : Item) × (numbered sent.now item ≡ Some it) × (it.from ≡ Some from)) }
    ensures stranger { result ≡ Err Unplayed.NoSuch
        → (it : Item) × (numbered sent.now item ≡ Some it) × (it.from ≡ None) }
    ensures gone { result ≡ Err (Unplayed.Refused EndFault.Store) → numbered sent.now item ≡ None }
    ensures reopen { result ≢ Err (Unplayed.Refused EndFault.Reopen) }
{
    let Some(at) = index_of(item, sent.len()) else {
        return Err(Unplayed::Refused(EndFault::Store));
    };
    let from = &sent[at];
    match from.from {
        Some(sender) => Ok(sender),
        None => Err(Unplayed::NoSuch),
    }
}

/// The first bytes, or all if there are fewer.
pub(crate) fn first(bytes: &[u8], count: usize) -> &[u8]
    ensures { result.now ≡ take count bytes.now }
{
    &bytes[..count.min(bytes.len())]
}
