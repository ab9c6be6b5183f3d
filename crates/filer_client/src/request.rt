//! The request of an entry.

ghost use Rattle.std.specs.Prelude.{◌≡◌, ◌≤◌, length, true, Some, IfOk, IfErr};
ghost use Rattle.key_string.specs.Filer.{is_filer};
ghost use Rattle.http_messages.specs.Posting.{IsTarget};
ghost use Rattle.http_messages.specs.Head.{max_body_len};
ghost use Rattle.filing_model.specs.Outbox.{bytes_of, request_of};
ghost use Rattle.outbox_core.specs.Entries.{found_at};
ghost use Rattle.outbox_core.specs.Reading.{view_entry};
ghost use Rattle.filer_client.specs.Exchange.{request_at, IsToSend};
ghost use Rattle.filer_client.specs.Calls.{AnswersOf};

use http_wire::append_request;
use outbox_core::{Entry, Outbox, State, TakeFault};
use sqlite::Alter;
use std::alloc::Global;

/// What an entry has to send.
#[derive(Drop)]
pub enum ToSend {
    /// The bytes of its request.
    Request(Vec<u8>),
    /// Nothing, since it is in this state, which is not open.
    Settled(State),
}

/// The bytes of the request of an entry, whatever its state: a POST of its body under its key to the path of the filer.
/// Answers `NoEntry` if no entry has the id, and `Store` if the outbox stopped.
pub fn request_bytes<S: Alter>(
    alloc: Global,
    outbox: &mut Outbox<S>,
    id: u64,
) -> Result<Vec<u8>, TakeFault>
    ensures { AnswersOf S.Store outbox.old outbox.new id
        (λ entries text. Some text.items ≡ request_at outbox.old.filer entries id) result }
{
    let entry = find_entry(outbox, id)?;
    request_of(alloc, outbox.filer(), &entry)
}

/// What an entry has to send: the bytes of its request if it is open, and otherwise nothing. Answers `NoEntry` if no
/// entry has the id, and `Store` if the outbox stopped.
pub fn open_request<S: Alter>(
    alloc: Global,
    outbox: &mut Outbox<S>,
    id: u64,
) -> Result<ToSend, TakeFault>
    ensures { AnswersOf S.Store outbox.old outbox.new id (λ entries. IsToSend outbox.old.filer entries id) result }
{
    let entry = find_entry(outbox, id)?;
    match entry.state {
        State::Open => Ok(ToSend::Request(request_of(alloc, outbox.filer(), &entry)?)),
        settled => Ok(ToSend::Settled(settled)),
    }
}

/// The entry of this id.
fn find_entry<S: Alter>(outbox: &mut Outbox<S>, id: u64) -> Result<Entry, TakeFault>
    ensures read { AnswersOf S.Store outbox.old outbox.new id
        (λ entries entry. Some (view_entry entry) ≡ found_at entries id) result }
    ensures short { IfOk result (λ entry. length entry.body.items ≤ max_body_len) }
    ensures target { IfOk result (λ entry. IsTarget entry.target) }
{
    match outbox.entry(id) {
        Ok(Some(entry)) => Ok(entry),
        Ok(None) => Err(TakeFault::NoEntry),
        Err(fault) => Err(TakeFault::from(fault)),
    }
}

/// The bytes of the request of this entry of this filer.
fn request_of(alloc: Global, filer: &str, entry: &Entry) -> Result<Vec<u8>, TakeFault>
    requires filer { is_filer filer.now ≡ true }
    requires short { length entry.now.body.items ≤ max_body_len }
    requires target { IsTarget entry.now.target }
    ensures bytes { IfOk result (λ text. text.items ≡ bytes_of (request_of filer.now (view_entry entry.now).1)) }
    ensures memory { IfErr result (λ fault. fault ≡ TakeFault.Memory) }
{
    let mut text = Vec::new(alloc);
    match append_request(
        filer,
        entry.target,
        &entry.key,
        entry.body.as_slice(),
        &mut text,
    ) {
        Ok(()) => Ok(text),
        Err(_) => Err(TakeFault::Memory),
    }
}
