//! Vectors of an outbox.

ghost use Rattle.std.specs.Prelude.{IfOk};
ghost use Rattle.table_rows.specs.Standing.{IsAtRest};

use crate::examples::{key_text, repeated};
use crate::refusal::{answer, refused};
use crate::visits::{Visit, visits};
use example_texts::{REGISTERED_CLOSED, REPORT, SMALLEST, front};
use filer_client::{ExchangeFault, exchange};
use http_wire::{Device, Kind, MAX_BODY_LEN, Reply, ReplyFault, append_request};
use key_string::{KeyText, is_filer};
use outbox_core::{Entry, Outbox, OutboxFault, PutFault, State, StoreFault, TakeFault, key_of};
use sqlite::{Alter, Connection, MemStore};
use std::alloc::{AllocError, Global};
use uuid::Uuid;

/// Vector 22: an outbox keeps its entries, and a reply moves one once.
pub(crate) fn entries(alloc: Global) -> Result<bool, AllocError> {
    let Some(mut outbox) = empty_outbox(alloc)? else {
        return Ok(false);
    };
    Ok(
        puts(alloc, &mut outbox)?
            && is_open(&mut outbox)?
            && moves(alloc, &mut outbox)?
            && is_confirmed(&mut outbox)?
            && bad_filer(alloc)?
            && taken(alloc)?
            && is_key_of_nil(alloc)?
            && requests(alloc)?,
    )
}

/// The outbox of `ACME`, without entries.
fn empty_outbox(alloc: Global) -> Result<Option<Outbox<MemStore>>, AllocError> {
    created(alloc, connect_in_memory(alloc)?)
}

/// A connection to a database in memory that is new.
fn connect_in_memory(alloc: Global) -> Result<Connection<MemStore>, AllocError>
    ensures { IfOk result IsAtRest }
{
    Connection::open_in_memory(alloc)
}

/// The outbox of `ACME`, made in this database.
fn created<S: Alter + Drop>(
    alloc: Global,
    conn: Connection<S>,
) -> Result<Option<Outbox<S>>, AllocError>
    requires { IsAtRest conn }
{
    let made = Outbox::create(alloc, conn, "ACME");
    Ok(answer(made, OutboxFault::Memory)?.ok())
}

/// The outbox with the report under the key `k-1`.
fn outbox_with_report(alloc: Global) -> Result<Option<Outbox<MemStore>>, AllocError> {
    let Some(mut outbox) = empty_outbox(alloc)? else {
        return Ok(None);
    };
    let is_put = put(alloc, &mut outbox, "k-1", REPORT)? == Some(Ok(1));
    Ok(is_put.then_some(outbox))
}

/// What a put of a body under a key answers, if that is a key.
fn put<S: Alter>(
    alloc: Global,
    outbox: &mut Outbox<S>,
    key: &str,
    body: &str,
) -> Result<Option<Result<u64, PutFault>>, AllocError> {
    let Some(key) = key_text(alloc, key)? else {
        return Ok(None);
    };
    let body = body.as_bytes().to_vec(alloc)?;
    Ok(Some(answer(outbox.put(key, None, body), PutFault::Memory)?))
}

/// Whether the first body is put, and no other under its key, nor one that is too large.
fn puts<S: Alter>(alloc: Global, outbox: &mut Outbox<S>) -> Result<bool, AllocError> {
    let first = put(alloc, outbox, "k-1", REPORT)?;
    let again = put(alloc, outbox, "k-1", SMALLEST)?;
    let large = repeated(alloc, ' ', 1_048_577)?;
    let too_large = put(alloc, outbox, "k-2", &large)?;
    Ok(
        first == Some(Ok(1))
            && again == Some(Err(PutFault::KeyUsed { id: 1 }))
            && too_large == Some(Err(PutFault::TooLarge)),
    )
}

/// Whether entry 1 is there, and the next that is open.
fn is_open<S: Alter>(outbox: &mut Outbox<S>) -> Result<bool, AllocError> {
    let next = next_open(outbox)?.unwrap_or(None);
    let entry = first_entry(outbox)?;
    Ok(is_first(&next) && is_first(&entry))
}

/// The next entry that is open.
fn next_open<S: Alter>(
    outbox: &mut Outbox<S>,
) -> Result<Result<Option<Entry>, StoreFault>, AllocError> {
    answer(outbox.next_open(), StoreFault::Memory)
}

/// Entry 1, if it is there and read.
pub(crate) fn first_entry<S: Alter>(outbox: &mut Outbox<S>) -> Result<Option<Entry>, AllocError> {
    Ok(answer(outbox.entry(1), StoreFault::Memory)?.unwrap_or(None))
}

fn is_first(entry: &Option<Entry>) -> bool {
    match entry {
        None => false,
        Some(entry) => {
            entry.id == 1
                && entry.key.as_str() == "k-1"
                && entry.body.as_slice() == REPORT.as_bytes()
                && entry.state == State::Open
        }
    }
}

/// Whether replies move entry 1 as they are to, one after another, and there is no entry 2.
fn moves<S: Alter>(alloc: Global, outbox: &mut Outbox<S>) -> Result<bool, AllocError> {
    for (status, content, state) in [
        (503, "{\"status\":\"unavailable\"}", State::Open),
        (
            201,
            "{\"number\":1,\"status\":\"registered\"}",
            State::Confirmed(1),
        ),
        (422, "{\"status\":\"key-reused\"}", State::Confirmed(1)),
    ] {
        let reply = reply(alloc, status, content)?;
        if take(outbox, 1, &reply)? != Ok(state) {
            return Ok(false);
        }
    }
    let reply = reply(alloc, 201, "{\"number\":1,\"status\":\"registered\"}")?;
    Ok(take(outbox, 2, &reply)? == Err(TakeFault::NoEntry))
}

/// Moves an entry by a reply.
fn take<S: Alter>(
    outbox: &mut Outbox<S>,
    id: u64,
    reply: &Reply,
) -> Result<Result<State, TakeFault>, AllocError> {
    answer(outbox.take(id, reply), TakeFault::Memory)
}

fn reply(alloc: Global, status: u16, content: &str) -> Result<Reply, AllocError> {
    Ok(Reply {
        status,
        content: content.as_bytes().to_vec(alloc)?,
        kind: Kind::Json,
    })
}

/// Whether entry 1 is confirmed, and nothing else is there.
fn is_confirmed<S: Alter>(outbox: &mut Outbox<S>) -> Result<bool, AllocError> {
    let has_none_open = matches!(next_open(outbox)?, Ok(None));
    Ok(has_none_open && has_states(outbox, &[(1, State::Confirmed(1))])?)
}

/// Whether these are the entries and their states.
pub(crate) fn has_states<S: Alter>(
    outbox: &mut Outbox<S>,
    expected: &[(u64, State)],
) -> Result<bool, AllocError> {
    match answer(outbox.states(), StoreFault::Memory)? {
        Ok(states) => Ok(states.as_slice() == expected),
        Err(_) => Ok(false),
    }
}

/// Whether an outbox of no filer is refused.
fn bad_filer(alloc: Global) -> Result<bool, AllocError> {
    let conn = connect_in_memory(alloc)?;
    Ok(refuse(alloc, conn, "a b", OutboxFault::BadFiler)?.is_some())
}

/// Whether a new outbox of this filer is refused in the database for this reason.
pub(crate) fn refuse<S: Alter + Drop>(
    alloc: Global,
    conn: Connection<S>,
    filer: &str,
    reason: OutboxFault,
) -> Result<Option<Connection<S>>, AllocError>
    requires { IsAtRest conn }
{
    refused(
        Outbox::create_or_back(alloc, conn, filer),
        reason,
        OutboxFault::Memory,
    )
}

/// Whether a second outbox in a database is refused.
fn taken(alloc: Global) -> Result<bool, AllocError> {
    visits(alloc, &[Visit::MakeOutbox, Visit::MakeSecondOutbox])
}

/// Makes the outbox of `ACME`.
pub(crate) fn make<S: Alter + Drop>(
    alloc: Global,
    conn: Connection<S>,
) -> Result<Option<Connection<S>>, AllocError>
    requires { IsAtRest conn }
{
    match created(alloc, conn)? {
        Some(outbox) => Ok(Some(outbox.into_conn())),
        None => Ok(None),
    }
}

fn is_key_of_nil(alloc: Global) -> Result<bool, AllocError> {
    let key = key_of(alloc, Uuid::nil())?;
    Ok(key.as_str() == "00000000-0000-0000-0000-000000000000")
}

/// Whether the requests of entry 1, and of the smallest report in its place, have the expected lengths.
fn requests(alloc: Global) -> Result<bool, AllocError> {
    let Some(mut outbox) = outbox_with_report(alloc)? else {
        return Ok(false);
    };
    match first_entry(&mut outbox)? {
        None => Ok(false),
        Some(entry) => Ok(
            request_length(alloc, &entry.key, entry.body.as_slice())? == Some(537)
                && request_length(alloc, &entry.key, SMALLEST.as_bytes())? == Some(227),
        ),
    }
}

/// How long the request is that files a body for `ACME`; `None` if the body is too large.
fn request_length(alloc: Global, key: &KeyText, body: &[u8]) -> Result<Option<usize>, AllocError> {
    let filer = "ACME";
    if !is_filer(filer) || body.len() > MAX_BODY_LEN {
        return Ok(None);
    }
    let mut request = Vec::new(alloc);
    append_request(filer, None, key, body, &mut request)?;
    Ok(Some(request.len()))
}

/// Vector 24: an exchange moves an entry by a whole reply alone.
pub(crate) fn exchanges(alloc: Global) -> Result<bool, AllocError> {
    Ok(whole_exchange(alloc)? && cut_exchange(alloc)?)
}

fn whole_exchange(alloc: Global) -> Result<bool, AllocError> {
    let Some(mut outbox) = outbox_with_report(alloc)? else {
        return Ok(false);
    };
    let mut written = Vec::new(alloc);
    let reply = REGISTERED_CLOSED.as_bytes();
    let outcome = exchanged(alloc, &mut outbox, reply, &mut written)?;
    Ok(outcome.is_ok() && written.len() == 537 && is_confirmed(&mut outbox)?)
}

fn cut_exchange(alloc: Global) -> Result<bool, AllocError> {
    let Some(mut outbox) = outbox_with_report(alloc)? else {
        return Ok(false);
    };
    let mut written = Vec::new(alloc);
    let reply = front(REGISTERED_CLOSED.as_bytes(), 20);
    let outcome = exchanged(alloc, &mut outbox, reply, &mut written)?;
    Ok(outcome == Err(ExchangeFault::Reply(ReplyFault::Cut)) && is_open(&mut outbox)?)
}

/// Sends entry 1 over a stream in memory. A writer in memory fails only if memory runs out.
fn exchanged<S: Alter>(
    alloc: Global,
    outbox: &mut Outbox<S>,
    given: &[u8],
    written: &mut Vec<u8>,
) -> Result<Result<State, ExchangeFault>, AllocError> {
    let outcome = exchange(
        alloc,
        &mut Device::new(given),
        &mut Device::new(written),
        outbox,
        1,
    );
    match outcome {
        Err(
            ExchangeFault::Write { .. }
            | ExchangeFault::Reply(ReplyFault::Memory)
            | ExchangeFault::Take(TakeFault::Memory),
        ) => Err(AllocError),
        outcome => Ok(outcome),
    }
}
