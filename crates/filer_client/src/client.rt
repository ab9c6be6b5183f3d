//! One exchange, and its second half alone.

ghost use Rattle.filer_client.specs.Calls.{HandsOver, Exchanges};

use crate::fault::ExchangeFault;
use crate::request::{ToSend, open_request};
use http_wire::{Sink, Source, read_reply, write_all};
use outbox_core::{Outbox, State};
use sqlite::Alter;
use std::alloc::Global;

/// Reads a whole reply, and moves the entry by it; answers its state. Answers `Reply` if no reply is read, and `Take`
/// if the entry is not moved; then no entry has changed.
pub fn hand_over<R: Source, S: Alter>(
    alloc: Global,
    reader: &mut R,
    outbox: &mut Outbox<S>,
    id: u64,
) -> Result<State, ExchangeFault>
    ensures { HandsOver S.Store R.Source outbox.old outbox.new id reader.old reader.new result }
{
    let reply = read_reply(alloc, reader)?;
    Ok(outbox.take(id, &reply)?)
}

/// Sends an open entry and moves it by the reply: writes its request, reads a whole reply, and
/// answers the entry's state. Of an entry that is not open the state is answered, and nothing is
/// written or read. No fault changes an entry, and `Take(NoEntry)` comes before a byte is written.
pub fn exchange<R: Source, W: Sink, S: Alter>(
    alloc: Global,
    reader: &mut R,
    writer: &mut W,
    outbox: &mut Outbox<S>,
    id: u64,
) -> Result<State, ExchangeFault>
    ensures { Exchanges S.Store R.Source W.Sink outbox.old outbox.new id reader.old reader.new writer.old writer.new
        result }
{
    match open_request(alloc, outbox, id)? {
        ToSend::Request(text) => {
            write_all(writer, text.as_slice()).map_err(|sent| ExchangeFault::Write { sent })?;
            hand_over(alloc, reader, outbox, id)
        }
        ToSend::Settled(state) => Ok(state),
    }
}
