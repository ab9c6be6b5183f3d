//! The receipt of an exchange.

ghost use Rattle.receipts.specs.Receipt.{BeginsReply, ReceiptOf};

use crate::fault::ReceiptFault;
use crate::moment::moment_text;
use crate::sent::request_in;
use crate::text::receipt_text;
use filing_model::{Completed, State};
use http_wire::{Device, Reply, read_reply};
use jiff::Timestamp;
use outbox_core::{Said, said_of};
use std::alloc::Global;

/// An exchange for the entry of an id: the state that the entry is in since then, the bytes that were sent, and those
/// that came.
#[derive(Clone, Copy)]
pub struct Exchange<'a> {
    pub id: u64,
    pub state: State,
    pub sent: &'a [u8],
    pub came: &'a [u8],
}

/// A receipt for the entry of an id: the request that was sent for it, and its text.
#[derive(Drop)]
pub struct Receipt {
    pub id: u64,
    pub sent: Completed,
    pub text: String,
}

/// The reply with which these bytes begin.
fn reply_in(alloc: Global, bytes: &[u8]) -> Result<Reply, ReceiptFault>
    ensures { BeginsReply bytes.now result }
{
    let mut reader = Device::new(bytes);
    match read_reply(alloc, &mut reader) {
        Ok(reply) => Ok(reply),
        Err(fault) => Err(ReceiptFault::NoReply(fault)),
    }
}

/// The receipt of an exchange with this port, whose reply came at this moment. There is one exactly if the reply could
/// have settled the entry as it is settled.
pub fn receipt_of(
    alloc: Global,
    exchange: &Exchange<'_>,
    moment: Timestamp,
    port: u16,
) -> Result<Receipt, ReceiptFault>
    ensures { ReceiptOf exchange.now.id exchange.now.state exchange.now.sent.now exchange.now.came.now moment port
        result }
{
    let Some(sent) = request_in(alloc, exchange.sent)? else {
        return Err(ReceiptFault::NoRequest);
    };
    let reply = reply_in(alloc, exchange.came)?;
    match said_of(alloc, exchange.state, &reply)? {
        Said::Same => {}
        Said::Nothing => return Err(ReceiptFault::Unsettled),
        Said::Otherwise(_) => return Err(ReceiptFault::Contradicts),
    }
    let moment = moment_text(alloc, moment)?;
    let text = receipt_text(alloc, exchange.id, &sent, &reply, moment.as_str(), port)?;
    Ok(Receipt {
        id: exchange.id,
        sent,
        text,
    })
}
