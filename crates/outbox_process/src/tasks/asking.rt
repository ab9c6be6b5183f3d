//! A settled entry is asked about: its request is sent again, and the reply is printed. Of a confirmed one the register
//! is asked first whether it lists the filing, since a register that lost it would file the report anew.

ghost use Rattle.std.specs.Prelude.{◌≡◌, IfOk, IfErr};
ghost use Rattle.http_messages.specs.Replies.{reply_parts};
ghost use Rattle.filer_client.specs.Exchange.{HearsFrom, IsFaultOf};
ghost use Rattle.outbox_core.specs.Reading.{view_entry};
ghost use Rattle.outbox_process.specs.Asking.{FindsQuestion, WritesQuestion, IsReplied, Looks, LooksFirst, TellsReply};
ghost use Rattle.outbox_process.specs.Asking.{AsksEntry};

use crate::fault::Why;
use crate::tasks::answering::print_answer;
use crate::tasks::dial::Dial;
use crate::tasks::listing::{find_listed, list_request};
use crate::tasks::looking::{entry_of, is_open};
use filer_client::{ExchangeFault, request_bytes};
use finding_lines::Form;
use http_wire::{Reply, Sink, Source, read_reply, write_all};
use outbox_core::{Entry, Outbox, Said, State, said_of};
use sqlite::Alter;
use std::alloc::Global;
use std::io::Write;

/// A settled entry, and the bytes of its request.
#[derive(Drop)]
struct Question {
    entry: Entry,
    request: Vec<u8>,
}

/// What is asked about the entry of this id. An open entry is refused.
fn question_of<S: Alter>(alloc: Global, outbox: &mut Outbox<S>, id: u64) -> Result<Question, Why>
    ensures { FindsQuestion S.Store outbox.old outbox.new id result }
{
    let entry = entry_of(outbox, id)?;
    if is_open(entry.state) {
        return Err(Why::IsOpen { id });
    }
    match request_bytes(alloc, outbox, id) {
        Ok(request) => Ok(Question { entry, request }),
        Err(fault) => Err(Why::Exchange {
            id,
            fault: ExchangeFault::Take(fault),
        }),
    }
}

/// Writes a request, and reads the reply to it.
fn ask_on<R: Source, W: Sink>(
    alloc: Global,
    reader: &mut R,
    writer: &mut W,
    request: &[u8],
) -> Result<Reply, ExchangeFault>
    ensures written { WritesQuestion request.now (W.written writer.old) (W.written writer.new) result }
    ensures heard { IfOk result (λ reply.
        HearsFrom R.Source reader.old reader.new (λ heard. heard ≡ reply_parts reply)) }
    ensures fault { IfErr result (IsFaultOf R.Source reader.old reader.new (W.write_failures writer.old)
        (W.write_failures writer.new)) }
{
    match write_all(writer, request) {
        Ok(()) => match read_reply(alloc, reader) {
            Ok(reply) => Ok(reply),
            Err(fault) => Err(ExchangeFault::Reply(fault)),
        },
        Err(sent) => Err(ExchangeFault::Write { sent }),
    }
}

/// Sends a request on a connection of its own, for the entry of this id in this state, and answers the reply.
fn ask_once<N: Dial>(
    alloc: Global,
    network: &mut N,
    id: u64,
    state: State,
    request: &[u8],
) -> Result<Reply, Why>
    ensures { IsReplied id state request.now (N.traffic network.old) (N.traffic network.new) result }
{
    match network.connect() {
        Ok((mut reader, mut writer)) => {
            match ask_on(alloc, &mut reader, &mut writer, request) {
                Ok(reply) => {
                    network.end(reader, writer, id, Ok(state), true);
                    Ok(reply)
                }
                Err(fault) => {
                    network.end(reader, writer, id, Err(fault), true);
                    Err(Why::Exchange { id, fault })
                }
            }
        }
        Err(error) => Err(Why::Connect(error)),
    }
}

/// Asks on a connection of its own whether the register lists the filing of this number of this filer as what the entry
/// of this id would be. If not, the fault says why.
fn look<N: Dial>(
    alloc: Global,
    network: &mut N,
    filer: &str,
    id: u64,
    number: u64,
    entry: &Entry,
) -> Result<(), Why>
    ensures { Looks filer.now id number (view_entry entry.now).1 (N.traffic network.old) (N.traffic network.new)
        result }
{
    let request = list_request(alloc, filer, number)?;
    let reply = ask_once(alloc, network, id, State::Open, request.as_slice())?;
    find_listed(alloc, filer, id, number, entry, &reply)
}

/// Before the request of this entry of this filer is sent again: if it is confirmed, its filing has to be listed.
fn look_first<N: Dial>(
    alloc: Global,
    network: &mut N,
    filer: &str,
    id: u64,
    entry: &Entry,
) -> Result<(), Why>
    ensures { LooksFirst filer.now id (view_entry entry.now).1 entry.now.state (N.traffic network.old)
        (N.traffic network.new) result }
{
    match entry.state {
        State::Confirmed(number) => look(alloc, network, filer, id, number, entry),
        // No list has what was refused.
        State::Open | State::Refused | State::Clashed => Ok(()),
    }
}

/// Prints the reply to a question about the entry of this id, which is of this filer, and refuses one that contradicts
/// the entry.
fn tell_reply<O: Write>(
    alloc: Global,
    form: Form,
    filer: &str,
    id: u64,
    entry: &Entry,
    reply: &Reply,
    output: &mut O,
) -> Result<(), Why>
    ensures { TellsReply form filer.now id entry.now.state (view_entry entry.now) (reply_parts reply.now)
        (O.contents output.old) (O.contents output.new) result }
{
    let said = said_of(alloc, entry.state, reply)?;
    print_answer(alloc, form, filer, entry, reply, output)?;
    match said {
        Said::Otherwise(told) => Err(Why::Contradicts {
            id,
            state: entry.state,
            told,
        }),
        // A reply that says nothing of the entry, such as a 503, contradicts nothing.
        Said::Nothing | Said::Same => Ok(()),
    }
}

/// Sends the request of a settled entry again, on a connection of its own, and prints the reply: its status, its
/// content, and a line for each finding for which it refuses the report. A reply that contradicts the entry is a fault.
/// Of a confirmed entry nothing is sent unless the register lists its filing, for which it is asked first. The outbox
/// stays as it is, whatever the replies say. An open entry is refused, since asking about it would be sending it.
pub fn ask<S: Alter, N: Dial, O: Write>(
    alloc: Global,
    network: &mut N,
    outbox: &mut Outbox<S>,
    form: Form,
    id: u64,
    output: &mut O,
) -> Result<(), Why>
    ensures { AsksEntry S.Store form id (N.traffic network.old) (N.traffic network.new) outbox.old outbox.new
        (O.contents output.old) (O.contents output.new) result }
{
    let question = question_of(alloc, outbox, id)?;
    look_first(alloc, network, outbox.filer(), id, &question.entry)?;
    let reply = ask_once(
        alloc,
        network,
        id,
        question.entry.state,
        question.request.as_slice(),
    )?;
    tell_reply(
        alloc,
        form,
        outbox.filer(),
        id,
        &question.entry,
        &reply,
        output,
    )
}
