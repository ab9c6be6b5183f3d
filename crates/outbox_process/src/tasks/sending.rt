//! Sends an entry on a connection of its own, and prints its state.

ghost use Rattle.outbox_process.specs.Sending.{IsOpenAt, Tries, Sends, SendsEntry, SendsNext};

use crate::fault::Why;
use crate::tasks::dial::Dial;
use crate::tasks::lines::{print_none, print_state};
use crate::tasks::looking::entry_of;
use filer_client::exchange;
use outbox_core::{Outbox, State};
use sqlite::Alter;
use std::alloc::Global;
use std::io::Write;

/// Makes one exchange for an open entry, on a connection of its own.
fn exchange_once<S: Alter, N: Dial>(
    alloc: Global,
    network: &mut N,
    outbox: &mut Outbox<S>,
    id: u64,
) -> Result<State, Why>
    ensures { Tries S.Store (λ entries. IsOpenAt entries id) id (N.traffic network.old) (N.traffic network.new)
        outbox.old outbox.new result }
{
    match network.connect() {
        Ok((mut reader, mut writer)) => {
            let came = exchange(alloc, &mut reader, &mut writer, outbox, id);
            network.end(reader, writer, id, came, false);
            match came {
                Ok(state) => Ok(state),
                Err(fault) => Err(Why::Exchange { id, fault }),
            }
        }
        Err(error) => Err(Why::Connect(error)),
    }
}

/// Sends an entry that is open, and prints its state after the reply; after a fault, that it is open.
pub(crate) fn send_open<S: Alter, N: Dial, O: Write>(
    alloc: Global,
    network: &mut N,
    outbox: &mut Outbox<S>,
    id: u64,
    output: &mut O,
) -> Result<State, Why>
    ensures { Sends S.Store (λ entries. IsOpenAt entries id) id (N.traffic network.old) (N.traffic network.new)
        outbox.old outbox.new (O.contents output.old) (O.contents output.new) result }
{
    match exchange_once(alloc, network, outbox, id) {
        Ok(state) => {
            print_state(alloc, id, state, output)?;
            Ok(state)
        }
        Err(why) => {
            print_state(alloc, id, State::Open, output)?;
            Err(why)
        }
    }
}

/// Sends the entry of this id if it is open, and prints its state after the reply; after a fault, that it is open. If
/// it is not open, it prints the state and makes no connection. Answers `NoEntry` exactly if no entry has the id.
pub fn send_entry<S: Alter, N: Dial, O: Write>(
    alloc: Global,
    network: &mut N,
    outbox: &mut Outbox<S>,
    id: u64,
    output: &mut O,
) -> Result<State, Why>
    ensures { SendsEntry S.Store id (N.traffic network.old) (N.traffic network.new) outbox.old outbox.new
        (O.contents output.old) (O.contents output.new) result }
{
    match entry_of(outbox, id)?.state {
        State::Open => send_open(alloc, network, outbox, id, output),
        settled => {
            print_state(alloc, id, settled, output)?;
            Ok(settled)
        }
    }
}

/// Sends the open entry with the least id, and prints its state after the reply; after a fault, that it is open. If no
/// entry is open, it prints that and answers `None`.
pub fn send_next<S: Alter, N: Dial, O: Write>(
    alloc: Global,
    network: &mut N,
    outbox: &mut Outbox<S>,
    output: &mut O,
) -> Result<Option<State>, Why>
    ensures { SendsNext S.Store (N.traffic network.old) (N.traffic network.new) outbox.old outbox.new
        (O.contents output.old) (O.contents output.new) result }
{
    match outbox.next_open()? {
        Some(entry) => match send_open(alloc, network, outbox, entry.id, output) {
            Ok(state) => Ok(Some(state)),
            Err(why) => Err(why),
        },
        None => {
            print_none(output)?;
            Ok(None)
        }
    }
}
