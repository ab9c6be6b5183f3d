//! What is done with an outbox that is open. This is written over any store.

ghost use Rattle.outbox_process.specs.Errands.{DoesErrand};

use crate::fault::Why;
use crate::target::Target;
use crate::tasks::asking::ask;
use crate::tasks::dial::Dial;
use crate::tasks::putting::put;
use crate::tasks::rounds::{Round, send_all};
use crate::tasks::sending::{send_entry, send_next};
use crate::tasks::showing::{show_body, show_each, show_entry, show_states};
use finding_lines::Form;
use key_string::KeyText;
use outbox_core::Outbox;
use sqlite::Alter;
use std::alloc::Global;
use std::io::Write;

/// Which entries are sent.
#[derive(Clone, Copy)]
pub enum Which {
    /// The open entry with the least id.
    Next,
    /// This entry.
    Entry(u64),
    /// Each open entry.
    All,
}

/// What is done with an outbox.
#[derive(Drop)]
pub enum Errand {
    /// Put a report in under this key, to replace a filing or none.
    Put {
        key: KeyText,
        target: Target,
        body: Vec<u8>,
    },
    /// Send entries.
    Send(Which),
    /// Ask about this settled entry, and write the findings so.
    Ask {
        id: u64,
        form: Form,
    },
    /// Show the state of each entry.
    ShowStates,
    /// Show the state, the length and the key of this entry.
    ShowEntry(u64),
    /// Show the state, the length and the key of each entry.
    ShowEach,
    /// Show the report of this entry, and nothing else.
    ShowBody(u64),
}

/// What came of an errand.
#[derive(Clone, Copy, Debug, PartialEq, Eq)]
pub enum Done {
    /// The report is the entry of this id.
    Put { id: u64 },
    /// So many entries were sent, and ended so.
    Sent(Round),
    /// The entries, or the reply to the question, are printed.
    Shown,
}

/// Does an errand on an outbox.
pub(crate) fn do_errand<S: Alter, N: Dial, O: Write>(
    alloc: Global,
    network: &mut N,
    outbox: &mut Outbox<S>,
    errand: Errand,
    output: &mut O,
) -> Result<Done, Why>
    ensures { DoesErrand S.Store errand (N.traffic network.old) (N.traffic network.new) outbox.old outbox.new
        (O.contents output.old) (O.contents output.new) result }
{
    match errand {
        Errand::Put { key, target, body } => {
            let id = put(alloc, outbox, key, target.number, body, output)?;
            Ok(Done::Put { id })
        }
        Errand::Send(Which::Next) => match send_next(alloc, network, outbox, output)? {
            Some(state) => Ok(Done::Sent(Round::of(state))),
            None => Ok(Done::Sent(Round::NONE)),
        },
        Errand::Send(Which::Entry(id)) => {
            let state = send_entry(alloc, network, outbox, id, output)?;
            Ok(Done::Sent(Round::of(state)))
        }
        Errand::Send(Which::All) => {
            let round = send_all(alloc, network, outbox, output)?;
            Ok(Done::Sent(round))
        }
        Errand::Ask { id, form } => {
            ask(alloc, network, outbox, form, id, output)?;
            Ok(Done::Shown)
        }
        Errand::ShowStates => {
            show_states(alloc, outbox, output)?;
            Ok(Done::Shown)
        }
        Errand::ShowEntry(id) => {
            show_entry(alloc, outbox, id, output)?;
            Ok(Done::Shown)
        }
        Errand::ShowEach => {
            show_each(alloc, outbox, output)?;
            Ok(Done::Shown)
        }
        Errand::ShowBody(id) => {
            show_body(outbox, id, output)?;
            Ok(Done::Shown)
        }
    }
}
