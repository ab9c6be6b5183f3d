//! Looks entries up.

ghost use Rattle.std.specs.Prelude.{◌≡◌, Some, IfOk, IfErr, map};
ghost use Rattle.sqlite.specs.State.{HasCleanDisk};
ghost use Rattle.table_rows.specs.Standing.{CommitsNothing};
ghost use Rattle.filing_model.specs.Views.{view_state};
ghost use Rattle.outbox_tables.specs.Entries.{numbered};
ghost use Rattle.outbox_core.specs.Entries.{found_at, is_open_state};
ghost use Rattle.outbox_core.specs.Reading.{view_entry, view_pair, id_and_state};
ghost use Rattle.outbox_core.specs.OutboxParts.{shows, HasEntries, ForEntries};
ghost use Rattle.outbox_process.specs.Faults.{IsUnread};
ghost use Rattle.outbox_process.specs.Looking.{IsNotFound};

use crate::fault::Why;
use outbox_core::{Entry, Outbox, State};
use sqlite::Alter;

/// The entry of this id.
pub(crate) fn entry_of<S: Alter>(outbox: &mut Outbox<S>, id: u64) -> Result<Entry, Why>
    ensures found { ForEntries S.Store outbox.old outbox.new (λ entries.
        IfOk result (λ entry. Some (view_entry entry) ≡ found_at entries id)) }
    ensures refused { IfErr result (λ fault. IsNotFound S.Store outbox.old outbox.new id fault) }
    ensures kept { ForEntries S.Store outbox.old outbox.new (HasEntries S.Store outbox.new) }
    ensures filer { outbox.new.filer ≡ outbox.old.filer }
    ensures nothing { CommitsNothing (shows S.Store outbox.old) (shows S.Store outbox.new) }
    ensures clean { HasCleanDisk (shows S.Store outbox.new) → HasCleanDisk (shows S.Store outbox.old) }
{
    match outbox.entry(id)? {
        Some(entry) => Ok(entry),
        None => Err(Why::NoEntry { id }),
    }
}

/// The id and the state of each entry.
pub(crate) fn states_of<S: Alter>(outbox: &mut Outbox<S>) -> Result<Vec<(u64, State)>, Why>
    ensures found { ForEntries S.Store outbox.old outbox.new (λ entries.
        IfOk result (λ states. map view_pair states.items ≡ map id_and_state (numbered entries))) }
    ensures refused { IfErr result IsUnread }
    ensures kept { ForEntries S.Store outbox.old outbox.new (HasEntries S.Store outbox.new) }
    ensures filer { outbox.new.filer ≡ outbox.old.filer }
    ensures clean { HasCleanDisk (shows S.Store outbox.new) → HasCleanDisk (shows S.Store outbox.old) }
{
    let states = outbox.states()?;
    Ok(states)
}

/// Whether an entry in this state is open.
pub(crate) fn is_open(state: State) -> bool
    ensures { result ≡ is_open_state (view_state state) }
{
    match state {
        State::Open => true,
        State::Confirmed(_) | State::Refused | State::Clashed => false,
    }
}
