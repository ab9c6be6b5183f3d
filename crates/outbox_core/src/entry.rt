//! An entry, and how a row reads as one.

ghost use Rattle.std.specs.Prelude.{◌≡◌, ◌≤◌, pos, length, map, IfOk, IfSome};
ghost use Rattle.http_messages.specs.Head.{max_body_len};
ghost use Rattle.http_messages.specs.Posting.{IsTarget};
ghost use Rattle.sqlite.specs.declared.types.Value.TheVariants.{Int};
ghost use Rattle.sqlite.specs.Order.{column};
ghost use Rattle.sqlite.specs.Values.{or_null};
ghost use Rattle.outbox_tables.specs.Rows.{code_of, number_of};
ghost use Rattle.filing_model.specs.Views.{view_state};
ghost use Rattle.outbox_core.specs.Reading.{view_pair, state_told};

use crate::columns::{state, states};
use filing_model::{State, is_target};
use http_messages::MAX_BODY_LEN;
use key_string::{KeyFault, KeyText};
use outbox_tables::columns::entry;
use sqlite::Row;
use std::alloc::Global;
use table_rows::StoreFault;

/// A report that is to be sent under its key, and what is known of it.
#[derive(Debug, Drop)]
pub struct Entry {
    /// Entries are numbered from 1 in the order in which they were put.
    pub id: u64,
    pub key: KeyText,
    /// The number of the filing that the report is to replace, from 1 to 2^63 - 1, if it is to replace one.
    pub target: Option<u64>,
    pub body: Vec<u8>,
    pub state: State,
}

/// The state that two columns stand for.
pub(crate) fn state_of(code: u32, number: Option<u64>) -> Option<State>
    ensures code { IfSome result (λ state. code ≡ code_of (view_state state)) }
    ensures number { IfSome result (λ state. or_null (λ n. Int (pos n)) number ≡ number_of (view_state state)) }
{
    match (code, number) {
        (0, None) => Some(State::Open),
        (1, Some(number)) => Some(State::Confirmed(number)),
        (2, None) => Some(State::Refused),
        (3, None) => Some(State::Clashed),
        _ => None,
    }
}

/// The key that a column of ours holds as this text.
fn key_in(alloc: Global, text: &str) -> Result<KeyText, StoreFault>
    ensures { IfOk result (λ key. key ≡ text.now) }
{
    match KeyText::new(alloc, text) {
        Ok(key) => Ok(key),
        Err(KeyFault::Memory) => Err(StoreFault::Memory),
        Err(_) => Err(StoreFault::Store),
    }
}

impl Entry {
    ghost use Rattle.outbox_core.specs.Reading.{Shows};

    /// Reads a row of the columns `id`, `idem`, `body`, `state` and `number`, of an entry with this target.
    pub(crate) fn from_row(
        alloc: Global,
        row: &Row,
        target: Option<u64>,
    ) -> Result<Entry, StoreFault>
        ensures shown { IfOk result (Shows row.now) }
        ensures target { IfOk result (λ entry. entry.target ≡ target) }
        ensures within { IfOk result (λ entry. IsTarget entry.target) }
        ensures short { IfOk result (λ entry. length entry.body.items ≤ max_body_len) }
    {
        if !is_target(target) {
            return Err(StoreFault::Store);
        }
        let id = row.get(entry::ID)?;
        let text: String = row.get(entry::KEY)?;
        let body: Vec<u8> = row.get(entry::BODY)?;
        if body.len() > MAX_BODY_LEN {
            return Err(StoreFault::Store);
        }
        let code = row.get(entry::STATE)?;
        let number = row.get(entry::NUMBER)?;
        let key = key_in(alloc, text.as_str())?;
        let state = state_of(code, number).ok_or(StoreFault::Store)?;
        Ok(Entry {
            id,
            key,
            target,
            body,
            state,
        })
    }
}

/// The state of a row of the columns `state` and `number`.
pub(crate) fn state_in(row: &Row) -> Result<State, StoreFault>
    ensures { IfOk result (λ state.
        (column row.now 0 ≡ Int (pos (code_of (view_state state))))
        × (column row.now 1 ≡ number_of (view_state state))) }
{
    let code = row.get(state::CODE)?;
    let number = row.get(state::NUMBER)?;
    state_of(code, number).ok_or(StoreFault::Store)
}

/// The id and the state in a row of the columns `id`, `state` and `number`.
fn read_state(row: &Row) -> Result<(u64, State), StoreFault>
    ensures { IfOk result (λ told. view_pair told ≡ state_told row.now) }
{
    let id = row.get(states::ID)?;
    let code = row.get(states::CODE)?;
    let number = row.get(states::NUMBER)?;
    let state = state_of(code, number).ok_or(StoreFault::Store)?;
    Ok((id, state))
}

/// The ids and the states of such rows.
pub(crate) fn read_states(alloc: Global, rows: &[Row]) -> Result<Vec<(u64, State)>, StoreFault>
    ensures { IfOk result (λ states. map view_pair states.items ≡ map state_told rows.now) }
{
    let mut states = Vec::new(alloc);
    for row in rows {
        states.push(read_state(row)?)?;
    }
    Ok(states)
}
