//! How a reply moves the state of an entry.

ghost use Rattle.std.specs.Prelude.{◌≡◌, ◌≢◌, IfOk};
ghost use Rattle.serde_json.specs.View.{view};
ghost use Rattle.xbrl_report.specs.Findings.{tree};
ghost use Rattle.http_messages.specs.Replies.{reply_parts};
ghost use Rattle.filing_model.specs.Outbox.{has_word, has_status, refuses, confirmed_by, state_by, state_told, moved};
ghost use Rattle.outbox_tables.specs.Entries.{FitsNumber};
ghost use Rattle.filing_model.specs.Views.{view_state};
ghost use Rattle.outbox_core.specs.Saying.{Says};

use filing_model::{MAX_FILING_NUMBER, State};
use http_messages::Reply;
use serde_json::Value;
use std::alloc::{AllocError, Global};

/// Whether the member of this name is this word.
pub fn has_word(tree: &Value, name: &str, word: &str) -> bool
    ensures { result ≡ has_word name.now word.now (view tree.now) }
{
    let found = tree.get(name).and_then(Value::as_str);
    found.map_or(false, |text| text == word)
}

/// Whether the member `status` is this word.
fn has_status(tree: &Value, word: &str) -> bool
    ensures { result ≡ has_status word.now (view tree.now) }
{
    has_word(tree, "status", word)
}

/// Whether the report is refused for this reason: problem details have it in `reason` (RFC 9457), and the contents of
/// earlier versions in `status`.
fn refuses(tree: &Value, word: &str) -> bool
    ensures { result ≡ refuses word.now (view tree.now) }
{
    has_status(tree, word) || has_word(tree, "reason", word)
}

fn confirmed_by(number: Option<u64>) -> State
    ensures value { view_state result ≡ confirmed_by number }
    ensures fits { FitsNumber (view_state result) }
{
    match number {
        Some(number) if 1 <= number && number <= MAX_FILING_NUMBER => State::Confirmed(number),
        _ => State::Open,
    }
}

/// What the status and the JSON value of a content say.
fn state_by(status: u16, tree: &Value) -> State
    ensures value { view_state result ≡ state_by status (view tree.now) }
    ensures fits { FitsNumber (view_state result) }
{
    if status == 201 && has_status(tree, "registered") {
        confirmed_by(tree.get("number").and_then(Value::as_u64))
    } else if (status == 422 || status == 400) && refuses(tree, "refused") {
        State::Refused
    } else if status == 422 && refuses(tree, "key-reused") {
        State::Clashed
    } else {
        State::Open
    }
}

/// What a reply says of an open entry. If its content is no JSON, the entry stays open.
fn state_told(alloc: Global, reply: &Reply) -> Result<State, AllocError>
    ensures told { IfOk result (λ state.
        view_state state ≡ state_told reply.now.status (tree reply.now.content.items)) }
    ensures fits { IfOk result (λ state. FitsNumber (view_state state)) }
{
    match Value::from_slice(alloc, reply.content.as_slice()) {
        Ok(tree) => Ok(state_by(reply.status, &tree)),
        Err(error) if error.is_memory() => Err(AllocError),
        Err(_) => Ok(State::Open),
    }
}

/// Where a reply moves an entry in this state. Any state but `Open` stays.
#[tactic(auto, unfolding(filing_model::specs::Outbox::moved))]
pub(crate) fn moved(alloc: Global, state: State, reply: &Reply) -> Result<State, AllocError>
    ensures moved { IfOk result (λ to. view_state to ≡ moved (view_state state) (reply_parts reply.now)) }
    ensures fits { IfOk result (λ to. to ≢ state → FitsNumber (view_state to)) }
{
    match state {
        State::Open => state_told(alloc, reply),
        State::Confirmed(_) | State::Refused | State::Clashed => Ok(state),
    }
}

/// What a reply says of an entry that is settled.
#[derive(Clone, Copy, Debug, PartialEq, Eq)]
pub enum Said {
    /// Nothing: it would leave an open entry open.
    Nothing,
    /// As what the entry is settled.
    Same,
    /// Something else: it would settle an open entry as this.
    Otherwise(State),
}

/// What a reply says of an entry that is settled as this.
pub fn said_of(alloc: Global, settled: State, reply: &Reply) -> Result<Said, AllocError>
    ensures { IfOk result (Says (view_state settled) (reply_parts reply.now)) }
{
    match moved(alloc, State::Open, reply)? {
        State::Open => Ok(Said::Nothing),
        told if told == settled => Ok(Said::Same),
        told => Ok(Said::Otherwise(told)),
    }
}
