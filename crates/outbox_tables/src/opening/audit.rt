//! Whether the rows of a database are those of an outbox.

ghost use Rattle.std.specs.Prelude.{◌≡◌, ◌<◌, ◌^◌, ◌++◌, ◌∷◌, [], ℕ, List, suc, get_or, length, option_map, IfOk};
ghost use Rattle.sqlite.specs.Order.{column, Row as Stored};
ghost use Rattle.sqlite_value.specs.Value.{owned};
ghost use Rattle.outbox_tables.specs.Audit.{is_int, is_absent, is_key_text, is_body, is_number, is_state, is_outbox};
ghost use Rattle.outbox_tables.specs.Audit.{filer_text, filer_in, is_entry, is_target, with_id, first_damaged};
ghost use Rattle.outbox_tables.specs.Audit.{damaged_row};
ghost use Rattle.outbox_tables.specs.Tally.{sound_from, tally_of};
ghost use Rattle.outbox_tables.specs.Targets.{said_by};

use crate::columns::{entry, meta};
use crate::opening::targets::{Said, is_left_over, said_of};
use http_messages::MAX_BODY_LEN;
use key_string::{is_key, read_filer};
use sqlite::Row;
use sqlite::types::ValueRef;
use std::alloc::{AllocError, Global};

/// The value of a column, and NULL past the end.
pub(crate) fn value_at(row: &Row, at: usize) -> ValueRef<'_>
    ensures { owned result ≡ column row.now at }
{
    row.get_ref(at).unwrap_or(ValueRef::Null)
}

fn is_int(value: ValueRef<'_>, wanted: u64) -> bool
    requires { wanted < 2 ^ 63 }
    ensures { result ≡ is_int wanted (owned value.entry) }
{
    match value {
        ValueRef::Int(found) => found == wanted as i64,
        _ => false,
    }
}

fn is_key_text(value: ValueRef<'_>) -> bool
    ensures { result ≡ is_key_text (owned value.entry) }
{
    match value {
        ValueRef::Text(text) => is_key(text),
        _ => false,
    }
}

fn is_body(value: ValueRef<'_>) -> bool
    ensures { result ≡ is_body (owned value.entry) }
{
    match value {
        ValueRef::Blob(body) => body.len() <= MAX_BODY_LEN,
        _ => false,
    }
}

pub(crate) fn is_number(value: ValueRef<'_>) -> bool
    ensures { result ≡ is_number (owned value.entry) }
{
    match value {
        ValueRef::Int(number) => 1 <= number,
        _ => false,
    }
}

fn is_absent(value: ValueRef<'_>) -> bool
    ensures { result ≡ is_absent (owned value.entry) }
{
    match value {
        ValueRef::Null => true,
        _ => false,
    }
}

fn is_state(code: ValueRef<'_>, number: ValueRef<'_>) -> bool
    ensures { result ≡ is_state (owned code.entry) (owned number.entry) }
{
    if is_int(code, 1) {
        is_number(number)
    } else {
        (is_int(code, 0) || is_int(code, 2) || is_int(code, 3)) && is_absent(number)
    }
}

/// Whether the row, of the columns `id`, `idem`, `body`, `state` and `number`, is that of an entry with this id.
fn is_entry(id: u64, row: &Row) -> bool
    requires { id < 2 ^ 63 }
    ensures { result ≡ is_entry id row.now }
{
    is_int(value_at(row, entry::ID), id)
        && is_key_text(value_at(row, entry::KEY))
        && is_body(value_at(row, entry::BODY))
        && is_state(value_at(row, entry::STATE), value_at(row, entry::NUMBER))
}

/// The value of `outbox_meta` that says what the database is.
fn is_outbox(value: ValueRef<'_>) -> bool
    ensures { result ≡ is_outbox (owned value.entry) }
{
    match value {
        ValueRef::Text(text) => text == b"outbox".as_slice(),
        _ => false,
    }
}

fn filer_text(value: ValueRef<'_>) -> Option<&str>
    ensures { option_map (λ filer. filer.now) result ≡ filer_text (owned value.entry) }
{
    match value {
        ValueRef::Text(text) => read_filer(text),
        _ => None,
    }
}

/// The filer of the one row, of the columns `id`, `kind`, `form` and `filer`, that says that the database is an outbox
/// in this form.
pub(crate) fn filer_in<'a>(rows: &'a [Row], form: u64) -> Option<&'a str>
    requires { form < 2 ^ 63 }
    ensures { option_map (λ filer. filer.now) result ≡ filer_in form rows.now }
{
    let [row] = rows else {
        return None;
    };
    if is_int(value_at(row, meta::ID), 1)
        && is_outbox(value_at(row, meta::KIND))
        && is_int(value_at(row, meta::FORM), form)
    {
        filer_text(value_at(row, meta::FILER))
    } else {
        None
    }
}

/// How many rows `entry` has, and how many of them, from the first on and in the order of the ids, are those of entries
/// with the ids 1, 2, 3, ..
#[derive(Clone, Copy)]
pub(crate) struct Tally {
    pub count: u64,
    pub sound: u64,
}

/// How many rows, from the first on, are those of entries, if this one comes after so many, of which so many are.
pub(crate) fn sound_after(count: u64, sound: u64, row: &Row) -> u64
    requires { count < 2 ^ 62 }
    ensures { (rows : List Stored) → count ≡ length rows → sound ≡ sound_from 1 rows
        → result ≡ sound_from 1 (rows ++ row.now ∷ []) }
{
    if sound == count && is_entry(count + 1, row) {
        count + 1
    } else {
        sound
    }
}

/// Whether the rows of an entry's target are sound.
fn is_fit(said: Said) -> bool
    ensures { (rows : List Stored) → said ≡ said_by rows → result ≡ is_target rows }
{
    said != Said::Unsound
}

/// The id, from 1, of the first row that is not sound as that of the entry with this id.
fn first_damaged(tally: Tally, said: &[Said]) -> Option<u64>
    requires { tally.count ≡ length said.now }
    ensures { (targets rows : List Stored) → tally ≡ tally_of rows
        → ((place : ℕ) (d : Said) → place < length rows
        → get_or said.now place d ≡ said_by (with_id (suc place) targets))
        → result ≡ first_damaged targets 1 rows }
{
    for at in 0..said.len() {
        if at as u64 == tally.sound || !is_fit(said[at]) {
            return Some(at as u64 + 1);
        }
    }
    None
}

/// The row of the first entry that is not sound; or 0, if each is sound and a row of `target` belongs to no entry. It
/// fails if memory runs out.
pub(crate) fn damaged_row(
    alloc: Global,
    targets: &[Row],
    tally: Tally,
) -> Result<Option<u64>, AllocError>
    requires { tally.count < 2 ^ 63 }
    ensures { IfOk result (λ row. (rows : List Stored) → tally ≡ tally_of rows → row ≡ damaged_row targets.now rows) }
{
    let count = tally.count as usize;
    let said = said_of(alloc, targets, count)?;
    match first_damaged(tally, said.as_slice()) {
        Some(id) => Ok(Some(id)),
        None => {
            if is_left_over(targets, count) {
                Ok(Some(0))
            } else {
                Ok(None)
            }
        }
    }
}
