//! Rows of `kept`, and what they say of their requests.

ghost use Rattle.std.specs.Prelude.{◌≡◌, ◌↔◌, ◌<◌, ◌^◌, pos, [], ◌∷◌, Option, None, IsTrue, IfSome, MatchOption, ℕ};
ghost use Rattle.sqlite.specs.declared.types.Value.TheVariants.{Int, Text, Blob};
ghost use Rattle.sqlite.specs.Values.{or_null};
ghost use Rattle.http_messages.specs.Posting.{IsTarget};
ghost use Rattle.register_rows.specs.Cells.{value_of};
ghost use Rattle.register_rows.specs.Columns.{request_in};
ghost use Rattle.register_rows.specs.Register.{IsCompleted};

use crate::cells::{Cell, is_row};
use crate::columns::kept;
use crate::values::{bytes_at, text_at};
use http_messages::MAX_BODY_LEN;
use key_string::{is_key, read_filer};
use sqlite::Row;

/// The number of a filing as a column holds it.
fn number_cell(number: Option<u64>) -> Cell<'static>
    requires { IfSome number (λ n. n < 2 ^ 63) }
    ensures { value_of result ≡ or_null (λ n. Int (pos n)) number }
{
    match number {
        Some(number) => Cell::Int(number as i64),
        None => Cell::Null,
    }
}

/// Whether the row is one of `kept` with this place and this number. Its filer, key and body may be any.
pub fn is_kept_row(row: &Row, seq: u64, number: Option<u64>) -> bool
    requires seq { seq < 2 ^ 63 }
    requires number { IfSome number (λ n. n < 2 ^ 63) }
    ensures { IsTrue result
        ↔ (row.now ≡ Int (pos seq) ∷ Text (request_in None row.now).filer ∷ Text (request_in None row.now).key ∷ Blob
        (request_in None row.now).body ∷ or_null (λ n. Int (pos n)) number ∷ []) }
{
    is_row(
        row,
        &[
            Cell::Int(seq as i64),
            Cell::Text(text_at(row, kept::FILER)),
            Cell::Text(text_at(row, kept::KEY)),
            Cell::Blob(bytes_at(row, kept::BODY)),
            number_cell(number),
        ],
    )
}

/// The filer of the row's request, if the request has a filer, a key and a body that filers may send.
pub fn filer_of<'a>(row: &'a Row) -> Option<&'a str>
    ensures { (target : Option ℕ) → IsTarget target
        → MatchOption result (IsCompleted (request_in target row.now) → ⊥) (λ filer.
        (filer.now ≡ (request_in None row.now).filer) × IsCompleted (request_in target row.now)) }
{
    let key = text_at(row, kept::KEY);
    let Some(filer) = read_filer(text_at(row, kept::FILER)) else {
        return None;
    };
    if !is_key(key) {
        return None;
    }
    if bytes_at(row, kept::BODY).len() > MAX_BODY_LEN {
        return None;
    }
    Some(filer)
}
