//! Whether rows begin with those that a kept request puts into a table.

ghost use Rattle.std.specs.Prelude.{◌≡◌, ◌<◌, ◌^◌, ℕ, pos, false, List, [], ◌∷◌, ◌++◌, IfSome, MatchOption, Option};
ghost use Rattle.std.specs.Prelude.{None};
ghost use Rattle.sqlite.specs.Order.{Row};
ghost use Rattle.sqlite.specs.declared.types.Value.TheVariants.{Int};
ghost use Rattle.table_rows.specs.Rows.{counted_from};
ghost use Rattle.register_rows.specs.Register.{amends_rows_by};
ghost use Rattle.register_rows.specs.Columns.{begins_with};

use crate::cells::{Cell, is_row};
use crate::columns::amends;
use crate::items::RowItem;
use crate::values::number_at;
use sqlite::Row;
use sqlite::types::ValueRef;

/// The rows behind those of the items, if the rows begin with these.
pub fn after_items<'a, T: RowItem>(rows: &'a [Row], number: u64, items: &[T]) -> Option<&'a [Row]>
    requires { number < 2 ^ 63 }
    ensures { MatchOption result
        ((tail : List Row) → rows.now ≡ counted_from (T.row_of number) 1 items.now ++ tail → ⊥)
        (λ tail. rows.now ≡ counted_from (T.row_of number) 1 items.now ++ tail.now) }
{
    if rows.len() < items.len() {
        return None;
    }
    for at in 0..items.len() {
        if !items[at].is_said_by(&rows[at], number, at as u64 + 1) {
            return None;
        }
    }
    Some(&rows[items.len()..])
}

/// The number of the filing that the request at this place is to replace, if the row says one.
fn target_in(row: &Row, seq: u64) -> Option<u64>
    requires { seq < 2 ^ 63 }
    ensures some { IfSome result (λ target. row.now ≡ Int (pos seq) ∷ Int (pos target) ∷ []) }
    ensures few { IfSome result (λ target. target < 2 ^ 63) }
    ensures none { result ≡ None → (target : ℕ) → row.now ≡ Int (pos seq) ∷ Int (pos target) ∷ [] → ⊥ }
{
    match number_at(row, amends::TARGET) {
        Some(target) if is_row(row, &[Cell::Int(seq as i64), Cell::Int(target as i64)]) => Some(
            target,
        ),
        _ => None,
    }
}

/// The number of the filing that the request at this place is to replace, if the first of the rows says one, and the
/// rows behind.
pub fn target_of<'a>(rows: &'a [Row], seq: u64) -> (Option<u64>, &'a [Row])
    requires { seq < 2 ^ 63 }
    ensures begins { rows.now ≡ amends_rows_by seq result.0 ++ result.1.now }
    ensures few { IfSome result.0 (λ target. target < 2 ^ 63) }
    ensures only { (target : Option ℕ) (tail : List Row) → rows.now ≡ amends_rows_by seq target ++ tail
        → begins_with 0 seq tail ≡ false → (target ≡ result.0) × (tail ≡ result.1.now) }
{
    match rows {
        [first, rest @ ..] => match target_in(first, seq) {
            Some(target) => (Some(target), rest),
            None => (None, rows),
        },
        [] => (None, rows),
    }
}

/// Whether the first of the rows is one of the request at this place.
pub fn has_target(rows: &[Row], seq: u64) -> bool
    requires { seq < 2 ^ 63 }
    ensures { result ≡ begins_with 0 seq rows.now }
{
    match rows {
        [row, ..] => match row.get_ref(amends::SEQ) {
            Ok(ValueRef::Int(found)) => found == seq as i64,
            _ => false,
        },
        [] => false,
    }
}
