//! In which form a register is.

ghost use Rattle.std.specs.Prelude.{◌≡◌, ◌≢◌, ◌↔◌, pos, [], ◌∷◌, Option, None, IfSome, IsTrue};
ghost use Rattle.register_rows.specs.Register.{form_row};
ghost use Rattle.register_tables.specs.Earlier.{number_of_form};
ghost use Rattle.register_tables.specs.declared.opening.form.Earlier.{Earlier};

use register_rows::{Cell, is_row};
use sqlite::Row;

/// The forms in which earlier versions kept registers.
#[derive(Clone, Copy, Debug, PartialEq, Eq)]
pub enum Earlier {
    /// With the tables of every form alone: all kept requests are from before there were problem details.
    Second,
    /// With `migrated`, whose row says how many of the kept requests are, from the first on.
    Third,
    /// With `amends` too, which has the filings that kept requests are to replace.
    Fourth,
}

/// The number in the row of `intake_meta` of a register in this form: an earlier one, or the present one.
fn number(form: Option<Earlier>) -> i64
    ensures { result ≡ pos (number_of_form form) }
{
    match form {
        Some(Earlier::Second) => 2,
        Some(Earlier::Third) => 3,
        Some(Earlier::Fourth) => 4,
        None => 5,
    }
}

fn has_form(row: &Row, form: Option<Earlier>) -> bool
    ensures { IsTrue result ↔ (row.now ≡ form_row (number_of_form form)) }
{
    is_row(
        row,
        &[
            Cell::Int(1),
            Cell::Text(b"register".as_slice()),
            Cell::Int(number(form)),
        ],
    )
}

/// The form whose row this is.
fn form_of(row: &Row) -> Option<Option<Earlier>>
    ensures some { IfSome result (λ form. row.now ≡ form_row (number_of_form form)) }
    ensures none { result ≡ None → (form : Option Earlier) → row.now ≢ form_row (number_of_form form) }
{
    if has_form(row, None) {
        Some(None)
    } else if has_form(row, Some(Earlier::Fourth)) {
        Some(Some(Earlier::Fourth))
    } else if has_form(row, Some(Earlier::Third)) {
        Some(Some(Earlier::Third))
    } else if has_form(row, Some(Earlier::Second)) {
        Some(Some(Earlier::Second))
    } else {
        None
    }
}

/// The form whose one row of `intake_meta` these are.
pub(crate) fn form_in(rows: &[Row]) -> Option<Option<Earlier>>
    ensures some { IfSome result (λ form. rows.now ≡ form_row (number_of_form form) ∷ []) }
    ensures none { result ≡ None → (form : Option Earlier) → rows.now ≢ form_row (number_of_form form) ∷ [] }
{
    match rows {
        [row] => form_of(row),
        _ => None,
    }
}
