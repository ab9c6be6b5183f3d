//! What a table has several rows of for one request or filing: the findings of a request, the facts of a filing, and
//! the numbers of a request's filings.

ghost use Rattle.std.specs.Prelude.{◌≡◌, ◌↔◌, ◌<◌, ◌^◌, ℕ, pos, [], ◌∷◌, IsTrue, Option, option_map, string_bytes};
ghost use Rattle.sqlite.specs.Order.{Row};
ghost use Rattle.sqlite.specs.declared.types.Value.TheVariants.{Int, Blob};
ghost use Rattle.sqlite.specs.Values.{or_null};
ghost use Rattle.register_rows.specs.Cells.{value_of};
ghost use Rattle.register_rows.specs.Register.{finding_row, fact_row};

use crate::cells::{Cell, is_row};
use sqlite::Row;
use xbrl_report::{Fact, Finding};

/// What has a row of its own among others of its kind: a finding, a fact or the number of a filing.
pub trait RowItem {
    // Its row, if its request or filing has this number, and it is at this place among those of its kind, from 1.
    ghost row_of: { ℕ → ℕ → Self → Row };

    /// Whether the row is its own.
    fn is_said_by(&self, row: &Row, number: u64, at: u64) -> bool
        requires number { number < 2 ^ 63 }
        requires at { at < 2 ^ 63 }
        ensures { IsTrue result ↔ (row.now ≡ row_of number at self.now) };
}

impl RowItem for Finding {
    ghost row_of = { finding_row };

    fn is_said_by(&self, row: &Row, number: u64, at: u64) -> bool {
        is_row(
            row,
            &[
                Cell::Int(number as i64),
                Cell::Int(at as i64),
                Cell::Int(i64::from(self.code.number())),
                Cell::Blob(self.place.as_bytes()),
            ],
        )
    }
}

impl RowItem for Fact {
    ghost row_of = { fact_row };

    fn is_said_by(&self, row: &Row, number: u64, at: u64) -> bool {
        is_row(
            row,
            &[
                Cell::Int(number as i64),
                Cell::Int(at as i64),
                Cell::Blob(self.id.as_bytes()),
                Cell::Blob(self.concept.as_bytes()),
                Cell::Blob(self.dimensions.as_bytes()),
                optional_bytes(&self.value),
                optional_integer(self.decimals),
            ],
        )
    }
}

/// The number of a filing.
impl RowItem for i64 {
    ghost row_of = { λ seq _ number. Int number ∷ Int (pos seq) ∷ [] };

    fn is_said_by(&self, row: &Row, number: u64, _at: u64) -> bool {
        is_row(row, &[Cell::Int(*self), Cell::Int(number as i64)])
    }
}

fn optional_bytes(text: &Option<String>) -> Cell<'_>
    ensures { value_of result ≡ or_null Blob (option_map (λ s. string_bytes s) text.now) }
{
    match text {
        Some(text) => Cell::Blob(text.as_bytes()),
        None => Cell::Null,
    }
}

fn optional_integer(number: Option<i64>) -> Cell<'static>
    ensures { value_of result ≡ or_null Int number }
{
    match number {
        Some(number) => Cell::Int(number),
        None => Cell::Null,
    }
}
