//! Whether the rows of `received` are those of the last of the kept requests, one for each.

ghost use Rattle.std.specs.Prelude.{◌≡◌, ◌≢◌, ◌<◌, ◌^◌, ℕ, List, ◌∷◌, Option, None, false, IfSome, IsTrue};
ghost use Rattle.sqlite.specs.Order.{Row};
ghost use Rattle.register_rows.specs.Dated.{AreDatedFrom};
ghost use Rattle.register_rows.specs.Received.{IsMoment, received_row};

use crate::cells::{Cell, is_row};
use crate::columns::received;
use crate::moment::LAST;
use crate::values::number_at;
use sqlite::Row;

/// What is kept of the rows of `received`: how many there are, the place of the kept request of the first, and how
/// many of them, from the first on, follow one another and have a moment.
#[derive(Clone, Copy, Debug)]
pub struct Dates {
    pub rows: u64,
    pub first: u64,
    pub sound: u64,
}

/// The place of the kept request whose row this is, if it is such a row, with a moment.
fn seq_in(row: &Row) -> Option<u64>
    ensures some { IfSome result (λ seq.
        (seq < 2 ^ 63) × ((moment : ℕ) × IsMoment moment × (row.now ≡ received_row seq moment))) }
    ensures none { result ≡ None → (seq moment : ℕ) → IsMoment moment → row.now ≢ received_row seq moment }
{
    let seq = number_at(row, received::SEQ)?;
    let moment = number_at(row, received::MOMENT)?;
    if moment <= LAST && is_row(row, &[Cell::Int(seq as i64), Cell::Int(moment as i64)]) {
        Some(seq)
    } else {
        None
    }
}

/// The place of the kept request whose row is the first, if it is such a row, with a moment.
fn first_in(rows: &[Row]) -> Option<u64>
    ensures some { IfSome result (λ seq.
        (seq < 2 ^ 63)
        × ((moment : ℕ) × (more : List Row) × IsMoment moment × (rows.now ≡ received_row seq moment ∷ more))) }
    ensures none { result ≡ None
        → (seq moment : ℕ) (more : List Row) → IsMoment moment → rows.now ≢ received_row seq moment ∷ more }
{
    match rows {
        [row, ..] => seq_in(row),
        [] => None,
    }
}

/// Whether it is the row of the kept request at this place, with a moment.
fn is_dated(row: &Row, seq: u64) -> bool
    ensures yes { IsTrue result → (moment : ℕ) × IsMoment moment × (row.now ≡ received_row seq moment) }
    ensures no { result ≡ false → (moment : ℕ) → IsMoment moment → row.now ≢ received_row seq moment }
{
    match seq_in(row) {
        Some(place) => place == seq,
        None => false,
    }
}

/// How many of the rows, from the first on, are those of the kept requests from this place on, each with a moment.
fn dated_from(rows: &[Row], first: u64) -> u64
    requires { first < 2 ^ 63 }
    ensures { AreDatedFrom first rows.now result }
{
    for at in 0..rows.len() {
        if !is_dated(&rows[at], first + at as u64) {
            return at as u64;
        }
    }
    rows.len() as u64
}

impl Dates {
    ghost use Rattle.register_rows.specs.Dates.{AreDates, IsUndatedAt, SaysMoments, SaysNoMoments};

    /// What is kept of these rows, which are in the order of their key.
    pub fn of(rows: &[Row]) -> Dates
        ensures { AreDates rows.now result }
    {
        match first_in(rows) {
            Some(first) => Dates {
                rows: rows.len() as u64,
                first,
                sound: dated_from(rows, first),
            },
            None => Dates {
                rows: rows.len() as u64,
                first: 0,
                sound: 0,
            },
        }
    }

    /// The row to report of so many kept requests, if the rows are not those of the last of them, one for each: the
    /// first kept row that has no moment and comes behind one that has one. If the first row is none of the last kept
    /// requests, as many as there are rows, or of one before them, it is the first of these; and 0 if there are more
    /// rows.
    pub fn first_undated(self, kept: u64) -> Option<u64>
        ensures sound { result ≡ None → (rows : List Row) → AreDates rows self
            → (moments : List (Option ℕ)) × SaysMoments kept rows moments }
        ensures told { IfSome result (λ row. (rows : List Row) → AreDates rows self
            → SaysNoMoments kept rows × IsUndatedAt kept rows row) }
    {
        if self.rows > kept {
            return Some(0);
        }
        if self.rows == 0 {
            return None;
        }
        let place = kept - self.rows + 1;
        if self.sound == 0 || self.first > place {
            return Some(place);
        }
        if self.sound <= kept - self.first {
            Some(self.first + self.sound)
        } else {
            None
        }
    }
}
