//! What the rows of `target` say of each entry. They are gone through once for all entries.

ghost use Rattle.std.specs.Prelude.{◌≡◌, ◌<◌, ◌^◌, ◌++◌, ◌∷◌, [], ℕ, List, suc, pos, false, get_or, vec_len, IfOk};
ghost use Rattle.std.specs.Prelude.{MatchOption};
ghost use Rattle.sqlite.specs.Order.{column, Row as Stored};
ghost use Rattle.sqlite.specs.declared.types.Value.TheVariants.{Int};
ghost use Rattle.outbox_tables.specs.Audit.{is_number, is_id_to, is_left_over, with_id};
ghost use Rattle.outbox_tables.specs.Targets.{said_by};

use crate::columns::target;
use crate::opening::audit::{is_number, value_at};
use sqlite::Row;
use sqlite::types::ValueRef;
use std::alloc::{AllocError, Global};

/// What the rows of `target` with an entry's id say of it.
#[derive(Clone, Copy, PartialEq, Eq)]
pub(crate) enum Said {
    /// There is no such row.
    Nothing,
    /// There is one row, with the number of a filing.
    Number,
    /// There is one row with another value, or more than one row.
    Unsound,
}

/// What is said after one row more, which `fits` if it has the number of a filing.
fn after(said: Said, fits: bool) -> Said
    ensures { (rows : List Stored) (row : Stored) → said ≡ said_by rows → fits ≡ is_number (column row 1)
        → result ≡ said_by (rows ++ row ∷ []) }
{
    match said {
        Said::Nothing if fits => Said::Number,
        _ => Said::Unsound,
    }
}

/// The place, from 0, of the row's entry among so many, if it is one of them.
fn place_of(row: &Row, count: usize) -> Option<usize>
    requires { count < 2 ^ 63 }
    ensures { MatchOption result (is_id_to count (column row.now 0) ≡ false) (λ place.
        (place < count) × (column row.now 0 ≡ Int (pos (suc place)))) }
{
    match value_at(row, target::ID) {
        ValueRef::Int(id) => {
            if 1 <= id && id <= count as i64 {
                Some(id as usize - 1)
            } else {
                None
            }
        }
        _ => None,
    }
}

/// What the rows say of each of so many entries. It fails if memory runs out.
pub(crate) fn said_of(alloc: Global, targets: &[Row], count: usize) -> Result<Vec<Said>, AllocError>
    requires { count < 2 ^ 63 }
    ensures long { IfOk result (λ said. vec_len said ≡ count) }
    ensures each { IfOk result (λ said.
        (place : ℕ) (d : Said) → place < count
        → get_or said.items place d ≡ said_by (with_id (suc place) targets.now)) }
{
    let mut said = vec![in alloc; Said::Nothing; count]?;
    for at in 0..targets.len() {
        let row = &targets[at];
        if let Some(place) = place_of(row, count) {
            said[place] = after(said[place], is_number(value_at(row, target::NUMBER)));
        }
    }
    Ok(said)
}

/// Whether a row belongs to none of so many entries.
pub(crate) fn is_left_over(targets: &[Row], count: usize) -> bool
    requires { count < 2 ^ 63 }
    ensures { result ≡ is_left_over count targets.now }
{
    targets.iter().any(|row| place_of(row, count).is_none())
}
