//! Rows compared with values.

ghost use Rattle.std.specs.Prelude.{◌≡◌, ◌↔◌, ◌<◌, length, map, IsTrue};
ghost use Rattle.sqlite.specs.Order.{column};
ghost use Rattle.sqlite_value.specs.Value.{owned};
ghost use Rattle.register_rows.specs.Cells.{value_of};

use sqlite::Row;
use sqlite::types::ValueRef;

/// A value that a column may hold.
#[derive(Clone, Copy)]
pub enum Cell<'a> {
    Null,
    Int(i64),
    Text(&'a [u8]),
    Blob(&'a [u8]),
}

fn is_cell(value: ValueRef<'_>, cell: Cell<'_>) -> bool
    ensures { IsTrue result ↔ (owned value.entry ≡ value_of cell.entry) }
{
    match (value, cell) {
        (ValueRef::Null, Cell::Null) => true,
        (ValueRef::Int(value), Cell::Int(wanted)) => value == wanted,
        (ValueRef::Text(value), Cell::Text(wanted)) => value == wanted,
        (ValueRef::Blob(value), Cell::Blob(wanted)) => value == wanted,
        _ => false,
    }
}

/// Whether the row has the value in this column.
fn has_cell(row: &Row, at: usize, cell: Cell<'_>) -> bool
    ensures { at < length row.now → IsTrue result ↔ (column row.now at ≡ value_of cell.entry) }
{
    match row.get_ref(at) {
        Ok(value) => is_cell(value, cell),
        Err(_) => false,
    }
}

/// Whether the row has these values and no others.
pub fn is_row(row: &Row, cells: &[Cell<'_>]) -> bool
    ensures { IsTrue result ↔ (row.now ≡ map value_of cells.now) }
{
    if row.column_count() != cells.len() {
        return false;
    }
    for at in 0..cells.len() {
        if !has_cell(row, at, cells[at]) {
            return false;
        }
    }
    true
}
