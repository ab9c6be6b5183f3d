//! The body of a kept request, in the row that was read.

ghost use Rattle.std.specs.Prelude.{◌≡◌, IfOk};
ghost use Rattle.sqlite_value.specs.Value.{owned};
ghost use Rattle.sqlite.specs.Order.{column};
ghost use Rattle.register_rows.specs.Columns.{bytes_in};

use crate::columns::found;
use sqlite::Row;
use sqlite::types::ValueRef;
use std::marker::Model;
use table_rows::StoreFault;

/// The body of a kept request. Its bytes lie in the row that was read, and are not copied out of it.
#[derive(Drop)]
pub struct KeptBody {
    row: Row,
}

impl Model for KeptBody {
    ghost use Rattle.std.specs.Prelude.{ℕ, List};
    ghost use Rattle.sqlite.specs.Order.{column};
    ghost use Rattle.register_rows.specs.Columns.{bytes_in};

    ghost Value = { List ℕ };

    ghost view = { λ body. bytes_in (column body.row 1) };
}

impl KeptBody {
    /// The body in a row with the columns `seq`, `body` and `number`.
    pub(crate) fn of_row(row: Row) -> Result<KeptBody, StoreFault>
        ensures { IfOk result (λ body. body ≡ bytes_in (column row 1)) }
    {
        match row.get_ref(found::BODY) {
            Ok(ValueRef::Blob(_)) => Ok(KeptBody { row }),
            _ => Err(StoreFault::Store),
        }
    }

    /// Its bytes.
    pub fn as_slice(&self) -> &[u8]
        ensures { result.now ≡ self.now }
    {
        match self.row.get_ref(found::BODY) {
            Ok(value) => blob_in(value),
            Err(_) => &[],
        }
    }
}

/// The bytes of a blob, or none if the value is no blob.
fn blob_in(value: ValueRef<'_>) -> &[u8]
    ensures { result.now ≡ bytes_in (owned value.entry) }
{
    match value {
        ValueRef::Blob(bytes) => bytes,
        _ => &[],
    }
}
