//! The moment of one kept request.

ghost use Rattle.std.specs.Prelude.{◌≡◌, ℕ, pos, IfOk, IfSome, Option};
ghost use Rattle.table_rows.specs.Leaving.{OnlyReads};
ghost use Rattle.register_extracts.specs.Dated.{ForDated};
ghost use Rattle.register_rows.specs.Received.{IsMoment};
ghost use Rattle.register_store.specs.Moments.{milliseconds_of, moment_in};
ghost use Rattle.register_extracts.specs.Reading.{moment_rows};

use crate::reads::rows_at;
use register_rows::Moment;
use sqlite::{Alter, Connection, Row};
use table_rows::StoreFault;

/// The moment in the one column of the first row, if there is a row.
fn read_moment(rows: &[Row]) -> Result<Option<Moment>, StoreFault>
    ensures { IfOk result (λ moment.
        (wanted : Option ℕ) → IfSome wanted IsMoment → rows.now ≡ moment_rows wanted
        → milliseconds_of moment ≡ wanted) }
{
    match rows.first() {
        None => Ok(None),
        Some(row) => Ok(Some(Moment::at(row.get(0)?))),
    }
}

/// The moment of the request whose row has this place, if it is known.
fn moment_in_row<S: Alter>(conn: &mut Connection<S>, seq: i64) -> Result<Option<Moment>, StoreFault>
    ensures found { ForDated S.Store conn.old conn.new (λ _ moments.
        (place : ℕ) → seq ≡ pos place → IfOk result (λ moment. milliseconds_of moment ≡ moment_in moments place)) }
    ensures leaves { OnlyReads S.Store conn.old conn.new result }
{
    let rows = rows_at(conn, seq)?;
    read_moment(&rows)
}

/// The moment of the kept request at this place, counted from 1. It is `None` if the moment is not known, or if there
/// is no such request. Nothing is written.
pub fn moment_at<S: Alter>(
    conn: &mut Connection<S>,
    place: u64,
) -> Result<Option<Moment>, StoreFault>
    ensures found { ForDated S.Store conn.old conn.new (λ _ moments.
        IfOk result (λ moment. milliseconds_of moment ≡ moment_in moments place)) }
    ensures leaves { OnlyReads S.Store conn.old conn.new result }
{
    match i64::try_from(place) {
        Ok(seq) => moment_in_row(conn, seq),
        Err(_) => Err(StoreFault::Store),
    }
}
