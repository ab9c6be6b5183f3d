//! A kept request with its number and its moment.

ghost use Rattle.std.specs.Prelude.{◌≡◌, ◌<◌, ◌^◌, ◌∷◌, [], ℕ, pos, map, Option, IfOk};
ghost use Rattle.filing_model.specs.Register.{Kept, kept};
ghost use Rattle.table_rows.specs.Leaving.{OnlyReads};
ghost use Rattle.register_rows.specs.Register.{amends_rows_by, kept_row};
ghost use Rattle.register_store.specs.Found.{IsPlaced, target_alone};
ghost use Rattle.register_store.specs.Moments.{milliseconds_of, moment_in};
ghost use Rattle.register_store.specs.Store.{ForRegister};
ghost use Rattle.register_extracts.specs.Dated.{ForDated};
ghost use Rattle.register_extracts.specs.Digest.{row_of};
ghost use Rattle.register_extracts.specs.DigestReading.{kept_columns};
ghost use Rattle.register_extracts.specs.Views.{view_row};

use crate::digest_reads::{rows_at, target_rows_at};
use crate::row::Row;
use crate::{Moment, moment_at};
use sqlite::{Alter, Connection};
use std::marker::Model;
use table_rows::StoreFault;

/// A kept request with its number, if it was registered, and its moment, if that is known.
#[derive(Drop)]
pub(crate) struct KeptRequest {
    filer: String,
    key: String,
    target: Option<u64>,
    body: Vec<u8>,
    number: Option<u64>,
    moment: Option<u64>,
}

impl Model for KeptRequest {
    ghost use Rattle.std.specs.Prelude.{string_bytes};
    ghost use Rattle.register_extracts.specs.Digest.{Row};

    ghost Value = { Row };

    ghost view = { λ k. record {
      request = record {
        filer = string_bytes k.filer;
        key = string_bytes k.key;
        target = k.target;
        body = k.body.items;
      };
      number = k.number;
      moment = k.moment;
    } };
}

impl KeptRequest {
    /// What a digest is computed of.
    pub(crate) fn row(&self) -> Row<'_>
        ensures { view_row result ≡ self.now }
    {
        Row {
            filer: self.filer.as_str(),
            key: self.key.as_str(),
            target: self.target,
            body: &self.body,
            number: self.number,
            moment: self.moment,
        }
    }
}

/// What is read of a request beside its row: the filing that it is to replace, and its moment.
#[derive(Clone, Copy)]
struct Beside {
    target: Option<u64>,
    moment: Option<u64>,
}

/// The request in a row with the columns `filer`, `idem`, `body` and `number`.
fn read_row(row: &sqlite::Row, beside: Beside) -> Result<KeptRequest, StoreFault>
    ensures { IfOk result (λ request. (seq : ℕ) (k : Kept) → row.now ≡ kept_columns (kept_row seq k)
        → beside.target ≡ k.request.target → request ≡ row_of k beside.moment) }
{
    let filer = row.get(0)?;
    let key = row.get(1)?;
    let body = row.get(2)?;
    let number = row.get(3)?;
    Ok(KeptRequest {
        filer,
        key,
        target: beside.target,
        body,
        number,
        moment: beside.moment,
    })
}

/// The request in the one row.
fn read_first(rows: &[sqlite::Row], beside: Beside) -> Result<KeptRequest, StoreFault>
    ensures { IfOk result (λ request. (seq : ℕ) (k : Kept) → rows.now ≡ kept_columns (kept_row seq k) ∷ []
        → beside.target ≡ k.request.target → request ≡ row_of k beside.moment) }
{
    match rows.first() {
        Some(row) => read_row(row, beside),
        None => Err(StoreFault::Store),
    }
}

/// The number in the one column of the first row, if there is a row.
fn read_target(rows: &[sqlite::Row]) -> Result<Option<u64>, StoreFault>
    ensures { IfOk result (λ target.
        (seq : ℕ) (wanted : Option ℕ) → rows.now ≡ map target_alone (amends_rows_by seq wanted) → target ≡ wanted) }
{
    match rows.first() {
        None => Ok(None),
        Some(row) => Ok(Some(row.get(0)?)),
    }
}

/// The filing that the request at this place is to replace, if any.
fn target_at<S: Alter>(conn: &mut Connection<S>, seq: i64) -> Result<Option<u64>, StoreFault>
    ensures found { ForRegister S.Store conn.old conn.new (λ _ F.
        (n : ℕ) (k : Kept) → seq ≡ pos n → IsPlaced 1 n (kept F) k
        → IfOk result (λ target. target ≡ k.request.target)) }
    ensures leaves { OnlyReads S.Store conn.old conn.new result }
{
    let rows = target_rows_at(conn, seq)?;
    read_target(&rows)
}

/// The request at this place.
fn with_beside<S: Alter>(
    conn: &mut Connection<S>,
    seq: i64,
    beside: Beside,
) -> Result<KeptRequest, StoreFault>
    ensures found { ForRegister S.Store conn.old conn.new (λ _ F.
        (n : ℕ) (k : Kept) → seq ≡ pos n → IsPlaced 1 n (kept F) k → beside.target ≡ k.request.target
        → IfOk result (λ request. request ≡ row_of k beside.moment)) }
    ensures leaves { OnlyReads S.Store conn.old conn.new result }
{
    let rows = rows_at(conn, seq)?;
    read_first(&rows, beside)
}

/// The request at this place, which was received at this moment, with the filing that it is to replace, if any.
fn in_row<S: Alter>(
    conn: &mut Connection<S>,
    seq: i64,
    moment: Option<u64>,
) -> Result<KeptRequest, StoreFault>
    ensures found { ForRegister S.Store conn.old conn.new (λ _ F.
        (n : ℕ) (k : Kept) → seq ≡ pos n → IsPlaced 1 n (kept F) k
        → IfOk result (λ request. request ≡ row_of k moment)) }
    ensures leaves { OnlyReads S.Store conn.old conn.new result }
{
    let target = target_at(conn, seq)?;
    with_beside(conn, seq, Beside { target, moment })
}

/// A moment in milliseconds.
fn in_milliseconds(moment: Option<Moment>) -> Option<u64>
    ensures { result ≡ milliseconds_of moment }
{
    match moment {
        Some(moment) => Some(moment.milliseconds()),
        None => None,
    }
}

/// The place as a column holds it.
fn in_column(place: u64) -> Result<i64, StoreFault>
    ensures { IfOk result (λ seq. (seq ≡ pos place) × (place < 2 ^ 63)) }
{
    i64::try_from(place).map_err(|_| StoreFault::Store)
}

/// The kept request at this place, counted from 1. Nothing is written.
pub(crate) fn kept_at<S: Alter>(
    conn: &mut Connection<S>,
    place: u64,
) -> Result<KeptRequest, StoreFault>
    ensures found { ForDated S.Store conn.old conn.new (λ F moments.
        (k : Kept) → IsPlaced 1 place (kept F) k
        → IfOk result (λ request. request ≡ row_of k (moment_in moments place))) }
    ensures leaves { OnlyReads S.Store conn.old conn.new result }
{
    let seq = in_column(place)?;
    let moment = moment_at(conn, place)?;
    in_row(conn, seq, in_milliseconds(moment))
}
