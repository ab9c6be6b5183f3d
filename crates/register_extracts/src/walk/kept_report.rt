//! A kept request: who sent it, under which key, and its report.

ghost use Rattle.std.specs.Prelude.{◌≡◌, ◌<◌, ◌^◌, ◌∷◌, [], ℕ, pos, IfOk};
ghost use Rattle.sqlite.specs.Order.{Row};
ghost use Rattle.filing_model.specs.Register.{Kept, kept};
ghost use Rattle.table_rows.specs.Leaving.{OnlyReads};
ghost use Rattle.register_store.specs.Found.{IsPlaced};
ghost use Rattle.register_store.specs.Moments.{milliseconds_of, moment_in};
ghost use Rattle.register_store.specs.Store.{ForRegister};
ghost use Rattle.register_extracts.specs.Dated.{ForDated};
ghost use Rattle.register_extracts.specs.Sent.{sent_in, sent_of};

use crate::walk::reads::sent_rows;
use crate::{Moment, moment_at};
use sqlite::{Alter, Connection, Row};
use std::marker::Model;
use table_rows::StoreFault;

/// Who sent a kept request, under which key, and the bytes of its report.
#[derive(Drop)]
pub struct KeptReport {
    pub filer: String,
    pub key: String,
    pub body: Vec<u8>,
}

impl Model for KeptReport {
    ghost use Rattle.std.specs.Prelude.{string_bytes};
    ghost use Rattle.register_extracts.specs.Sent.{SentParts};

    ghost Value = { SentParts };

    ghost view = { λ s. record { filer = string_bytes s.filer; key = string_bytes s.key; body = s.body.items } };
}

/// What a row with the columns `filer`, `idem` and `body` says.
fn read_row(row: &Row) -> Result<KeptReport, StoreFault>
    ensures { IfOk result (λ sent. sent ≡ sent_in row.now) }
{
    let filer = row.get(0)?;
    let key = row.get(1)?;
    let body = row.get(2)?;
    Ok(KeptReport { filer, key, body })
}

/// What the one row says.
fn read_first(rows: &[Row]) -> Result<KeptReport, StoreFault>
    ensures { IfOk result (λ sent. (row : Row) → rows.now ≡ row ∷ [] → sent ≡ sent_in row) }
{
    match rows.first() {
        Some(row) => read_row(row),
        None => Err(StoreFault::Store),
    }
}

/// The place as a column holds it.
fn in_column(place: u64) -> Result<i64, StoreFault>
    ensures { IfOk result (λ seq. (seq ≡ pos place) × (place < 2 ^ 63)) }
{
    i64::try_from(place).map_err(|_| StoreFault::Store)
}

/// What was sent by the request whose row has this place.
fn sent_in_row<S: Alter>(conn: &mut Connection<S>, seq: i64) -> Result<KeptReport, StoreFault>
    ensures found { ForRegister S.Store conn.old conn.new (λ _ F.
        (n : ℕ) (k : Kept) → seq ≡ pos n → IsPlaced 1 n (kept F) k
        → IfOk result (λ sent. sent ≡ sent_of k.request)) }
    ensures leaves { OnlyReads S.Store conn.old conn.new result }
{
    let rows = sent_rows(conn, seq)?;
    read_first(&rows)
}

/// What a kept request sent, and when it was received, if that is known.
#[derive(Drop)]
pub(crate) struct Dated {
    pub(crate) sent: KeptReport,
    pub(crate) received: Option<Moment>,
}

/// What was sent by the kept request at this place, counted from 1, and when it was received.
pub(crate) fn dated_at<S: Alter>(conn: &mut Connection<S>, place: u64) -> Result<Dated, StoreFault>
    ensures found { ForDated S.Store conn.old conn.new (λ F moments.
        (k : Kept) → IsPlaced 1 place (kept F) k
        → IfOk result (λ dated. (dated.sent ≡ sent_of k.request)
        × (milliseconds_of dated.received ≡ moment_in moments place))) }
    ensures leaves { OnlyReads S.Store conn.old conn.new result }
{
    let received = moment_at(conn, place)?;
    let sent = sent_at(conn, place)?;
    Ok(Dated { sent, received })
}

/// What was sent by the kept request at this place, counted from 1. Nothing is written.
pub fn sent_at<S: Alter>(conn: &mut Connection<S>, place: u64) -> Result<KeptReport, StoreFault>
    ensures found { ForRegister S.Store conn.old conn.new (λ _ F.
        (k : Kept) → IsPlaced 1 place (kept F) k → IfOk result (λ sent. sent ≡ sent_of k.request)) }
    ensures leaves { OnlyReads S.Store conn.old conn.new result }
{
    let seq = in_column(place)?;
    sent_in_row(conn, seq)
}
