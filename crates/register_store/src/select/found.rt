//! What is kept of a filer and key: the row of its request, and the findings if that was refused.

ghost use Rattle.std.specs.Prelude.{◌≡◌, ℕ, pos, List, map, Option, IfOk};
ghost use Rattle.sqlite.specs.Held.{state};
ghost use Rattle.sqlite.specs.State.{HasCleanDisk};
ghost use Rattle.filing_model.specs.Request.{Request};
ghost use Rattle.filing_model.specs.Register.{Kept, kept};
ghost use Rattle.table_rows.specs.Leaving.{MayRead, OnlyReads};
ghost use Rattle.table_rows.specs.Standing.{HasCommitted};
ghost use Rattle.register_rows.specs.Register.{amends_rows_by, findings_of, number_of};
ghost use Rattle.xbrl_report.specs.CodeNumber.{number_of as code_number};
ghost use Rattle.register_tables.specs.Registers.{IsRegisterOf};
ghost use Rattle.register_store.specs.Store.{ForRegister};
ghost use Rattle.register_store.specs.Outcomes.{kept_as, style_at};
ghost use Rattle.register_store.specs.Found.{FindsKept, IsFound, IsLookUp, IsPlaced, IsReading, found_row, finding_in};
ghost use Rattle.register_store.specs.Found.{target_alone};

use crate::columns::{finding, found};
use crate::decode::facts::read_text;
use crate::kept_body::KeptBody;
use crate::outcome::KeptRow;
use crate::rows::{rows_of_findings, rows_of_target, rows_with_key};
use filing_model::{Outcome, Style};
use sqlite::{Alter, Connection, Row};
use std::alloc::Global;
use table_rows::StoreFault;
use xbrl_report::{Code, Finding, Findings};

/// A kept row without its filer and key: its place, its body, and its number if it was registered.
#[derive(Drop)]
pub(crate) struct FoundRow {
    pub(crate) seq: i64,
    pub(crate) body: KeptBody,
    pub(crate) number: Option<u64>,
}

/// What a row with the columns `seq`, `body` and `number` says.
fn read_found(row: Row) -> Result<FoundRow, StoreFault>
    ensures { IfOk result (λ found.
        (seq : ℕ) (k : Kept) → row ≡ found_row seq k
        → (found.seq ≡ pos seq) × (found.body ≡ k.request.body) × (found.number ≡ number_of k.outcome)) }
{
    let seq = row.get(found::SEQ)?;
    let number = row.get(found::NUMBER)?;
    let body = KeptBody::of_row(row)?;
    Ok(FoundRow { seq, body, number })
}

/// The code of this number.
fn code_of(number: i64) -> Result<Code, StoreFault>
    ensures { IfOk result (λ code. number ≡ pos (code_number code)) }
{
    Code::of_number(number).ok_or(StoreFault::Store)
}

/// The finding of a row with the columns `code` and `place`.
fn read_finding(row: &Row) -> Result<Finding, StoreFault>
    ensures { IfOk result (λ finding. finding ≡ finding_in row.now) }
{
    let number: i64 = row.get(finding::CODE)?;
    let code = code_of(number)?;
    let place = read_text(row, finding::PLACE)?;
    Ok(Finding { place, code })
}

/// The findings of such rows.
fn read_list(alloc: Global, rows: &[Row]) -> Result<Vec<Finding>, StoreFault>
    ensures { IfOk result (λ list. list.items ≡ map finding_in rows.now) }
{
    let mut list = Vec::new(alloc);
    for row in rows {
        list.push(read_finding(row)?)?;
    }
    Ok(list)
}

/// The findings of such rows, of which a refused request has at least one.
fn read_findings(alloc: Global, rows: &[Row]) -> Result<Findings, StoreFault>
    ensures { IfOk result (λ findings. findings ≡ map finding_in rows.now) }
{
    Findings::from_list(read_list(alloc, rows)?).ok_or(StoreFault::Store)
}

/// What the first row says, if there is one.
fn read_first(rows: Vec<Row>) -> Result<Option<FoundRow>, StoreFault>
    ensures { IfOk result (IsReading rows.items) }
{
    match rows.into_iter().next() {
        None => Ok(None),
        Some(row) => Ok(Some(read_found(row)?)),
    }
}

/// The row that is kept for a filer and key.
fn find_row<S: Alter>(
    conn: &mut Connection<S>,
    filer: &str,
    key: &str,
) -> Result<Option<FoundRow>, StoreFault>
    ensures found { ForRegister S.Store conn.old conn.new (λ _ F. IfOk result (IsLookUp filer.now key.now F)) }
    ensures leaves { OnlyReads S.Store conn.old conn.new result }
{
    let rows = rows_with_key(conn, filer, key)?;
    read_first(rows)
}

/// The findings of the refused request at this place.
fn findings_at<S: Alter>(
    conn: &mut Connection<S>,
    alloc: Global,
    seq: i64,
) -> Result<Findings, StoreFault>
    ensures found { ForRegister S.Store conn.old conn.new (λ _ F.
        (n : ℕ) (k : Kept) → seq ≡ pos n → IsPlaced 1 n (kept F) k
        → IfOk result (λ findings. findings ≡ findings_of k.outcome)) }
    ensures leaves { OnlyReads S.Store conn.old conn.new result }
{
    let rows = rows_of_findings(conn, seq)?;
    read_findings(alloc, &rows)
}

/// The number in the one column of the first row, if there is a row.
fn read_target(rows: &[Row]) -> Result<Option<u64>, StoreFault>
    ensures { IfOk result (λ target.
        (seq : ℕ) (wanted : Option ℕ) → rows.now ≡ map target_alone (amends_rows_by seq wanted) → target ≡ wanted) }
{
    match rows.first() {
        None => Ok(None),
        Some(row) => Ok(Some(row.get(0)?)),
    }
}

/// The filing that the request at this place is to replace, if any.
pub(crate) fn target_at<S: Alter>(
    conn: &mut Connection<S>,
    seq: i64,
) -> Result<Option<u64>, StoreFault>
    ensures found { ForRegister S.Store conn.old conn.new (λ _ F.
        (n : ℕ) (k : Kept) → seq ≡ pos n → IsPlaced 1 n (kept F) k
        → IfOk result (λ target. target ≡ k.request.target)) }
    ensures leaves { OnlyReads S.Store conn.old conn.new result }
{
    let rows = rows_of_target(conn, seq)?;
    read_target(&rows)
}

/// The style in which the request at this place is answered: the earlier one for the first `old_style` requests.
fn style_at(old_style: u64, seq: i64) -> Style
    ensures { (place : ℕ) → seq ≡ pos place → result ≡ style_at old_style place }
{
    match u64::try_from(seq) {
        Ok(place) if place <= old_style => Style::Old,
        _ => Style::Problem,
    }
}

/// The kept row with its target and its outcome: registered under its number, or, if it has none, refused with its
/// findings.
fn with_outcome<S: Alter>(
    conn: &mut Connection<S>,
    alloc: Global,
    old_style: u64,
    target: Option<u64>,
    found: FoundRow,
) -> Result<KeptRow, StoreFault>
    ensures found { HasCleanDisk (state S.Store conn.new) → (filer key : List ℕ) (n : ℕ) (F : List Request)
        → HasCommitted (IsRegisterOf n F) (state S.Store conn.old) → (is : IsFound filer key F found)
        → target ≡ is.k.request.target → IfOk result (λ row. kept_as filer key row ≡ is.k) }
    ensures style { (place : ℕ) → found.seq ≡ pos place → IfOk result (λ row. row.style ≡ style_at old_style place) }
    ensures leaves { MayRead S.Store conn.old conn.new result }
{
    let FoundRow { seq, body, number } = found;
    let style = style_at(old_style, seq);
    match number {
        Some(number) => Ok(KeptRow {
            target,
            body,
            outcome: Outcome::Registered(number),
            style,
        }),
        None => {
            let findings = findings_at(conn, alloc, seq)?;
            Ok(KeptRow {
                target,
                body,
                outcome: Outcome::Refused(findings),
                style,
            })
        }
    }
}

/// The kept row with its target and its outcome, which are read.
fn read_kept_row<S: Alter>(
    conn: &mut Connection<S>,
    alloc: Global,
    old_style: u64,
    found: FoundRow,
) -> Result<KeptRow, StoreFault>
    ensures found { HasCleanDisk (state S.Store conn.new) → (filer key : List ℕ) (n : ℕ) (F : List Request)
        → HasCommitted (IsRegisterOf n F) (state S.Store conn.old) → (is : IsFound filer key F found)
        → IfOk result (λ row. kept_as filer key row ≡ is.k) }
    ensures style { (place : ℕ) → found.seq ≡ pos place → IfOk result (λ row. row.style ≡ style_at old_style place) }
    ensures leaves { OnlyReads S.Store conn.old conn.new result }
{
    let target = target_at(conn, found.seq)?;
    with_outcome(conn, alloc, old_style, target, found)
}

/// What is kept of a filer and key, or `None` if they are new. The first `old_style` requests are answered in the
/// earlier style.
pub(crate) fn find_kept<S: Alter>(
    conn: &mut Connection<S>,
    alloc: Global,
    old_style: u64,
    filer: &str,
    key: &str,
) -> Result<Option<KeptRow>, StoreFault>
    ensures { FindsKept S.Store old_style filer.now key.now conn.old conn.new result }
{
    match find_row(conn, filer, key)? {
        Some(found) => {
            let row = read_kept_row(conn, alloc, old_style, found)?;
            Ok(Some(row))
        }
        None => Ok(None),
    }
}
