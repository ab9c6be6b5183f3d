//! Whether the rows of a register's tables stand for requests, found with one kept request in memory at a time.

ghost use Rattle.std.specs.Prelude.{◌≡◌, ◌↔◌, ◌⊎◌, ◌<◌, ◌≤◌, ◌^◌, ◌+◌, ◌++◌, ℕ, pos, List, length, filter, [], ◌∷◌};
ghost use Rattle.std.specs.Prelude.{Option, None, Some, IsTrue, IfOk, IfSome, OnOk, OnSome, MatchOption};
ghost use Rattle.sqlite.specs.Held.{state};
ghost use Rattle.sqlite.specs.State.{HasCleanDisk};
ghost use Rattle.sqlite.specs.declared.types.Value.TheVariants.{Int};
ghost use Rattle.table_rows.specs.Leaving.{OnlyReads};
ghost use Rattle.table_rows.specs.Rows.{counted_from};
ghost use Rattle.xbrl_report.specs.ReportParts.{facts as facts_of};
ghost use Rattle.xbrl_report.specs.Judgement.{HasFacts};
ghost use Rattle.filing_model.specs.Register.{Outcome, Kept, judged, kept};
ghost use Rattle.filing_model.specs.Request.{Request};
ghost use Rattle.register_rows.specs.Outcomes.{outcome_of, request_outcome};
ghost use Rattle.register_rows.specs.Catalogue.{catalogue_of, view_lines};
ghost use Rattle.register_rows.specs.Columns.{request_in};
ghost use Rattle.register_rows.specs.Filed.{AreFiled};
ghost use Rattle.register_rows.specs.Register.{finding_row, fact_row};
ghost use Rattle.register_rows.specs.Schema.{common_tables, kept_table, finding_table, filing_table, fact_table};
ghost use Rattle.register_tables.specs.Reads.{AsksOurs, CanBeRead, ReadsOurs, Never, has_second, has_texts};
ghost use Rattle.register_tables.specs.Walk.{Amounts, IsBehind, IsBeyond, IsFirstUnsound, IsNext, IsPast, IsUnsound};
ghost use Rattle.register_tables.specs.Walk.{NonePasses, Passes, Walked, is_stray, of_requests};
ghost use Rattle.table_rows.specs.Picking.{has_number, Picks, rows_in};

use crate::fault::OpenFault;
use crate::opening::watch::Watch;
use crate::select::picks;
use filing_model::{MAX_KEPT, is_target};
use register_rows::columns::kept;
use register_rows::{
    Catalogue, Filed, RowItem, after_items, bytes_at, filer_of, has_target, is_kept_row, number_at,
    target_of, text_at,
};
use sqlite::{Alter, Connection, Error, Row};
use std::alloc::Global;
use xbrl_report::{Fact, Finding, Judged};

/// The column of `amends` in which a row says the place of its request.
const PLACE: usize = 0;

/// What is left of the tables beside `kept` behind the requests that were walked past: the rows of `amends`, and of the
/// other tables the number of rows. And the number of the next filing.
#[derive(Clone, Copy)]
pub(crate) struct Left<'a> {
    pub(crate) amends: &'a [Row],
    pub(crate) findings: u64,
    pub(crate) filings: u64,
    pub(crate) facts: u64,
    pub(crate) number: u64,
}

fn are_items<T: RowItem>(rows: &[Row], number: u64, items: &[T]) -> bool
    requires { number < 2 ^ 63 }
    ensures { IsTrue result ↔ (rows.now ≡ counted_from (T.row_of number) 1 items.now) }
{
    match after_items(rows, number, items) {
        Some(rest) => rest.is_empty(),
        None => false,
    }
}

/// Whether the request at this place has these findings.
fn has_findings<S: Alter>(
    conn: &mut Connection<S>,
    seq: u64,
    findings: &[Finding],
) -> Result<bool, Error>
    requires { seq < 2 ^ 63 }
    ensures { AsksOurs common_tables S.Store conn.old conn.new result (λ found db.
        IsTrue found ↔ Picks finding_table (has_number seq) (counted_from (finding_row seq) 1 findings.now) db) }
{
    let rows = picks::findings_at(conn, seq)?;
    Ok(are_items(&rows, seq, findings))
}

/// Whether the filings of the request at this place have these numbers.
fn has_filings<S: Alter>(conn: &mut Connection<S>, seq: u64, numbers: &[i64]) -> Result<bool, Error>
    requires place { seq < 2 ^ 63 }
    requires few { length numbers.now ≤ 1 }
    ensures { AsksOurs common_tables S.Store conn.old conn.new result (λ found db.
        IsTrue found
        ↔ Picks filing_table (has_second seq) (counted_from (λ _ number. Int number ∷ Int (pos seq) ∷ []) 1 numbers.now)
        db) }
{
    let rows = picks::filings_of(conn, seq)?;
    Ok(are_items(&rows, seq, numbers))
}

/// Whether the filing with this number has these facts.
fn has_facts<S: Alter>(conn: &mut Connection<S>, number: u64, facts: &[Fact]) -> Result<bool, Error>
    requires { number < 2 ^ 63 }
    ensures { AsksOurs common_tables S.Store conn.old conn.new result (λ found db.
        IsTrue found ↔ Picks fact_table (has_number number) (counted_from (fact_row number) 1 facts.now) db) }
{
    let rows = picks::facts_numbered(conn, number)?;
    Ok(are_items(&rows, number, facts))
}

/// Whether no other kept row has the filer and key of this one.
fn is_alone<S: Alter>(conn: &mut Connection<S>, row: &Row) -> Result<bool, Error>
    ensures { AsksOurs common_tables S.Store conn.old conn.new result (λ alone db.
        IsTrue alone
        ↔ (length (filter (has_texts (request_in None row.now).filer (request_in None row.now).key)
        (rows_in db kept_table))
        ≡ 1)) }
{
    let count = picks::count_with_key(conn, text_at(row, kept::FILER), text_at(row, kept::KEY))?;
    Ok(count == 1)
}

/// What is left behind so many findings, if there are as many.
fn without_findings<'a>(left: Left<'a>, count: u64) -> Option<Left<'a>>
    ensures { MatchOption result (left.entry.findings < count) (λ tail.
        (left.entry.findings ≡ tail.findings + count) × (tail.filings ≡ left.entry.filings)
        × (tail.facts ≡ left.entry.facts) × (tail.number ≡ left.entry.number)
        × (tail.amends.now ≡ left.entry.amends.now)) }
{
    let findings = left.findings.checked_sub(count)?;
    Some(Left { findings, ..left })
}

/// What is left behind a filing and so many facts, if there are as many.
fn without_filing<'a>(left: Left<'a>, count: u64) -> Option<Left<'a>>
    requires { left.number < 2 ^ 63 }
    ensures { MatchOption result ((left.entry.filings ≡ 0) ⊎ (left.entry.facts < count)) (λ tail.
        (tail.findings ≡ left.entry.findings) × (left.entry.filings ≡ tail.filings + 1)
        × (left.entry.facts ≡ tail.facts + count) × (tail.number ≡ left.entry.number + 1)
        × (tail.amends.now ≡ left.entry.amends.now)) }
{
    let filings = left.filings.checked_sub(1)?;
    let facts = left.facts.checked_sub(count)?;
    Some(Left {
        filings,
        facts,
        number: left.number + 1,
        ..left
    })
}

/// What is left behind the findings of a refused request, if they are there, and no filing is the request's.
fn pass_refused<'a, S: Alter>(
    conn: &mut Connection<S>,
    seq: u64,
    findings: &[Finding],
    left: Left<'a>,
) -> Result<Option<Left<'a>>, OpenFault>
    requires { seq < 2 ^ 63 }
    ensures reads { ReadsOurs common_tables S.Store conn.old conn.new result (λ passed db.
        (k : Kept) → k.outcome ≡ Outcome.Refused findings.now → IsBeyond seq k left.entry passed db)
        Never }
    ensures rest { IfOk result (λ passed.
        IfSome passed (λ tail. (tail.number ≤ left.entry.number + 1) × (tail.amends.now ≡ left.entry.amends.now))) }
{
    if !has_findings(conn, seq, findings)? {
        return Ok(None);
    }
    if !has_filings(conn, seq, &[])? {
        return Ok(None);
    }
    Ok(without_findings(left, findings.len() as u64))
}

/// What is left behind the filing of a registered request and its facts, if they are there, and there are no findings.
fn pass_registered<'a, S: Alter>(
    conn: &mut Connection<S>,
    seq: u64,
    facts: &[Fact],
    left: Left<'a>,
) -> Result<Option<Left<'a>>, OpenFault>
    requires seq { seq < 2 ^ 63 }
    requires number { left.number < 2 ^ 63 }
    ensures reads { ReadsOurs common_tables S.Store conn.old conn.new result (λ passed db.
        (k : Kept) → k.outcome ≡ Outcome.Registered left.entry.number → facts.now ≡ facts_of k.request.body
        → IsBeyond seq k left.entry passed db)
        Never }
    ensures rest { IfOk result (λ passed.
        IfSome passed (λ tail. (tail.number ≤ left.entry.number + 1) × (tail.amends.now ≡ left.entry.amends.now))) }
{
    if !has_findings(conn, seq, &[])? {
        return Ok(None);
    }
    if !has_filings(conn, seq, &[left.number as i64])? {
        return Ok(None);
    }
    if !has_facts(conn, left.number, facts)? {
        return Ok(None);
    }
    Ok(without_filing(left, facts.len() as u64))
}

/// What is left behind a kept row whose request was judged so, if its rows are those of that outcome.
fn pass_as<'a, S: Alter>(
    conn: &mut Connection<S>,
    row: &Row,
    seq: u64,
    judged: &Judged,
    left: Left<'a>,
) -> Result<Option<Left<'a>>, OpenFault>
    requires seq { seq < 2 ^ 63 }
    requires number { left.number < 2 ^ 63 }
    requires facts { HasFacts (request_in None row.now).body judged.now }
    ensures reads { ReadsOurs common_tables S.Store conn.old conn.new result (λ passed db.
        (target : Option ℕ)
        → IsPast seq row.now
        (request_outcome (request_in target row.now) (outcome_of left.entry.number judged.now)) left.entry passed db)
        Never }
    ensures rest { IfOk result (λ passed.
        IfSome passed (λ tail. (tail.number ≤ left.entry.number + 1) × (tail.amends.now ≡ left.entry.amends.now))) }
{
    match judged {
        Judged::Valid(report) => {
            if is_kept_row(row, seq, Some(left.number)) {
                pass_registered(conn, seq, report.facts(), left)
            } else {
                Ok(None)
            }
        }
        Judged::Refused(findings) => {
            if is_kept_row(row, seq, None) {
                pass_refused(conn, seq, findings.list(), left)
            } else {
                Ok(None)
            }
        }
    }
}

/// What is left behind this kept row, whose filer and target were read, if its rows are those that judging its request
/// gives.
fn pass_filed<'a, S: Alter>(
    alloc: Global,
    conn: &mut Connection<S>,
    filed: &mut Filed,
    filer: &str,
    target: Option<u64>,
    row: &Row,
    seq: u64,
    left: Left<'a>,
) -> Result<Option<Left<'a>>, OpenFault>
    requires seq { seq < 2 ^ 63 }
    requires number { left.number < 2 ^ 63 }
    requires filer { filer.now ≡ (request_in None row.now).filer }
    ensures reads { ReadsOurs common_tables S.Store conn.old conn.new result (λ passed db.
        (F : List Request) → IsBehind F filed.old left.entry seq
        → IsPast seq row.now (judged (kept F) (request_in target row.now)) left.entry passed db
        × OnSome passed (AreFiled (kept F ++ judged (kept F) (request_in target row.now) ∷ []) filed.new))
        Never }
    ensures rest { IfOk result (λ passed.
        IfSome passed (λ tail. (tail.number ≤ left.entry.number + 1) × (tail.amends.now ≡ left.entry.amends.now))) }
{
    let judged = filed.judge(alloc, filer, target, bytes_at(row, kept::BODY))?;
    let Some(tail) = pass_as(conn, row, seq, &judged, left)? else {
        return Ok(None);
    };
    filed.note(alloc, filer, seq, target, &judged)?;
    Ok(Some(tail))
}

/// What is left behind this kept row, if its rows are those that judging its request gives.
fn pass_judged<'a, S: Alter>(
    alloc: Global,
    conn: &mut Connection<S>,
    filed: &mut Filed,
    row: &Row,
    seq: u64,
    left: Left<'a>,
) -> Result<Option<Left<'a>>, OpenFault>
    requires seq { seq < 2 ^ 63 }
    requires number { left.number < 2 ^ 63 }
    ensures reads { ReadsOurs common_tables S.Store conn.old conn.new result (λ passed db.
        (F : List Request) → IsBehind F filed.old left.entry seq
        → MatchOption passed
        ((target : Option ℕ) (tail : Left) → IsNext F seq row.now target left.entry tail db → ⊥)
        (λ tail.
        (target : Option ℕ) × IsNext F seq row.now target left.entry tail db
        × AreFiled (kept F ++ judged (kept F) (request_in target row.now) ∷ []) filed.new))
        Never }
    ensures number { IfOk result (λ passed. IfSome passed (λ tail. tail.number ≤ left.entry.number + 1)) }
{
    let (target, amends) = target_of(left.amends, seq);
    if !is_target(target) || has_target(amends, seq) {
        return Ok(None);
    }
    let Some(filer) = filer_of(row) else {
        return Ok(None);
    };
    let left = Left { amends, ..left };
    pass_filed(alloc, conn, filed, filer, target, row, seq, left)
}

/// The row, if there is one alone.
fn only_row(rows: &[Row]) -> Option<&Row>
    ensures { MatchOption result (length rows.now ≡ 1 → ⊥) (λ row. rows.now ≡ row.now ∷ []) }
{
    match rows {
        [row] => Some(row),
        _ => None,
    }
}

/// What is left behind the kept request at this place, if its rows are those of a request that may come next.
fn pass<'a, S: Alter>(
    alloc: Global,
    conn: &mut Connection<S>,
    filed: &mut Filed,
    seq: u64,
    left: Left<'a>,
) -> Result<Option<Left<'a>>, OpenFault>
    requires seq { seq < 2 ^ 63 }
    requires number { left.number < 2 ^ 63 }
    ensures reads { ReadsOurs common_tables S.Store conn.old conn.new result (λ passed db.
        (F : List Request) → IsBehind F filed.old left.entry seq
        → MatchOption passed (NonePasses F seq left.entry db) (λ tail.
        (request : Request) × Passes F seq left.entry tail db request
        × AreFiled (kept F ++ judged (kept F) request ∷ []) filed.new))
        Never }
    ensures number { IfOk result (λ passed. IfSome passed (λ tail. tail.number ≤ left.entry.number + 1)) }
{
    let rows = picks::kept_at(conn, seq)?;
    let Some(row) = only_row(&rows) else {
        return Ok(None);
    };
    if !is_alone(conn, row)? {
        return Ok(None);
    }
    pass_judged(alloc, conn, filed, row, seq, left)
}

/// What is left behind all kept requests, and the catalogue of their filings; or the first of which the rows are not
/// its own.
fn walk<'a, S: Alter, W: Watch>(
    alloc: Global,
    conn: &mut Connection<S>,
    total: u64,
    start: Left<'a>,
    watch: &mut W,
) -> Result<(Left<'a>, Catalogue), OpenFault>
    requires total { total ≤ 2 ^ 62 }
    requires first { start.number ≡ 1 }
    ensures reads { ReadsOurs common_tables S.Store conn.old conn.new result (λ all db.
        Walked start.entry.amends.now total 0 start.entry db []
        → (F : List Request) × Walked start.entry.amends.now total total all.0 db F
        × (view_lines all.1 ≡ catalogue_of F))
        (λ row db.
        Walked start.entry.amends.now total 0 start.entry db [] → IsFirstUnsound start.entry.amends.now row db) }
    ensures number { IfOk result (λ all. all.0.number ≤ total + 1) }
{
    let mut filed = Filed::new(alloc);
    let mut left = start;
    for at in 0..total {
        let Some(tail) = pass(alloc, conn, &mut filed, at + 1, left)? else {
            return Err(OpenFault::Damaged { row: at + 1 });
        };
        left = tail;
        watch.passed(at + 1, total);
    }
    Ok((left, filed.into_catalogue()))
}

/// How many rows the tables have that are walked over.
#[derive(Clone, Copy)]
struct Sizes<'a> {
    kept: u64,
    others: Left<'a>,
}

/// Asks each table once for rows that no register has, so that one that cannot be read is told before any row.
fn try_tables<S: Alter>(conn: &mut Connection<S>) -> Result<(), Error>
    ensures asks { AsksOurs common_tables S.Store conn.old conn.new result (λ _ _. Unit {0}) }
    ensures known { HasCleanDisk (state S.Store conn.new)
        → OnOk result (CanBeRead (state S.Store conn.old).now.schema) }
{
    picks::kept_at(conn, 0)?;
    picks::findings_at(conn, 0)?;
    picks::filings_of(conn, 0)?;
    picks::facts_numbered(conn, 0)?;
    Ok(())
}

fn count_tables<'a, S: Alter>(
    conn: &mut Connection<S>,
    amends: &'a [Row],
) -> Result<Option<Sizes<'a>>, Error>
    ensures reads { AsksOurs common_tables S.Store conn.old conn.new result (λ sizes db.
        IfSome sizes (λ s. Walked amends.now s.kept 0 s.others db [])) }
    ensures first { IfOk result (λ sizes.
        IfSome sizes (λ s. (s.others.number ≡ 1) × (s.others.amends.now ≡ amends.now))) }
{
    let kept = picks::count_kept(conn)?;
    let findings = picks::count_findings(conn)?;
    let filings = picks::count_filings(conn)?;
    let facts = picks::count_facts(conn)?;
    Ok(sizes_of(kept, findings, filings, facts, amends))
}

fn sizes_of<'a>(
    kept: Option<u64>,
    findings: Option<u64>,
    filings: Option<u64>,
    facts: Option<u64>,
    amends: &'a [Row],
) -> Option<Sizes<'a>>
    ensures { IfSome result (λ s.
        (kept ≡ Some s.kept) × (findings ≡ Some s.others.findings) × (filings ≡ Some s.others.filings)
        × (facts ≡ Some s.others.facts) × (s.others.number ≡ 1) × (s.others.amends.now ≡ amends.now)) }
{
    Some(Sizes {
        kept: kept?,
        others: Left {
            findings: findings?,
            filings: filings?,
            facts: facts?,
            number: 1,
            amends,
        },
    })
}

/// How many requests are kept, how many of them are registered, and the catalogue of these filings.
#[derive(Drop)]
pub(crate) struct Totals {
    pub(crate) kept: u64,
    pub(crate) filings: u64,
    pub(crate) catalogue: Catalogue,
}

/// How much was walked past, if nothing is left.
fn totals_of(kept: u64, left: Left<'_>, catalogue: Catalogue) -> Option<Totals>
    ensures { MatchOption result
        ((left.entry.findings ≡ 0) → (left.entry.filings ≡ 0) → (left.entry.facts ≡ 0) → (left.entry.amends.now ≡ [])
        → left.entry.number ≡ 0)
        (λ counts.
        (counts.kept ≡ kept) × (left.entry.findings ≡ 0) × (left.entry.filings ≡ 0) × (left.entry.facts ≡ 0)
        × (left.entry.number ≡ counts.filings + 1) × (left.entry.amends.now ≡ [])
        × (counts.catalogue ≡ catalogue)) }
{
    if left.findings == 0
        && left.filings == 0
        && left.facts == 0
        && left.amends.is_empty()
        && left.number > 0
    {
        Some(Totals {
            kept,
            filings: left.number - 1,
            catalogue,
        })
    } else {
        None
    }
}

/// Whether the row of `amends` says no place from 1 on.
fn is_before_first(row: &Row) -> bool
    ensures { result ≡ is_stray row.now }
{
    number_at(row, PLACE).unwrap_or(0) == 0
}

/// The rows of `amends`, which come in the order of their places, from the first place on.
fn from_first(rows: &[Row]) -> &[Row]
    ensures { result.now ≡ of_requests rows.now }
{
    let strays = rows.iter().take_while(|row| is_before_first(row)).count();
    &rows[strays..]
}

/// How much a register holds whose rows stand for requests, if `amends` has these rows; or the first kept request of
/// which the rows are not its own, or 0 if rows are left over.
pub(crate) fn count_by_walk<S: Alter, W: Watch>(
    alloc: Global,
    conn: &mut Connection<S>,
    amends: &[Row],
    watch: &mut W,
) -> Result<Totals, OpenFault>
    ensures reads { ReadsOurs common_tables S.Store conn.old conn.new result (λ counts db. Amounts counts amends.now db)
        (λ row db. IsUnsound amends.now row db) }
    ensures few { IfOk result (λ counts. (counts.kept ≤ 2 ^ 62) × (counts.filings ≤ counts.kept)) }
    ensures known { HasCleanDisk (state S.Store conn.new)
        → OnOk result (CanBeRead (state S.Store conn.old).now.schema) }
    ensures leaves { OnlyReads S.Store conn.old conn.new result }
{
    try_tables(conn)?;
    // A row before the first place would hide the targets behind it.
    let targets = from_first(amends);
    let Some(sizes) = count_tables(conn, targets)? else {
        return Err(OpenFault::Memory);
    };
    if sizes.kept > MAX_KEPT {
        return Err(OpenFault::Memory);
    }
    // Kept rows are told by their place among all, so the first is told if one lies before it.
    if picks::has_early(conn)? {
        return Err(OpenFault::Damaged { row: 1 });
    }
    let (left, catalogue) = walk(alloc, conn, sizes.kept, sizes.others, watch)?;
    if targets.len() < amends.len() {
        return Err(OpenFault::Damaged { row: 0 });
    }
    let Some(totals) = totals_of(sizes.kept, left, catalogue) else {
        return Err(OpenFault::Damaged { row: 0 });
    };
    Ok(totals)
}
