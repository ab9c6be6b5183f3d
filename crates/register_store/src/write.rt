//! Requests are kept, in one transaction: the row of each, that of its moment, and those of its findings or of its
//! filing and its facts.

ghost use Rattle.std.specs.Prelude.{◌≡◌, ◌<◌, ◌^◌, ◌+◌, All, false, length, None, Some, IsTrue, IfOk, OnOk};
ghost use Rattle.sqlite.specs.Held.{state};
ghost use Rattle.sqlite.specs.State.{HasCleanDisk};
ghost use Rattle.key_string.specs.Key.{IsKey};
ghost use Rattle.http_messages.specs.Posting.{IsTarget};
ghost use Rattle.xbrl_report.specs.Judgement.{HasFacts};
ghost use Rattle.xbrl_report.specs.ReportParts.{facts as facts_of};
ghost use Rattle.filing_model.specs.Register.{Outcome};
ghost use Rattle.register_rows.specs.Outcomes.{outcome_of};
ghost use Rattle.table_rows.specs.Leaving.{OnlyWrites};
ghost use Rattle.register_store.specs.Changes.{AddsAllInside, AddsAs, KeepsAll};
ghost use Rattle.register_store.specs.NewRows.{IsKeepable};
ghost use Rattle.register_store.specs.Outcomes.{number_past};

use crate::outcome::{NewRow, filings_of};
use crate::rows::{insert_amends, insert_filing, insert_items, insert_kept, insert_received};
use sqlite::{Alter, Connection, Error, Transaction};
use xbrl_report::{Fact, Finding, Judged};

/// Writes a refused request at its place, with its moment and its findings, beside the filing that it is to replace.
fn write_refused<S: Alter>(
    tx: &mut Transaction<'_, S>,
    seq: u64,
    row: &NewRow<'_>,
    findings: &[Finding],
) -> Result<(), Error>
    requires { seq < 2 ^ 63 }
    ensures key { IsKey row.now.key.now }
    ensures leaves { OnlyWrites S.Store tx.old.conn tx.new.conn }
    ensures adds { AddsAs seq None row.now (Outcome.Refused findings.now)
        (state S.Store tx.old.conn.now) (state S.Store tx.new.conn.now) result }
{
    insert_kept(tx, seq, row, None)?;
    insert_received(tx, seq, row.moment)?;
    insert_items(tx, seq, findings)
}

/// Writes a registered request at its place, with its moment, its filing of this number and the facts of its report,
/// beside the filing that it is to replace.
fn write_accepted<S: Alter>(
    tx: &mut Transaction<'_, S>,
    seq: u64,
    number: u64,
    row: &NewRow<'_>,
    facts: &[Fact],
) -> Result<(), Error>
    requires seq { seq < 2 ^ 63 }
    requires number { number < 2 ^ 63 }
    requires facts { facts.now ≡ facts_of row.now.body.now }
    ensures key { IsKey row.now.key.now }
    ensures leaves { OnlyWrites S.Store tx.old.conn tx.new.conn }
    ensures adds { AddsAs seq None row.now (Outcome.Registered number)
        (state S.Store tx.old.conn.now) (state S.Store tx.new.conn.now) result }
{
    insert_kept(tx, seq, row, Some(number))?;
    insert_received(tx, seq, row.moment)?;
    insert_filing(tx, number, seq)?;
    insert_items(tx, number, facts)
}

/// Writes a request as it was judged, beside the filing that it is to replace; `number` is that of the next filing.
fn write_judged<S: Alter>(
    tx: &mut Transaction<'_, S>,
    seq: u64,
    number: u64,
    row: &NewRow<'_>,
) -> Result<(), Error>
    requires seq { seq < 2 ^ 63 }
    requires number { number < 2 ^ 63 }
    requires facts { HasFacts row.now.body.now row.now.judged.now }
    ensures key { IsKey row.now.key.now }
    ensures leaves { OnlyWrites S.Store tx.old.conn tx.new.conn }
    ensures adds { AddsAs seq None row.now (outcome_of number row.now.judged.now)
        (state S.Store tx.old.conn.now) (state S.Store tx.new.conn.now) result }
{
    match row.judged {
        Judged::Valid(report) => write_accepted(tx, seq, number, row, report.facts()),
        Judged::Refused(findings) => write_refused(tx, seq, row, findings.list()),
    }
}

/// Writes a request that is to replace the filing of this number, as it was judged; `number` is that of the next
/// filing.
fn write_amendment<S: Alter>(
    tx: &mut Transaction<'_, S>,
    seq: u64,
    number: u64,
    target: u64,
    row: &NewRow<'_>,
) -> Result<(), Error>
    requires seq { seq < 2 ^ 63 }
    requires number { number < 2 ^ 63 }
    requires target { target < 2 ^ 63 }
    requires facts { HasFacts row.now.body.now row.now.judged.now }
    ensures key { IsKey row.now.key.now }
    ensures leaves { OnlyWrites S.Store tx.old.conn tx.new.conn }
    ensures adds { AddsAs seq (Some target) row.now (outcome_of number row.now.judged.now)
        (state S.Store tx.old.conn.now) (state S.Store tx.new.conn.now) result }
{
    // For its clause `key`, which the proof needs.
    let _key = row.key.as_str();
    insert_amends(tx, seq, target)?;
    write_judged(tx, seq, number, row)
}

/// Writes a request as it was judged; `number` is that of the next filing.
fn write<S: Alter>(
    tx: &mut Transaction<'_, S>,
    seq: u64,
    number: u64,
    row: &NewRow<'_>,
) -> Result<(), Error>
    requires seq { seq < 2 ^ 63 }
    requires number { number < 2 ^ 63 }
    requires target { IsTarget row.now.target }
    requires facts { HasFacts row.now.body.now row.now.judged.now }
    ensures key { IsKey row.now.key.now }
    ensures leaves { OnlyWrites S.Store tx.old.conn tx.new.conn }
    ensures adds { AddsAs seq row.now.target row.now (outcome_of number row.now.judged.now)
        (state S.Store tx.old.conn.now) (state S.Store tx.new.conn.now) result }
{
    match row.target {
        Some(target) => write_amendment(tx, seq, number, target, row),
        None => write_judged(tx, seq, number, row),
    }
}

/// Writes requests one behind another, as they were judged; `number` is that of the next filing. Answers the number of
/// the next filing after them.
fn write_all<S: Alter>(
    tx: &mut Transaction<'_, S>,
    seq: u64,
    number: u64,
    rows: &[NewRow<'_>],
) -> Result<u64, Error>
    requires seq { seq + length rows.now < 2 ^ 63 }
    requires number { number + length rows.now < 2 ^ 63 }
    requires rows { All IsKeepable rows.now }
    ensures next { IfOk result (λ n. n ≡ number_past number rows.now) }
    ensures leaves { OnlyWrites S.Store tx.old.conn tx.new.conn }
    ensures adds { HasCleanDisk (state S.Store tx.new.conn.now) → IsTrue (state S.Store tx.old.conn.now).in_transaction
        → OnOk result (AddsAllInside seq number rows.now (state S.Store tx.old.conn.now)
        (state S.Store tx.new.conn.now)) }
{
    let mut place = seq;
    let mut next = number;
    'each: for row in rows {
        write(tx, place, next, row)?;
        place += 1;
        next += filings_of(row.judged);
    }
    Ok(next)
}

/// Keeps requests one behind another, in one transaction; `number` is that of the next filing. Answers the number of
/// the next filing after them.
pub(crate) fn keep_all<S: Alter>(
    conn: &mut Connection<S>,
    seq: u64,
    number: u64,
    rows: &[NewRow<'_>],
) -> Result<u64, Error>
    requires autocommit { conn.old.in_transaction ≡ false }
    requires seq { seq + length rows.now < 2 ^ 63 }
    requires number { number + length rows.now < 2 ^ 63 }
    requires rows { All IsKeepable rows.now }
    ensures { KeepsAll S.Store seq number rows.now conn.old conn.new result }
{
    let mut tx = conn.transaction();
    let next = write_all(&mut tx, seq, number, rows)?;
    tx.commit()?;
    Ok(next)
}
