//! The statements on the tables, one in each function. What may live here: texts of SQL, and their parameters.

ghost use Rattle.std.specs.Prelude.{◌≡◌, ◌<◌, ◌^◌, pos, length, [], ◌∷◌, option_map, string_bytes, IsTrue, IfOk};
ghost use Rattle.std.specs.Prelude.{IfSome, OnOk};
ghost use Rattle.sqlite.specs.declared.types.Value.TheVariants.{Int, Text, Blob};
ghost use Rattle.sqlite.specs.Values.{or_null};
ghost use Rattle.sqlite.specs.Held.{state};
ghost use Rattle.sqlite.specs.State.{HasCleanDisk};
ghost use Rattle.sqlite.specs.Table.{Table};
ghost use Rattle.table_rows.specs.Leaving.{OnlyQueries, OnlyWrites};
ghost use Rattle.table_rows.specs.Rows.{counted_from};
ghost use Rattle.table_rows.specs.Reading.{ReadsRows};
ghost use Rattle.register_tables.specs.Reads.{Knows, KnowsAll, by_second, has_texts};
ghost use Rattle.register_store.specs.Found.{has_seq, unsorted, found_in, pair_in, target_alone};
ghost use Rattle.register_rows.specs.Received.{IsMoment, received_row};
ghost use Rattle.register_rows.specs.Schema.{kept_table, finding_table, filing_table, fact_table, amends_table};
ghost use Rattle.register_rows.specs.Schema.{received_table};
ghost use Rattle.key_string.specs.Key.{IsKey};
ghost use Rattle.register_tables.specs.Gains.{GainsRows};
ghost use Rattle.register_store.specs.Changes.{InsertsRow};

use crate::outcome::NewRow;
use register_rows::{Moment, RowItem};
use sqlite::{Alter, Connection, Error, Row, Transaction, params};
use table_rows::{run, select};
use xbrl_report::{Fact, Finding};

/// A number as a row holds it.
fn signed(number: Option<u64>) -> Option<i64>
    requires { IfSome number (λ n. n < 2 ^ 63) }
    ensures { result ≡ option_map pos number }
{
    match number {
        None => None,
        Some(number) => Some(number as i64),
    }
}

const INSERT_KEPT: &str = "INSERT INTO kept VALUES (?1, ?2, ?3, ?4, ?5)";

/// Adds the row of a kept request, with its place and its number, if it has one.
pub(crate) fn insert_kept<S: Alter>(
    tx: &mut Transaction<'_, S>,
    seq: u64,
    row: &NewRow<'_>,
    number: Option<u64>,
) -> Result<(), Error>
    requires seq { seq < 2 ^ 63 }
    requires number { IfSome number (λ n. n < 2 ^ 63) }
    ensures key { IsKey row.now.key.now }
    ensures inserts { InsertsRow S.Store kept_table
        (Int (pos seq) ∷ Text row.now.filer.now ∷ Text row.now.key.now ∷ Blob row.now.body.now
        ∷ or_null (λ n. Int (pos n)) number ∷ []) tx.old.conn tx.new.conn result }
{
    let number = signed(number);
    run(
        tx,
        INSERT_KEPT,
        params![seq as i64, row.filer, row.key.as_str(), row.body, number],
    )
}

const INSERT_FILING: &str = "INSERT INTO filing VALUES (?1, ?2)";

/// Adds the row of a filing, with its number and the place of its request.
pub(crate) fn insert_filing<S: Alter>(
    tx: &mut Transaction<'_, S>,
    number: u64,
    seq: u64,
) -> Result<(), Error>
    requires number { number < 2 ^ 63 }
    requires seq { seq < 2 ^ 63 }
    ensures { InsertsRow S.Store filing_table (Int (pos number) ∷ Int (pos seq) ∷ []) tx.old.conn tx.new.conn
        result }
{
    run(tx, INSERT_FILING, params![number as i64, seq as i64])
}

const INSERT_AMENDS: &str = "INSERT INTO amends VALUES (?1, ?2)";

/// Adds the row that says which filing the request at this place is to replace.
pub(crate) fn insert_amends<S: Alter>(
    tx: &mut Transaction<'_, S>,
    seq: u64,
    target: u64,
) -> Result<(), Error>
    requires seq { seq < 2 ^ 63 }
    requires target { target < 2 ^ 63 }
    ensures { InsertsRow S.Store amends_table (Int (pos seq) ∷ Int (pos target) ∷ []) tx.old.conn tx.new.conn
        result }
{
    run(tx, INSERT_AMENDS, params![seq as i64, target as i64])
}

const INSERT_RECEIVED: &str = "INSERT INTO received VALUES (?1, ?2)";

/// Adds the row that says at which moment the request at this place came.
pub(crate) fn insert_received<S: Alter>(
    tx: &mut Transaction<'_, S>,
    seq: u64,
    moment: Moment,
) -> Result<(), Error>
    requires { seq < 2 ^ 63 }
    ensures within { IsMoment moment.milliseconds }
    ensures inserts { InsertsRow S.Store received_table (received_row seq moment.milliseconds) tx.old.conn
        tx.new.conn result }
{
    let milliseconds = moment.milliseconds();
    run(
        tx,
        INSERT_RECEIVED,
        params![seq as i64, milliseconds as i64],
    )
}

/// What has a row of its own in a table.
pub(crate) trait InsertItem: RowItem {
    // The table that has its row.
    ghost table: { Table };

    /// Adds its row. `number` is that of its request or filing, and `at` its place among those of its kind, from 1.
    fn insert<S: Alter>(
        &self,
        tx: &mut Transaction<'_, S>,
        number: u64,
        at: u64,
    ) -> Result<(), Error>
        requires number { number < 2 ^ 63 }
        requires at { at < 2 ^ 63 }
        ensures { InsertsRow S.Store table (Self.RowItem.row_of number at self.now) tx.old.conn tx.new.conn result };
}

const INSERT_FINDING: &str = "INSERT INTO finding VALUES (?1, ?2, ?3, ?4)";

impl InsertItem for Finding {
    ghost table = { finding_table };

    fn insert<S: Alter>(
        &self,
        tx: &mut Transaction<'_, S>,
        number: u64,
        at: u64,
    ) -> Result<(), Error> {
        let code = u32::from(self.code.number());
        let place = self.place.as_bytes();
        run(
            tx,
            INSERT_FINDING,
            params![number as i64, at as i64, code, place],
        )
    }
}

const INSERT_FACT: &str = "INSERT INTO fact VALUES (?1, ?2, ?3, ?4, ?5, ?6, ?7)";

impl InsertItem for Fact {
    ghost table = { fact_table };

    fn insert<S: Alter>(
        &self,
        tx: &mut Transaction<'_, S>,
        number: u64,
        at: u64,
    ) -> Result<(), Error> {
        let id = self.id.as_bytes();
        let concept = self.concept.as_bytes();
        let dimensions = self.dimensions.as_bytes();
        let value = bytes_of(&self.value);
        run(
            tx,
            INSERT_FACT,
            params![
                number as i64,
                at as i64,
                id,
                concept,
                dimensions,
                value,
                self.decimals
            ],
        )
    }
}

/// The bytes of a text, if there is one.
fn bytes_of(text: &Option<String>) -> Option<&[u8]>
    ensures { option_map (λ bytes. bytes.now) result ≡ option_map (λ text. string_bytes text) text.now }
{
    match text {
        None => None,
        Some(text) => Some(text.as_bytes()),
    }
}

/// Adds the rows of the items of the request or filing of this number.
pub(crate) fn insert_items<S: Alter, T: InsertItem>(
    tx: &mut Transaction<'_, S>,
    number: u64,
    items: &[T],
) -> Result<(), Error>
    requires number { number < 2 ^ 63 }
    requires few { length items.now < 2 ^ 63 }
    ensures leaves { OnlyWrites S.Store tx.old.conn tx.new.conn }
    ensures gains { HasCleanDisk (state S.Store tx.new.conn.now) → IsTrue (state S.Store tx.old.conn.now).in_transaction
        → OnOk result
        (GainsRows T.table (counted_from (T.row_of number) 1 items.now) (state S.Store tx.old.conn.now)
        (state S.Store tx.new.conn.now)) }
{
    let mut at = 0u64;
    'items: for item in items {
        at += 1;
        item.insert(tx, number, at)?;
    }
    Ok(())
}

const KEPT_WITH_KEY: &str = "SELECT seq, body, number FROM kept WHERE filer = ?1 AND idem = ?2";

/// The columns `seq`, `body` and `number` of the rows kept for a filer and key.
pub(crate) fn rows_with_key<S: Alter>(
    conn: &mut Connection<S>,
    filer: &str,
    key: &str,
) -> Result<Vec<Row>, Error>
    ensures read { HasCleanDisk (state S.Store conn.new) → Knows (state S.Store conn.old)
        → IfOk result (λ rows.
        ReadsRows kept_table (has_texts filer.now key.now) unsorted found_in rows.items (state S.Store conn.old)
        (state S.Store conn.new)) }
    ensures leaves { OnlyQueries S.Store conn.old conn.new result }
{
    select(conn, KEPT_WITH_KEY, params![filer, key])
}

const FINDINGS_AT: &str = "SELECT code, place FROM finding WHERE seq = ?1 ORDER BY pos";

/// The columns `code` and `place` of the findings of the request at this place, in order.
pub(crate) fn rows_of_findings<S: Alter>(
    conn: &mut Connection<S>,
    seq: i64,
) -> Result<Vec<Row>, Error>
    ensures read { HasCleanDisk (state S.Store conn.new) → Knows (state S.Store conn.old)
        → IfOk result (λ rows.
        ReadsRows finding_table (has_seq seq) by_second pair_in rows.items (state S.Store conn.old)
        (state S.Store conn.new)) }
    ensures leaves { OnlyQueries S.Store conn.old conn.new result }
{
    select(conn, FINDINGS_AT, params![seq])
}

const TARGET_AT: &str = "SELECT target FROM amends WHERE seq = ?1";

/// The column `target` of the rows of `amends` with this place.
pub(crate) fn rows_of_target<S: Alter>(
    conn: &mut Connection<S>,
    seq: i64,
) -> Result<Vec<Row>, Error>
    ensures read { HasCleanDisk (state S.Store conn.new) → KnowsAll (state S.Store conn.old)
        → IfOk result (λ rows.
        ReadsRows amends_table (has_seq seq) unsorted target_alone rows.items (state S.Store conn.old)
        (state S.Store conn.new)) }
    ensures leaves { OnlyQueries S.Store conn.old conn.new result }
{
    select(conn, TARGET_AT, params![seq])
}
