//! The SELECTs of whole tables. Each reads one table, in the order of its key.

ghost use Rattle.std.specs.Prelude.{[], IfOk};
ghost use Rattle.sqlite.specs.Held.{state};
ghost use Rattle.sqlite.specs.State.{HasCleanDisk, Shown};
ghost use Rattle.table_rows.specs.Leaving.{OnlyQueries};
ghost use Rattle.register_rows.specs.Schema.{kept_table, amends_table, received_table};
ghost use Rattle.register_tables.specs.Opening.{all_meta, all_kept, all_migrated};
ghost use Rattle.register_tables.specs.Opening.{all_amends, all_received};
ghost use Rattle.register_tables.specs.Reads.{Knows, KnowsAll, FailsOnErr, ReadsWhole};

use sqlite::{Alter, Connection, Error, Row};
use table_rows::select;

const ALL_META: &str = "SELECT id, kind, form FROM intake_meta ORDER BY id";

/// The rows of `intake_meta`, by `id`.
pub(crate) fn meta_rows<S: Alter>(conn: &mut Connection<S>) -> Result<Vec<Row>, Error>
    ensures shown { HasCleanDisk (state S.Store conn.new)
        → IfOk result (λ rows. Shown all_meta [] (state S.Store conn.old) (state S.Store conn.new) rows.items) }
    ensures failed { FailsOnErr all_meta (state S.Store conn.old) (state S.Store conn.new) result }
    ensures leaves { OnlyQueries S.Store conn.old conn.new result }
{
    select(conn, ALL_META, &[])
}

const ALL_KEPT: &str = "SELECT seq, filer, idem, body, number FROM kept ORDER BY seq";

/// All kept rows, by `seq`.
pub fn kept_rows<S: Alter>(conn: &mut Connection<S>) -> Result<Vec<Row>, Error>
    ensures shown { HasCleanDisk (state S.Store conn.new)
        → IfOk result (λ rows. Shown all_kept [] (state S.Store conn.old) (state S.Store conn.new) rows.items) }
    ensures failed { FailsOnErr all_kept (state S.Store conn.old) (state S.Store conn.new) result }
    ensures read { HasCleanDisk (state S.Store conn.new) → Knows (state S.Store conn.old)
        → IfOk result (λ rows. ReadsWhole kept_table rows.items (state S.Store conn.old) (state S.Store conn.new)) }
    ensures leaves { OnlyQueries S.Store conn.old conn.new result }
{
    select(conn, ALL_KEPT, &[])
}

const ALL_MIGRATED: &str = "SELECT id, last FROM migrated ORDER BY id";

/// The rows of `migrated`, by `id`.
pub(crate) fn migrated_rows<S: Alter>(conn: &mut Connection<S>) -> Result<Vec<Row>, Error>
    ensures shown { HasCleanDisk (state S.Store conn.new)
        → IfOk result (λ rows. Shown all_migrated [] (state S.Store conn.old) (state S.Store conn.new) rows.items) }
    ensures failed { FailsOnErr all_migrated (state S.Store conn.old) (state S.Store conn.new) result }
    ensures leaves { OnlyQueries S.Store conn.old conn.new result }
{
    select(conn, ALL_MIGRATED, &[])
}

const ALL_AMENDS: &str = "SELECT seq, target FROM amends ORDER BY seq";

/// The rows of `amends`, by `seq`.
pub fn amends_rows<S: Alter>(conn: &mut Connection<S>) -> Result<Vec<Row>, Error>
    ensures shown { HasCleanDisk (state S.Store conn.new)
        → IfOk result (λ rows. Shown all_amends [] (state S.Store conn.old) (state S.Store conn.new) rows.items) }
    ensures failed { FailsOnErr all_amends (state S.Store conn.old) (state S.Store conn.new) result }
    ensures read { HasCleanDisk (state S.Store conn.new) → KnowsAll (state S.Store conn.old)
        → IfOk result (λ rows. ReadsWhole amends_table rows.items (state S.Store conn.old) (state S.Store conn.new)) }
    ensures leaves { OnlyQueries S.Store conn.old conn.new result }
{
    select(conn, ALL_AMENDS, &[])
}

const ALL_RECEIVED: &str = "SELECT seq, moment FROM received ORDER BY seq";

/// The rows of `received`, by `seq`.
pub fn received_rows<S: Alter>(conn: &mut Connection<S>) -> Result<Vec<Row>, Error>
    ensures shown { HasCleanDisk (state S.Store conn.new)
        → IfOk result (λ rows. Shown all_received [] (state S.Store conn.old) (state S.Store conn.new) rows.items) }
    ensures failed { FailsOnErr all_received (state S.Store conn.old) (state S.Store conn.new) result }
    ensures read { HasCleanDisk (state S.Store conn.new) → KnowsAll (state S.Store conn.old)
        → IfOk result (λ rows.
        ReadsWhole received_table rows.items (state S.Store conn.old) (state S.Store conn.new)) }
    ensures leaves { OnlyQueries S.Store conn.old conn.new result }
{
    select(conn, ALL_RECEIVED, &[])
}
