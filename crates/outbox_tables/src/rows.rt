//! The SELECTs of whole tables.

ghost use Rattle.std.specs.Prelude.{◌≡◌, ◌≤◌, ◌^◌, IfOk, IfErr, IfSome, List, []};
ghost use Rattle.sqlite.specs.Order.{Row as Stored};
ghost use Rattle.sqlite.specs.State.{HasCleanDisk, Shown, FailsToQuery};
ghost use Rattle.sqlite.specs.Held as held;
ghost use Rattle.table_rows.specs.Leaving.{OnlyQueries};
ghost use Rattle.outbox_tables.specs.Audit.{meta_text, targets_text, entries_text};
ghost use Rattle.outbox_tables.specs.Tally.{tally_of};

use crate::opening::audit::{Tally, sound_after};
use sqlite::{Alter, Connection, Error, Row};
use table_rows::select;

const ALL_META: &str = "SELECT id, kind, form, filer FROM outbox_meta";

/// The rows of `outbox_meta`.
pub(crate) fn meta_rows<S: Alter>(conn: &mut Connection<S>) -> Result<Vec<Row>, Error>
    ensures shown { HasCleanDisk (held.state S.Store conn.new)
        → IfOk result (λ rows.
        Shown meta_text [] (held.state S.Store conn.old) (held.state S.Store conn.new) rows.items) }
    ensures failed { HasCleanDisk (held.state S.Store conn.new)
        → IfErr result (FailsToQuery meta_text [] (held.state S.Store conn.old) (held.state S.Store conn.new)) }
    ensures leaves { OnlyQueries S.Store conn.old conn.new result }
{
    select(conn, ALL_META, &[])
}

/// No outbox has more entries.
pub const MAX_ENTRIES: u64 = 1 << 62;

const ALL_ENTRIES: &str = "SELECT id, idem, body, state, number FROM entry ORDER BY id";

/// Goes through the rows of all entries, in the order of the ids, with one of them in memory at a time. `None` says
/// that there are too many.
pub(crate) fn tally_entries<S: Alter>(conn: &mut Connection<S>) -> Result<Option<Tally>, Error>
    ensures shown { HasCleanDisk (held.state S.Store conn.new)
        → IfOk result (λ found.
        IfSome found (λ tally.
        (rows : List Stored) × Shown entries_text [] (held.state S.Store conn.old) (held.state S.Store conn.new) rows
        × (tally ≡ tally_of rows))) }
    ensures few { IfOk result (λ found. IfSome found (λ tally. tally.count ≤ 2 ^ 62)) }
    ensures failed { HasCleanDisk (held.state S.Store conn.new)
        → IfErr result (FailsToQuery entries_text [] (held.state S.Store conn.old) (held.state S.Store conn.new)) }
    ensures leaves { OnlyQueries S.Store conn.old conn.new result }
{
    let mut rows = conn.query(ALL_ENTRIES, &[])?;
    let mut sound = 0;
    for count in 0..MAX_ENTRIES {
        rows.advance()?;
        let Some(row) = rows.get() else {
            return Ok(Some(Tally { count, sound }));
        };
        sound = sound_after(count, sound, row);
    }
    Ok(None)
}

const ALL_TARGETS: &str = "SELECT id, number FROM target";

/// The rows of `target`.
pub(crate) fn target_rows<S: Alter>(conn: &mut Connection<S>) -> Result<Vec<Row>, Error>
    ensures shown { HasCleanDisk (held.state S.Store conn.new)
        → IfOk result (λ rows.
        Shown targets_text [] (held.state S.Store conn.old) (held.state S.Store conn.new) rows.items) }
    ensures failed { HasCleanDisk (held.state S.Store conn.new)
        → IfErr result (FailsToQuery targets_text [] (held.state S.Store conn.old) (held.state S.Store conn.new)) }
    ensures leaves { OnlyQueries S.Store conn.old conn.new result }
{
    select(conn, ALL_TARGETS, &[])
}
