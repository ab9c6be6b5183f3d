//! What an opening finds in a database.

ghost use Rattle.std.specs.Prelude.{◌≡◌, ◌<◌, ◌≤◌, ◌^◌, ◌⊎◌, ◌∷◌, [], ℕ, List, length, IsPermutation, true, None, Err};
ghost use Rattle.std.specs.Prelude.{IfOk, IfErr, string_bytes};
ghost use Rattle.std.specs.List.{AllByRecursion};
ghost use Rattle.key_string.specs.Filer.{is_filer};
ghost use Rattle.filing_model.specs.Outbox.{Entry as Item};
ghost use Rattle.sqlite.specs.Held.{state};
ghost use Rattle.sqlite.specs.Order.{Row as Stored};
ghost use Rattle.sqlite.specs.State.{HasCleanDisk, Shown};
ghost use Rattle.table_rows.specs.Rows.{TableHas};
ghost use Rattle.table_rows.specs.Leaving.{OnlyReads};
ghost use Rattle.outbox_tables.specs.Schema.{IsDeclared, HasCommon, meta_table, entry_table, target_table};
ghost use Rattle.outbox_tables.specs.Rows.{form_row, entry_rows, target_rows};
ghost use Rattle.outbox_tables.specs.Faults.{meta_fault, entry_fault, IsFailure, IsDamageOrFailure};
ghost use Rattle.outbox_tables.specs.Audit.{meta_text, targets_text, entries_text, damaged_row, IsKept, IsPair};
ghost use Rattle.outbox_tables.specs.Audit.{StopsFor, IsNoOutbox, FindsFiler, IsDamagedAt, AreDamaged, AreStopped};
ghost use Rattle.table_rows.specs.declared.cause.Cause.TheVariants as cause;
ghost use Rattle.outbox_tables.specs.Promises.{ForOutbox};
ghost use Rattle.outbox_tables.specs.Opening.{ReadsOutbox};
ghost use Rattle.table_rows.specs.Standing.{IsAtRest};

pub(crate) mod audit;
pub(crate) mod targets;

use crate::fault::OutboxFault;
use crate::opening::audit::{damaged_row, filer_in};
use crate::rows;
use sqlite::{Alter, Connection, Error, Row};
use std::alloc::Global;
use table_rows::{Cause, is_settled};

fn meta_fault(error: Error) -> OutboxFault
    ensures { result ≡ meta_fault error }
{
    match Cause::from(error) {
        Cause::Memory => OutboxFault::Memory,
        Cause::Disk => OutboxFault::Disk,
        Cause::Other => OutboxFault::NotOurs,
    }
}

fn entry_fault(error: Error) -> OutboxFault
    ensures { result ≡ entry_fault error }
{
    match Cause::from(error) {
        Cause::Memory => OutboxFault::Memory,
        Cause::Disk => OutboxFault::Disk,
        Cause::Other => OutboxFault::Damaged { row: 0 },
    }
}

/// The filer of the outbox in this form that the database is.
pub(crate) fn filer_of<S: Alter>(
    conn: &mut Connection<S>,
    alloc: Global,
    form: u64,
) -> Result<String, OutboxFault>
    requires { form < 2 ^ 63 }
    ensures found { HasCleanDisk (state S.Store conn.new) → HasCommon (state S.Store conn.old).now.schema
        → IfOk result (λ filer.
        TableHas (state S.Store conn.old).now meta_table (form_row form (string_bytes filer) ∷ [])) }
    ensures code { IfOk result (λ filer. is_filer (string_bytes filer) ≡ true) }
    ensures read { HasCleanDisk (state S.Store conn.new)
        → IfOk result (λ filer.
        FindsFiler form (string_bytes filer) (state S.Store conn.old) (state S.Store conn.new)) }
    ensures not_ours { HasCleanDisk (state S.Store conn.new) → result ≡ Err OutboxFault.NotOurs
        → IsNoOutbox form (state S.Store conn.old) (state S.Store conn.new) }
    ensures disk { HasCleanDisk (state S.Store conn.new) → result ≡ Err OutboxFault.Disk
        → StopsFor cause.Disk meta_text (state S.Store conn.old) (state S.Store conn.new) }
    ensures others { IfErr result (λ fault. (fault ≡ OutboxFault.NotOurs) ⊎ IsFailure fault) }
    ensures ours { HasCleanDisk (state S.Store conn.new)
        → (filer : List ℕ) → HasCommon (state S.Store conn.old).now.schema
        → TableHas (state S.Store conn.old).now meta_table (form_row form filer ∷ [])
        → is_filer filer ≡ true → (state S.Store conn.old).step_limit ≡ None → IfErr result IsFailure }
    ensures leaves { OnlyReads S.Store conn.old conn.new result }
{
    match rows::meta_rows(conn) {
        Ok(rows) => match filer_in(rows.as_slice(), form) {
            Some(filer) => Ok(String::from_str(alloc, filer)?),
            None => Err(OutboxFault::NotOurs),
        },
        Err(error) => Err(meta_fault(error)),
    }
}

/// The rows of `target`.
fn read_targets<S: Alter>(conn: &mut Connection<S>) -> Result<Vec<Row>, OutboxFault>
    ensures shown { HasCleanDisk (state S.Store conn.new)
        → IfOk result (λ targets.
        Shown targets_text [] (state S.Store conn.old) (state S.Store conn.new) targets.items) }
    ensures damaged { HasCleanDisk (state S.Store conn.new) → (row : _) → result ≡ Err (OutboxFault.Damaged row)
        → (row ≡ 0) × StopsFor cause.Other targets_text (state S.Store conn.old) (state S.Store conn.new) }
    ensures disk { HasCleanDisk (state S.Store conn.new) → result ≡ Err OutboxFault.Disk
        → StopsFor cause.Disk targets_text (state S.Store conn.old) (state S.Store conn.new) }
    ensures others { IfErr result IsDamageOrFailure }
    ensures whole { ForOutbox S.Store conn.old conn.new (λ it.
        (state S.Store conn.old).step_limit ≡ None → IfErr result IsFailure) }
    ensures leaves { OnlyReads S.Store conn.old conn.new result }
{
    match rows::target_rows(conn) {
        Ok(rows) => Ok(rows),
        Err(error) => Err(entry_fault(error)),
    }
}

/// How many entries the outbox has that the database is, with the targets of these rows. One of them is in memory at a
/// time.
pub(crate) fn count_entries<S: Alter>(
    alloc: Global,
    conn: &mut Connection<S>,
    targets: &[Row],
) -> Result<u64, OutboxFault>
    ensures counted { HasCleanDisk (state S.Store conn.new) → HasCommon (state S.Store conn.old).now.schema
        → AllByRecursion IsPair targets.now
        → IfOk result (λ count.
        (entries : List Item) × TableHas (state S.Store conn.old).now entry_table (entry_rows entries)
        × IsPermutation (target_rows entries) targets.now × AllByRecursion IsKept entries
        × (count ≡ length entries)) }
    ensures damaged { HasCleanDisk (state S.Store conn.new) → (row : _) → result ≡ Err (OutboxFault.Damaged row)
        → IsDamagedAt targets.now row (state S.Store conn.old) (state S.Store conn.new) }
    ensures read { HasCleanDisk (state S.Store conn.new)
        → IfOk result (λ count.
        (rows : List Stored) × Shown entries_text [] (state S.Store conn.old) (state S.Store conn.new) rows
        × (damaged_row targets.now rows ≡ None) × (count ≡ length rows)) }
    ensures disk { HasCleanDisk (state S.Store conn.new) → result ≡ Err OutboxFault.Disk
        → StopsFor cause.Disk entries_text (state S.Store conn.old) (state S.Store conn.new) }
    ensures others { IfErr result IsDamageOrFailure }
    ensures few { IfOk result (λ count. count ≤ 2 ^ 62) }
    ensures whole { HasCleanDisk (state S.Store conn.new)
        → (entries : List Item) → HasCommon (state S.Store conn.old).now.schema
        → TableHas (state S.Store conn.old).now entry_table (entry_rows entries)
        → AllByRecursion IsKept entries → IsPermutation (target_rows entries) targets.now
        → (state S.Store conn.old).step_limit ≡ None → IfErr result IsFailure }
    ensures leaves { OnlyReads S.Store conn.old conn.new result }
{
    match rows::tally_entries(conn) {
        Ok(Some(tally)) => match damaged_row(alloc, targets, tally)? {
            None => Ok(tally.count),
            Some(row) => Err(OutboxFault::Damaged { row }),
        },
        // No memory would hold what `target` says of each.
        Ok(None) => Err(OutboxFault::Memory),
        Err(error) => Err(entry_fault(error)),
    }
}

/// How many entries the outbox has that the database is.
fn count_all<S: Alter>(alloc: Global, conn: &mut Connection<S>) -> Result<u64, OutboxFault>
    ensures counted { HasCleanDisk (state S.Store conn.new) → IsDeclared (state S.Store conn.old).now.schema
        → IfOk result (λ count.
        (entries : List Item) × TableHas (state S.Store conn.old).now entry_table (entry_rows entries)
        × TableHas (state S.Store conn.old).now target_table (target_rows entries) × AllByRecursion IsKept entries
        × (count ≡ length entries)) }
    ensures damaged { HasCleanDisk (state S.Store conn.new) → (row : _) → result ≡ Err (OutboxFault.Damaged row)
        → AreDamaged S.Store row conn.old conn.new }
    ensures disk { HasCleanDisk (state S.Store conn.new) → result ≡ Err OutboxFault.Disk
        → AreStopped S.Store conn.old conn.new }
    ensures others { IfErr result IsDamageOrFailure }
    ensures few { IfOk result (λ count. count ≤ 2 ^ 62) }
    ensures whole { ForOutbox S.Store conn.old conn.new (λ it.
        (state S.Store conn.old).step_limit ≡ None → IfErr result IsFailure) }
    ensures leaves { OnlyReads S.Store conn.old conn.new result }
{
    let targets = read_targets(conn)?;
    count_entries(alloc, conn, targets.as_slice())
}

/// The outbox of a database: the code of its filer, and how many entries it has.
#[derive(Drop)]
pub struct FoundOutbox {
    pub filer: String,
    pub count: u64,
}

/// Reads the outbox of a database. Nothing is written, whatever the answer is. How the tables are declared is not
/// tested.
pub fn read_outbox<S: Alter>(
    alloc: Global,
    conn: &mut Connection<S>,
) -> Result<FoundOutbox, OutboxFault>
    requires { IsAtRest conn.old }
    ensures { ReadsOutbox S.Store conn.old conn.new result }
{
    prove!(is_settled(conn));
    let filer = filer_of(conn, alloc, 2)?;
    let count = count_all(alloc, conn)?;
    Ok(FoundOutbox { filer, count })
}
