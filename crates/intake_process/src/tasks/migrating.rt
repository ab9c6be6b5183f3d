//! Upgrades a register of an earlier version.

ghost use Rattle.table_rows.specs.Standing.{IsAtRest};
ghost use Rattle.intake_process.specs.Errands.{RunsErrand};

use crate::tasks::errand::Errand;
use crate::tasks::text::print;
use register_extracts::Why;
use register_store::migrate_register;
use sqlite::{Alter, Connection};
use std::alloc::Global;
use std::io::Write;

/// Upgrades the register of an earlier version in this database to this version, and prints that. A refusal prints
/// nothing.
pub(crate) fn migrate<S: Alter, O: Write>(
    alloc: Global,
    conn: &mut Connection<S>,
    output: &mut O,
) -> Result<(), Why>
    requires { IsAtRest conn.old }
    ensures { RunsErrand S.Store Errand.Migrate (O.contents output.old) (O.contents output.new) conn.old conn.new
        result }
{
    let _counts = match migrate_register(alloc, conn) {
        Ok(counts) => counts,
        Err(fault) => return Err(Why::Migrate(fault)),
    };
    print(output, b"migrated\n")
}
