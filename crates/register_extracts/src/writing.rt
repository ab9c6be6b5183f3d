//! The records of a register.

ghost use Rattle.std.specs.Prelude.{◌≡◌, ◌⊎◌, ℕ, length, Some, IfErr, OnOk};
ghost use Rattle.std.specs.Io.KnownBytes.{Appends};
ghost use Rattle.filing_model.specs.Register.{Filing, kept, register};
ghost use Rattle.table_rows.specs.Leaving.{MayRead};
ghost use Rattle.table_rows.specs.Standing.{IsAtRest};
ghost use Rattle.register_rows.specs.Catalogue.{catalogue_of, view_lines};
ghost use Rattle.register_store.specs.Numbered.{filing_numbered};
ghost use Rattle.register_extracts.specs.Dated.{ForDated};
ghost use Rattle.register_extracts.specs.Records.{export_begun, export_text, filing_records};
ghost use Rattle.register_extracts.specs.Exports.{ExportsFacts, UnlessOutput};
ghost use Rattle.register_extracts.specs.Faults.{IsPrintingWhy};

use crate::facts::record::{FactForm, first_line};
use crate::fault::Why;
use crate::records::{Wanted, print, write_filing};
use crate::walk::filing::filing_at;
use register_rows::Catalogue;
use register_store::{Counts, Unwatched, read_register};
use sqlite::{Alter, Connection};
use std::alloc::Global;
use std::io::Write;

/// Writes a record of each fact of the wanted filings of the register that the database is, in the order of the filings
/// and of their facts. The register is read and checked first, and nothing is written to the database. One filing is in
/// memory at a time.
pub fn export<S: Alter, O: Write>(
    alloc: Global,
    conn: &mut Connection<S>,
    form: FactForm,
    wanted: Wanted<'_>,
    output: &mut O,
) -> Result<(), Why>
    requires { IsAtRest conn.old }
    ensures { ExportsFacts S.Store form wanted.entry (O.contents output.old)
        (O.contents output.new) conn.old conn.new result }
{
    let counts = read_register(alloc, conn, &mut Unwatched)?;
    write_records(alloc, conn, &counts, form, wanted, output)?;
    Ok(())
}

/// Writes the records of a register with these counts and this catalogue.
fn write_records<S: Alter, O: Write>(
    alloc: Global,
    conn: &mut Connection<S>,
    counts: &Counts,
    form: FactForm,
    wanted: Wanted<'_>,
    output: &mut O,
) -> Result<(), Why>
    ensures exported { ForDated S.Store conn.old conn.new (λ F moments.
        view_lines counts.now.catalogue ≡ catalogue_of F → counts.now.filings ≡ length (register F)
        → OnOk result (Appends (O.contents output.old) (O.contents output.new)
        (export_text form wanted.entry (kept F) moments))) }
    ensures begun { ForDated S.Store conn.old conn.new (λ F moments.
        view_lines counts.now.catalogue ≡ catalogue_of F → counts.now.filings ≡ length (register F)
        → IfErr result (UnlessOutput ((many : ℕ) × Appends (O.contents output.old) (O.contents output.new)
        (export_begun many form wanted.entry (kept F) moments)))) }
    ensures fails { IfErr result IsPrintingWhy }
    ensures leaves { MayRead S.Store conn.old conn.new result }
{
    print(output, first_line(form).as_bytes())?;
    for at in 0..counts.filings {
        write_numbered(alloc, conn, &counts.catalogue, at + 1, form, wanted, output)?;
    }
    Ok(())
}

/// Writes the records of the filing with this number, if it is wanted.
fn write_numbered<S: Alter, O: Write>(
    alloc: Global,
    conn: &mut Connection<S>,
    catalogue: &Catalogue,
    number: u64,
    form: FactForm,
    wanted: Wanted<'_>,
    output: &mut O,
) -> Result<(), Why>
    ensures written { ForDated S.Store conn.old conn.new (λ F moments.
        (f : Filing) → view_lines catalogue.now ≡ catalogue_of F
        → filing_numbered number (register F) ≡ Some f
        → OnOk result (Appends (O.contents output.old) (O.contents output.new)
        (filing_records form wanted.entry (kept F) moments f))) }
    ensures quiet { IfErr result (λ fault.
        (fault ≡ Why.Output) ⊎ (O.contents output.new ≡ O.contents output.old)) }
    ensures fails { IfErr result IsPrintingWhy }
    ensures leaves { MayRead S.Store conn.old conn.new result }
{
    // Its report is not read if the number says enough.
    if number <= wanted.after {
        return Ok(());
    }
    match filing_at(alloc, conn, catalogue, number)? {
        Some(filing) => write_filing(alloc, form, wanted, &filing, output),
        None => Ok(()),
    }
}
