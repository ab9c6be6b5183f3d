//! The pages of a register.

ghost use Rattle.std.specs.Prelude.{◌≡◌, ◌≤◌, ◌++◌, ◌^◌, Some, IfErr, OnOk};
ghost use Rattle.std.specs.Ordering.{nat_cmp};
ghost use Rattle.std.specs.Cmp.Lexicographic.{slice_cmp};
ghost use Rattle.std.specs.List.Sorted.{IsStrictlySortedBy};
ghost use Rattle.std.specs.List.{flat_map};
ghost use Rattle.filing_model.specs.Register.{Filing, kept, register};
ghost use Rattle.table_rows.specs.Leaving.{MayRead};
ghost use Rattle.table_rows.specs.Standing.{IsAtRest};
ghost use Rattle.register_rows.specs.Catalogue.{catalogue_of, view_lines};
ghost use Rattle.register_store.specs.Numbered.{filing_numbered};
ghost use Rattle.register_store.specs.Store.{ForRegister};
ghost use Rattle.register_extracts.specs.Faults.{IsReadingWhy};
ghost use Rattle.register_pages.specs.Faults.{IsWritingWhy};
ghost use Rattle.register_pages.specs.Gathering.{AreCountsOf, codes_of};
ghost use Rattle.register_pages.specs.Pages.{Adds, Writes, WritesSite, filing_files, other_files, files_of_filer};
ghost use Rattle.register_pages.specs.Pages.{files_of_filing};
ghost use Rattle.register_pages.specs.Site.{WritesPages};

use crate::Markup;
use crate::about::about_register;
use crate::fault::Missed;
use crate::filer::write_filer;
use crate::filers::Filers;
use crate::filing::write_filing;
use crate::folder::Folder;
use crate::found::Found;
use crate::gathering::gather;
use crate::others::write_others;
use register_extracts::{Why, filing_at};
use register_rows::Catalogue;
use register_store::{Counts, StoreFault, Unwatched, read_register};
use sqlite::{Alter, Connection};
use std::alloc::Global;

/// Writes the register that the database is as pages into a folder: `index.html` with all filers, `filer-CODE.html` of
/// each, `refused-CODE.html` of each whose reports were refused, `filing-NUMBER.html` of each filing, its report as it
/// was filed in `filing-NUMBER.json`, each refused report in `request-PLACE.json`, and `findings.html`. A page has at
/// most 1,000 rows, and one of refused reports at most 50 of these; what follows is on pages whose names have `~2` and
/// so on. If a file is missed, the others are written. The register is read and checked first, and nothing is written
/// to the database.
pub fn write_pages<S: Alter, F: Folder>(
    alloc: Global,
    conn: &mut Connection<S>,
    folder: &mut F,
) -> Result<(), Why>
    requires { IsAtRest conn.old }
    ensures { WritesPages S.Store (F.pages folder.old) (F.pages folder.new) conn.old conn.new result }
{
    let counts = read_register(alloc, conn, &mut Unwatched)?;
    write_all(alloc, conn, &counts, folder)?;
    Ok(())
}

/// Writes the pages of a register with these counts and this catalogue.
fn write_all<S: Alter, F: Folder>(
    alloc: Global,
    conn: &mut Connection<S>,
    counts: &Counts,
    folder: &mut F,
) -> Result<(), Why>
    requires { counts.now.kept ≤ 2 ^ 62 }
    ensures written { ForRegister S.Store conn.old conn.new (λ _ requests.
        AreCountsOf requests counts.now
        → OnOk result (WritesSite requests (F.pages folder.old) (F.pages folder.new))) }
    ensures leaves { MayRead S.Store conn.old conn.new result }
    ensures fails { IfErr result IsWritingWhy }
{
    let mut filers = Filers::new(alloc);
    let mut found = Found::new(alloc)?;
    gather(alloc, conn, counts, &mut filers, &mut found)?;
    let about = about_register(alloc, conn, counts.kept)?;
    write_site(alloc, conn, counts, &filers, &found, &about, folder)
}

/// Writes the pages, once the filers are known. The page of all filers is written whatever comes before it.
fn write_site<S: Alter, F: Folder>(
    alloc: Global,
    conn: &mut Connection<S>,
    counts: &Counts,
    filers: &Filers,
    found: &Found,
    about: &Markup,
    folder: &mut F,
) -> Result<(), Why>
    ensures ascend { OnOk result (IsStrictlySortedBy (slice_cmp nat_cmp) (codes_of filers.now)) }
    ensures written { ForRegister S.Store conn.old conn.new (λ _ requests.
        AreCountsOf requests counts.now
        → OnOk result (Adds (F.pages folder.old) (F.pages folder.new)
        (filing_files (register requests) ++ other_files (kept requests) (codes_of filers.now)))) }
    ensures leaves { MayRead S.Store conn.old conn.new result }
    ensures fails { IfErr result IsWritingWhy }
{
    let mut missed = None;
    let reports = write_reports(alloc, conn, counts, filers, about, folder, &mut missed);
    write_others(
        alloc,
        counts.filings,
        filers,
        found,
        about,
        folder,
        &mut missed,
    );
    reports?;
    match missed {
        Some(missed) => Err(Why::from(missed)),
        None => Ok(()),
    }
}

/// Writes the pages of filings and of filers.
fn write_reports<S: Alter, F: Folder>(
    alloc: Global,
    conn: &mut Connection<S>,
    counts: &Counts,
    filers: &Filers,
    about: &Markup,
    folder: &mut F,
    missed: &mut Option<Missed>,
) -> Result<(), Why>
    ensures ascend { OnOk result (IsStrictlySortedBy (slice_cmp nat_cmp) (codes_of filers.now)) }
    ensures written { ForRegister S.Store conn.old conn.new (λ _ requests.
        AreCountsOf requests counts.now
        → OnOk result (Writes missed.old missed.new (F.pages folder.old) (F.pages folder.new)
        (filing_files (register requests) ++ flat_map (files_of_filer (kept requests)) (codes_of filers.now)))) }
    ensures leaves { MayRead S.Store conn.old conn.new result }
    ensures fails { IfErr result IsReadingWhy }
{
    write_filings(alloc, conn, counts, about, folder, missed)?;
    write_filers(
        alloc,
        conn,
        &counts.catalogue,
        filers,
        about,
        folder,
        missed,
    )
}

/// Writes the pages and the report of each filing.
fn write_filings<S: Alter, F: Folder>(
    alloc: Global,
    conn: &mut Connection<S>,
    counts: &Counts,
    about: &Markup,
    folder: &mut F,
    missed: &mut Option<Missed>,
) -> Result<(), StoreFault>
    ensures written { ForRegister S.Store conn.old conn.new (λ _ requests.
        AreCountsOf requests counts.now
        → OnOk result (Writes missed.old missed.new (F.pages folder.old) (F.pages folder.new)
        (filing_files (register requests)))) }
    ensures leaves { MayRead S.Store conn.old conn.new result }
{
    for at in 0..counts.filings {
        write_numbered(
            alloc,
            conn,
            &counts.catalogue,
            at + 1,
            about,
            folder,
            missed,
        )?;
    }
    Ok(())
}

/// Writes the pages and the report of the filing with this number.
fn write_numbered<S: Alter, F: Folder>(
    alloc: Global,
    conn: &mut Connection<S>,
    catalogue: &Catalogue,
    number: u64,
    about: &Markup,
    folder: &mut F,
    missed: &mut Option<Missed>,
) -> Result<(), StoreFault>
    ensures written { ForRegister S.Store conn.old conn.new (λ _ requests.
        (f : Filing) → view_lines catalogue.now ≡ catalogue_of requests
        → filing_numbered number (register requests) ≡ Some f
        → OnOk result (Writes missed.old missed.new (F.pages folder.old) (F.pages folder.new) (files_of_filing f))) }
    ensures leaves { MayRead S.Store conn.old conn.new result }
{
    match filing_at(alloc, conn, catalogue, number)? {
        Some(filing) => {
            write_filing(alloc, &filing, about, folder, missed);
            Ok(())
        }
        None => Ok(()),
    }
}

/// Writes the pages of each filer.
fn write_filers<S: Alter, F: Folder>(
    alloc: Global,
    conn: &mut Connection<S>,
    catalogue: &Catalogue,
    filers: &Filers,
    about: &Markup,
    folder: &mut F,
    missed: &mut Option<Missed>,
) -> Result<(), Why>
    ensures ascend { OnOk result (IsStrictlySortedBy (slice_cmp nat_cmp) (codes_of filers.now)) }
    ensures written { ForRegister S.Store conn.old conn.new (λ _ requests.
        OnOk result (Writes missed.old missed.new (F.pages folder.old) (F.pages folder.new)
        (flat_map (files_of_filer (kept requests)) (codes_of filers.now)))) }
    ensures leaves { MayRead S.Store conn.old conn.new result }
    ensures fails { IfErr result IsReadingWhy }
{
    for (code, _) in filers.list.iter() {
        write_filer(alloc, conn, catalogue, code.as_str(), about, folder, missed)?;
    }
    Ok(())
}
