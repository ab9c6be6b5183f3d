//! The pages of a filer.

ghost use Rattle.std.specs.Prelude.{◌≤◌, length, IfErr, OnOk};
ghost use Rattle.filing_model.specs.Register.{kept};
ghost use Rattle.table_rows.specs.Leaving.{MayRead};
ghost use Rattle.register_store.specs.Store.{ForRegister};
ghost use Rattle.register_extracts.specs.Faults.{IsReadingWhy};
ghost use Rattle.register_pages.specs.Pages.{Writes, filer_page, numbered, pages_for as pages_for_lem, files_of_filer};

use crate::fault::Missed;
use crate::folder::{Folder, put};
use crate::frame::{Search, begin, end_by_table, filing_cell, moment_cell, number_cell, text_cell};
use crate::own::{Filed, Own, own_of};
use crate::parts::{MOST_ROWS, Part, behind, first, neighbours, pages_for};
use crate::refused::write_refused;
use crate::reports::write_reports;
use crate::{Markup, names};
use register_extracts::{Moment, Why, moment_at};
use register_rows::Catalogue;
use sqlite::{Alter, Connection};
use std::alloc::{AllocError, Global};

/// The beginning of the table of a filer's filings: its caption and its first row.
const HEAD: &str = "<table class=\"filings\">\n\
    <caption>Filings</caption>\n\
    <thead><tr>\
    <th scope=\"col\" class=\"number\">Number</th>\
    <th scope=\"col\">Key</th>\
    <th scope=\"col\">Received</th>\
    <th scope=\"col\" class=\"number\">Facts</th>\
    <th scope=\"col\" class=\"number\">Replaces</th>\
    <th scope=\"col\" class=\"number\">Replaced by</th>\
    </tr></thead>\n";

/// What the names of a filer's pages begin with.
const KIND: &str = "filer-";

/// Adds the row of a filing that was received at this moment.
fn filing_row(
    rows: &mut Markup,
    alloc: Global,
    catalogue: &Catalogue,
    filed: &Filed,
    received: Option<Moment>,
) -> Result<(), AllocError> {
    rows.constant("<tr>")?;
    filing_cell(rows, alloc, Some(filed.number))?;
    text_cell(rows, filed.key.as_str())?;
    moment_cell(rows, alloc, received)?;
    if let Some(line) = catalogue.line(filed.number) {
        number_cell(rows, alloc, line.facts())?;
        filing_cell(rows, alloc, line.replaces())?;
        filing_cell(rows, alloc, line.replaced_by())?;
    }
    rows.constant("</tr>\n")
}

/// Reads when a filing was received, and adds its row.
fn read_row<S: Alter>(
    rows: &mut Markup,
    alloc: Global,
    conn: &mut Connection<S>,
    catalogue: &Catalogue,
    filed: &Filed,
) -> Result<(), Why>
    ensures leaves { MayRead S.Store conn.old conn.new result }
    ensures fails { IfErr result IsReadingWhy }
{
    let received = moment_at(conn, filed.place)?;
    filing_row(rows, alloc, catalogue, filed, received)?;
    Ok(())
}

/// The rows of these filings.
fn read_rows<S: Alter>(
    alloc: Global,
    conn: &mut Connection<S>,
    catalogue: &Catalogue,
    filings: &[Filed],
) -> Result<Markup, Why>
    requires { length filings.now ≤ 1000 }
    ensures leaves { MayRead S.Store conn.old conn.new result }
    ensures fails { IfErr result IsReadingWhy }
{
    let mut rows = Markup::new(alloc);
    for filed in filings {
        read_row(&mut rows, alloc, conn, catalogue, filed)?;
    }
    Ok(rows)
}

/// How many reports of the filer were refused, with a link to the first page of these.
fn refused_line(
    page: &mut Markup,
    alloc: Global,
    filer: &str,
    refused: usize,
) -> Result<(), AllocError> {
    page.constant("<p>Refused reports: ")?;
    refused_count(page, alloc, filer, refused as u64)?;
    page.constant("</p>\n")
}

/// How many reports of the filer were refused. If there are some, it is a link to the first page of these.
pub(crate) fn refused_count(
    page: &mut Markup,
    alloc: Global,
    filer: &str,
    refused: u64,
) -> Result<(), AllocError> {
    if refused == 0 {
        return page.number(alloc, refused);
    }
    page.constant("<a href=\"")?;
    page.text(names::of_filer(alloc, "refused-", filer, 1)?.as_str())?;
    page.constant("\">")?;
    page.number(alloc, refused)?;
    page.constant("</a>")
}

/// A page of a filer's filings, with these rows.
fn filings_page(
    alloc: Global,
    filer: &str,
    rows: &Markup,
    refused: usize,
    part: Part,
    about: &Markup,
) -> Result<Markup, AllocError> {
    let mut page = begin(alloc, filer)?;
    refused_line(&mut page, alloc, filer, refused)?;
    let before = names::of_filer(alloc, KIND, filer, part.before())?;
    let next = names::of_filer(alloc, KIND, filer, part.next())?;
    neighbours(&mut page, alloc, part, before.as_str(), next.as_str())?;
    end_by_table(page, alloc, HEAD, rows, about, Search::Box)
}

/// Writes the pages of a filer's filings.
fn write_filings<S: Alter, F: Folder>(
    alloc: Global,
    conn: &mut Connection<S>,
    catalogue: &Catalogue,
    filer: &str,
    own: &Own,
    about: &Markup,
    folder: &mut F,
    missed: &mut Option<Missed>,
) -> Result<(), Why>
    ensures written { OnOk result (Writes missed.old missed.new (F.pages folder.old) (F.pages folder.new)
        (numbered (filer_page filer.now) (pages_for_lem 1000 (length own.now.filings.items)))) }
    ensures leaves { MayRead S.Store conn.old conn.new result }
    ensures fails { IfErr result IsReadingWhy }
{
    let mut rest = own.filings.as_slice();
    let pages = pages_for(MOST_ROWS, rest.len());
    let refused = own.refused.len();
    for at in 0..pages {
        let part = Part::new(at + 1, pages);
        let rows = read_rows(alloc, conn, catalogue, first(rest, MOST_ROWS))?;
        let page = filings_page(alloc, filer, &rows, refused, part, about);
        put(
            folder,
            missed,
            names::of_filer(alloc, KIND, filer, at + 1),
            page,
        );
        rest = behind(rest, MOST_ROWS);
    }
    Ok(())
}

/// Writes the pages of a filer, and the reports that were refused.
pub(crate) fn write_filer<S: Alter, F: Folder>(
    alloc: Global,
    conn: &mut Connection<S>,
    catalogue: &Catalogue,
    filer: &str,
    about: &Markup,
    folder: &mut F,
    missed: &mut Option<Missed>,
) -> Result<(), Why>
    ensures written { ForRegister S.Store conn.old conn.new (λ _ requests.
        OnOk result (Writes missed.old missed.new (F.pages folder.old) (F.pages folder.new)
        (files_of_filer (kept requests) filer.now))) }
    ensures leaves { MayRead S.Store conn.old conn.new result }
    ensures fails { IfErr result IsReadingWhy }
{
    let own = own_of(alloc, conn, filer)?;
    write_filings(alloc, conn, catalogue, filer, &own, about, folder, missed)?;
    write_refused(alloc, conn, catalogue, filer, &own, about, folder, missed)?;
    write_reports(alloc, conn, &own.refused, folder, missed)?;
    Ok(())
}
