//! The pages of a filer's refused reports.

ghost use Rattle.std.specs.Prelude.{◌≡◌, ◌≤◌, ◌++◌, [], length, take, IfErr, IfOk, OnOk};
ghost use Rattle.table_rows.specs.Leaving.{MayRead};
ghost use Rattle.register_extracts.specs.Faults.{IsReadingWhy};
ghost use Rattle.register_pages.specs.Pages.{Writes, refused_pages};
ghost use Rattle.register_pages.specs.Shown.{AddsFindings, AddsLine, AddsLines, AddsRefused, AddsRows, Holds};
ghost use Rattle.register_pages.specs.Shown.{others as others_lem, report_cell as report_cell_lem};

use crate::fault::Missed;
use crate::folder::{Folder, put};
use crate::frame::{Search, begin_by, end_by_table, filing_cell, moment_cell, number_cell};
use crate::own::{Filed, Own};
use crate::parts::{MOST_REPORTS, Part, behind, first, neighbours, pages_for};
use crate::reads::{findings_at, target_at};
use crate::{Markup, names};
use finding_lines::{Form, lines, one_line};
use register_extracts::{KeptReport, Moment, Why, moment_at, sent_at};
use register_rows::Catalogue;
use sqlite::{Alter, Connection};
use std::alloc::{AllocError, Global};
use xbrl_report::{Code, Finding};

/// The beginning of the table of refused reports: its caption and its first row.
const HEAD: &str = "<table class=\"refused\">\n\
    <caption>Refused reports. The filer corrects the report and files it under a new key. Of each finding there is its \
    code, the line and the column in the report, and the place.</caption>\n\
    <thead><tr>\
    <th scope=\"col\">Key</th>\
    <th scope=\"col\">Received</th>\
    <th scope=\"col\" class=\"number\">Sent to replace</th>\
    <th scope=\"col\" class=\"number\">Bytes</th>\
    <th scope=\"col\">Findings</th>\
    <th scope=\"col\" class=\"number\">Next filing</th>\
    </tr></thead>\n";

/// What the names of these pages begin with.
const KIND: &str = "refused-";

/// How many findings of a report are shown at most. One of 16 kB can have 1,000.
const MOST_FINDINGS: usize = 20;

/// The first of these findings, as many as are shown.
fn first_findings(findings: &[Finding]) -> &[Finding]
    ensures { result.now ≡ take 20 findings.now }
{
    &findings[..MOST_FINDINGS.min(findings.len())]
}

/// What a line for people says of a finding beside its code and its place.
#[derive(Clone, Copy)]
struct Said<'a> {
    words: &'a str,
    line: &'a str,
    column: &'a str,
}

/// The parts of `report:LINE:COLUMN: CODE: WORDS (PLACE)`.
fn parts_of<'a>(line: &'a str, place: &str) -> Option<Said<'a>> {
    let (position, rest) = line.strip_prefix("report:")?.split_once(' ')?;
    let (line, column) = position.strip_suffix(':')?.split_once(':')?;
    let (_code, words) = rest.split_once(' ')?;
    let words = words
        .strip_suffix(')')?
        .strip_suffix(place)?
        .strip_suffix(" (")?;
    Some(Said {
        words,
        line,
        column,
    })
}

/// The code of a finding, which links what it means, and where the finding is in the report.
fn code_and_position(
    alloc: Global,
    code: Code,
    line: &str,
    column: &str,
) -> Result<Markup, AllocError> {
    let mut piece = Markup::new(alloc);
    piece.constant("<br><small><a href=\"findings.html#")?;
    piece.constant(code.text())?;
    piece.constant("\">")?;
    piece.constant(code.text())?;
    piece.constant("</a> ")?;
    piece.text(line)?;
    piece.constant(":")?;
    piece.text(column)?;
    piece.constant(" ")?;
    Ok(piece)
}

/// A finding, of which a line says this. What is said comes first, for people; a long text is shortened.
fn finding_line(
    rows: &mut Markup,
    alloc: Global,
    line: &str,
    code: Code,
    place: &str,
) -> Result<(), AllocError>
    ensures { OnOk result (AddsLine rows.old rows.new) }
{
    let said = parts_of(line, place).unwrap_or(Said {
        words: line,
        line: "",
        column: "",
    });
    let position = code_and_position(alloc, code, said.line, said.column)?;
    rows.constant("<p>")?;
    rows.short_text(said.words)?;
    rows.piece(&position)?;
    // A place is shortened by itself, in its middle, since its end names the member.
    rows.short_text(place)?;
    rows.constant("</small></p>")
}

/// The lines of these findings, of which each is a line of what is written.
fn lines_of(
    rows: &mut Markup,
    alloc: Global,
    written: &str,
    findings: &[Finding],
) -> Result<(), AllocError>
    ensures { OnOk result (AddsLines (length findings.now) rows.old rows.new) }
{
    let mut rest = written.split('\n');
    for finding in findings {
        let line = rest.next().unwrap_or("");
        let place = one_line(alloc, finding.place.as_str())?;
        let place = String::from_utf8_lossy(alloc, &place)?;
        finding_line(rows, alloc, line, finding.code, place.as_str())?;
    }
    Ok(())
}

/// How many findings are not shown, if there are so many in all.
fn others(rows: &mut Markup, alloc: Global, all: usize) -> Result<(), AllocError>
    ensures { OnOk result (rows.new ≡ rows.old ++ others_lem all) }
{
    if all <= MOST_FINDINGS {
        return Ok(());
    }
    rows.constant("and ")?;
    rows.number(alloc, (all - MOST_FINDINGS) as u64)?;
    rows.constant(" more: <code>intake lint</code> of the report prints all")
}

/// The cell of the findings in the body of a report: the first of them, and how many more there are.
fn findings_cell(
    rows: &mut Markup,
    alloc: Global,
    body: &[u8],
    findings: &[Finding],
) -> Result<(), AllocError>
    ensures { OnOk result (AddsFindings (length findings.now) rows.old rows.new) }
{
    let shown = first_findings(findings);
    let written = lines(alloc, Form::Sentences, "report", body, shown)?;
    let written = String::from_utf8_lossy(alloc, &written)?;
    rows.constant("<td>")?;
    lines_of(rows, alloc, written.as_str(), shown)?;
    others(rows, alloc, findings.len())?;
    rows.constant("</td>")
}

/// The filing that a report was sent to replace, if any: a link, if there is that filing.
fn target_cell(
    rows: &mut Markup,
    alloc: Global,
    catalogue: &Catalogue,
    target: Option<u64>,
) -> Result<(), AllocError> {
    match target {
        Some(number) if catalogue.line(number).is_none() => number_cell(rows, alloc, number),
        _ => filing_cell(rows, alloc, target),
    }
}

/// The next filing of the same filer behind a place, if there is one.
fn next_filing(filings: &[Filed], place: u64) -> Option<u64> {
    for filed in filings {
        if filed.place > place {
            return Some(filed.number);
        }
    }
    None
}

/// A refused report: what was sent, when it was received, which filing it was to replace, if any, and the next filing
/// of the same filer, if there is one.
#[derive(Drop)]
struct Refused {
    sent: KeptReport,
    received: Option<Moment>,
    target: Option<u64>,
    next: Option<u64>,
}

/// The beginning of the row of the refused report at this place.
fn row_front(
    alloc: Global,
    catalogue: &Catalogue,
    place: u64,
    report: &Refused,
) -> Result<Markup, AllocError> {
    let mut front = Markup::new(alloc);
    front.constant("<tr id=\"request-")?;
    front.number(alloc, place)?;
    front.constant("\"><th scope=\"row\">")?;
    front.text(report.sent.key.as_str())?;
    front.constant("</th>")?;
    moment_cell(&mut front, alloc, report.received)?;
    target_cell(&mut front, alloc, catalogue, report.target)?;
    Ok(front)
}

/// The end of the row.
fn row_end(alloc: Global, report: &Refused) -> Result<Markup, AllocError> {
    let mut end = Markup::new(alloc);
    match report.next {
        Some(number) => filing_cell(&mut end, alloc, Some(number))?,
        None => end.constant("<td class=\"number\">none</td>")?,
    }
    end.constant("</tr>\n")?;
    Ok(end)
}

/// The cell with the size of the report of the request at this place, and a link to it.
fn report_cell(rows: &mut Markup, alloc: Global, place: u64, size: u64) -> Result<(), AllocError>
    ensures { OnOk result (rows.new ≡ rows.old ++ report_cell_lem place size) }
{
    rows.constant("<td class=\"number\"><a href=\"request-")?;
    rows.number(alloc, place)?;
    rows.constant(".json\">")?;
    rows.number(alloc, size)?;
    rows.constant("</a></td>")
}

/// Adds the row of the refused report at this place, which has these findings.
fn refused_row(
    rows: &mut Markup,
    alloc: Global,
    catalogue: &Catalogue,
    place: u64,
    report: &Refused,
    findings: &[Finding],
) -> Result<(), AllocError>
    ensures { OnOk result (AddsRefused place rows.old rows.new) }
{
    let front = row_front(alloc, catalogue, place, report)?;
    let end = row_end(alloc, report)?;
    rows.piece(&front)?;
    report_cell(rows, alloc, place, report.sent.body.len() as u64)?;
    findings_cell(rows, alloc, &report.sent.body, findings)?;
    rows.piece(&end)
}

/// Reads the refused report at this place, and adds its row.
fn read_row<S: Alter>(
    rows: &mut Markup,
    alloc: Global,
    conn: &mut Connection<S>,
    catalogue: &Catalogue,
    filings: &[Filed],
    place: u64,
) -> Result<(), Why>
    ensures shown { OnOk result (AddsRefused place rows.old rows.new) }
    ensures leaves { MayRead S.Store conn.old conn.new result }
    ensures fails { IfErr result IsReadingWhy }
{
    let sent = sent_at(conn, place)?;
    let received = moment_at(conn, place)?;
    let findings = findings_at(alloc, conn, place)?;
    let target = target_at(conn, place)?;
    let next = next_filing(filings, place);
    let report = Refused {
        sent,
        received,
        target,
        next,
    };
    refused_row(rows, alloc, catalogue, place, &report, &findings)?;
    Ok(())
}

/// The rows of the refused reports at these places.
fn read_rows<S: Alter>(
    alloc: Global,
    conn: &mut Connection<S>,
    catalogue: &Catalogue,
    filings: &[Filed],
    places: &[u64],
) -> Result<Markup, Why>
    requires { length places.now ≤ 50 }
    ensures shown { IfOk result (λ rows. AddsRows places.now [] rows) }
    ensures leaves { MayRead S.Store conn.old conn.new result }
    ensures fails { IfErr result IsReadingWhy }
{
    let mut rows = Markup::new(alloc);
    for place in places {
        read_row(&mut rows, alloc, conn, catalogue, filings, *place)?;
    }
    Ok(rows)
}

/// A page with these rows.
fn refused_page(
    alloc: Global,
    filer: &str,
    rows: &Markup,
    part: Part,
    about: &Markup,
) -> Result<Markup, AllocError>
    ensures { IfOk result (λ page. Holds rows.now page) }
{
    let mut page = begin_by(alloc, "Refused reports of ", filer)?;
    page.constant("<p><a href=\"")?;
    page.text(names::of_filer(alloc, "filer-", filer, 1)?.as_str())?;
    page.constant("\">Filings</a></p>\n")?;
    let before = names::of_filer(alloc, KIND, filer, part.before())?;
    let next = names::of_filer(alloc, KIND, filer, part.next())?;
    neighbours(&mut page, alloc, part, before.as_str(), next.as_str())?;
    end_by_table(page, alloc, HEAD, rows, about, Search::Box)
}

/// Writes the pages of a filer's refused reports.
pub(crate) fn write_refused<S: Alter, F: Folder>(
    alloc: Global,
    conn: &mut Connection<S>,
    catalogue: &Catalogue,
    filer: &str,
    own: &Own,
    about: &Markup,
    folder: &mut F,
    missed: &mut Option<Missed>,
) -> Result<(), Why>
    ensures written { OnOk result (Writes missed.old missed.new (F.pages folder.old) (F.pages folder.new)
        (refused_pages filer.now (length own.now.refused.items))) }
    ensures leaves { MayRead S.Store conn.old conn.new result }
    ensures fails { IfErr result IsReadingWhy }
{
    if own.refused.len() == 0 {
        return Ok(());
    }
    let mut rest = own.refused.as_slice();
    let pages = pages_for(MOST_REPORTS, rest.len());
    for at in 0..pages {
        let part = Part::new(at + 1, pages);
        let shown = first(rest, MOST_REPORTS);
        let rows = read_rows(alloc, conn, catalogue, &own.filings, shown)?;
        let page = refused_page(alloc, filer, &rows, part, about);
        put(
            folder,
            missed,
            names::of_filer(alloc, KIND, filer, at + 1),
            page,
        );
        rest = behind(rest, MOST_REPORTS);
    }
    Ok(())
}
