//! How often each code was found and where, as a chart and as a table.

use crate::found::{Shown, Where};
use crate::frame::{Search, begin, end_by_table, number_cell};
use crate::words::{meaning, remedy};
use crate::{Markup, names};
use std::alloc::{AllocError, Global};
use xbrl_report::Code;

/// The caption and the first row of the table of codes.
const HEAD: &str = "<table class=\"codes\">\n\
    <caption>Findings by code. The link of a filer leads to the first of its reports that have the code.</caption>\n\
    <thead><tr>\
    <th scope=\"col\">Code</th>\
    <th scope=\"col\">What it means</th>\
    <th scope=\"col\">What to do</th>\
    <th scope=\"col\" class=\"number\">Findings</th>\
    <th scope=\"col\" class=\"number\">Reports</th>\
    <th scope=\"col\" class=\"number\">Filers</th>\
    <th scope=\"col\">Reports of</th>\
    </tr></thead>\n";

/// How many filers are linked at most for a code.
const MOST_FILERS: usize = 20;

/// How wide the longest bar is, and how high a row of the chart.
const WIDEST: u64 = 400;

const ROW: u64 = 28;

/// A code that was found.
#[derive(Clone, Copy)]
struct Bar<'a> {
    code: Code,
    its: &'a Where,
}

/// The page of the findings by code, the most frequent first.
pub(crate) fn findings_page(
    alloc: Global,
    found: &[Where],
    about: &Markup,
) -> Result<Markup, AllocError> {
    let bars = bars(alloc, found)?;
    let mut page = begin(alloc, "Findings")?;
    chart(&mut page, alloc, &bars)?;
    let mut rows = Markup::new(alloc);
    for bar in &bars {
        code_row(&mut rows, alloc, *bar)?;
    }
    end_by_table(page, alloc, HEAD, &rows, about, Search::Box)
}

/// Adds the row of a code.
fn code_row(rows: &mut Markup, alloc: Global, bar: Bar<'_>) -> Result<(), AllocError> {
    rows.constant("<tr id=\"")?;
    rows.constant(bar.code.text())?;
    rows.constant("\"><th scope=\"row\">")?;
    rows.constant(bar.code.text())?;
    rows.constant("</th><td>")?;
    rows.constant(meaning(bar.code))?;
    rows.constant("</td><td>")?;
    rows.constant(remedy(bar.code))?;
    rows.constant("</td>")?;
    number_cell(rows, alloc, bar.its.findings)?;
    number_cell(rows, alloc, bar.its.reports)?;
    number_cell(rows, alloc, bar.its.filers.len() as u64)?;
    filers_cell(rows, alloc, bar.its)?;
    rows.constant("</tr>\n")
}

/// A cell with the first filers in whose reports a code was found, each with a link to the first of these reports.
fn filers_cell(rows: &mut Markup, alloc: Global, its: &Where) -> Result<(), AllocError> {
    rows.constant("<td>")?;
    let mut shown = 0;
    for (filer, report) in its.filers.iter() {
        if shown < MOST_FILERS {
            report_link(rows, alloc, filer.as_str(), *report)?;
            rows.constant(" ")?;
            shown += 1;
        }
    }
    let all = its.filers.len();
    if all > MOST_FILERS {
        rows.constant("and ")?;
        rows.number(alloc, (all - MOST_FILERS) as u64)?;
        rows.constant(" more")?;
    }
    rows.constant("</td>")
}

/// A link to a filer's refused report, which has the filer's code.
fn report_link(
    rows: &mut Markup,
    alloc: Global,
    filer: &str,
    report: Shown,
) -> Result<(), AllocError> {
    rows.constant("<a href=\"")?;
    rows.text(names::of_filer(alloc, "refused-", filer, report.page)?.as_str())?;
    rows.constant("#request-")?;
    rows.number(alloc, report.place)?;
    rows.constant("\">")?;
    rows.text(filer)?;
    rows.constant("</a>")
}

/// The codes that were found, the most frequent first.
fn bars(alloc: Global, found: &[Where]) -> Result<Vec<Bar<'_>>, AllocError> {
    let mut left = Vec::new(alloc);
    for its in found {
        left.push(its.findings)?;
    }
    let mut bars = Vec::new(alloc);
    for _ in 0..found.len() {
        let Some(number) = most_frequent(&left) else {
            return Ok(bars);
        };
        if let Some(count) = left.get_mut(number) {
            *count = 0;
        }
        if let (Some(code), Some(its)) = (code_of(number), found.get(number)) {
            bars.push(Bar { code, its })?;
        }
    }
    Ok(bars)
}

/// The code of this number.
fn code_of(number: usize) -> Option<Code> {
    Code::of_number(i64::try_from(number).unwrap_or(0))
}

/// The number of the code that was found most often, if one was found.
fn most_frequent(found: &[u64]) -> Option<usize> {
    let mut best = None;
    let mut most = 0;
    for (number, count) in found.iter().enumerate() {
        if *count > most {
            most = *count;
            best = Some(number);
        }
    }
    best
}

/// The bars, with their words and counts.
fn chart(page: &mut Markup, alloc: Global, bars: &[Bar<'_>]) -> Result<(), AllocError> {
    let Some(first) = bars.first() else {
        return page.constant("<p>No report was refused.</p>\n");
    };
    let most = first.its.findings;
    page.constant(
        "<svg role=\"img\" aria-label=\"Findings by code, as in the table below\" width=\"700\" viewBox=\"0 0 700 ",
    )?;
    page.number(alloc, (bars.len() as u64).saturating_mul(ROW))?;
    page.constant("\">\n")?;
    for (at, bar) in bars.iter().enumerate() {
        write_bar(page, alloc, (at as u64).saturating_mul(ROW), *bar, most)?;
    }
    page.constant("</svg>\n")
}

/// How wide the bar of a count is.
fn width(count: u64, most: u64) -> u64 {
    if most == 0 {
        0
    } else {
        count.saturating_mul(WIDEST) / most
    }
}

/// A bar whose row begins so far down.
fn write_bar(
    page: &mut Markup,
    alloc: Global,
    top: u64,
    bar: Bar<'_>,
    most: u64,
) -> Result<(), AllocError> {
    let line = top.saturating_add(19);
    let width = width(bar.its.findings, most);
    page.constant("<text x=\"170\" text-anchor=\"end\" y=\"")?;
    page.number(alloc, line)?;
    page.constant("\">")?;
    page.constant(bar.code.text())?;
    page.constant("</text><rect x=\"180\" height=\"20\" y=\"")?;
    page.number(alloc, top.saturating_add(4))?;
    page.constant("\" width=\"")?;
    page.number(alloc, width)?;
    page.constant("\"/><text x=\"")?;
    page.number(alloc, width.saturating_add(188))?;
    page.constant("\" y=\"")?;
    page.number(alloc, line)?;
    page.constant("\">")?;
    page.number(alloc, bar.its.findings)?;
    page.constant("</text>\n")
}
