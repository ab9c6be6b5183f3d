//! What every page has: its head, the links to the other pages, and its end.

ghost use Rattle.std.specs.Prelude.{IfOk, OnOk};
ghost use Rattle.register_pages.specs.Reading.{AddsText};
ghost use Rattle.register_pages.specs.Visible.{visible};
ghost use Rattle.register_store.specs.Moments.{milliseconds_of};
ghost use Rattle.register_pages.specs.Shown.{Holds, shown_moment};

use crate::{Markup, names};
use register_extracts::{Moment, moment_text};
use std::alloc::{AllocError, Global};

/// What a page has before its title. It loads nothing from elsewhere but the pages of the same list, and a browser runs
/// no script and takes no style but those whose SHA-256 stands here in base64 (Content Security Policy Level 3): of the
/// text of `<style>` and of the one of `<script>` below.
const BEFORE_TITLE: &str = "<!DOCTYPE html>\n\
    <html lang=\"en\">\n\
    <head>\n\
    <meta charset=\"utf-8\">\n\
    <meta name=\"viewport\" content=\"width=device-width, initial-scale=1\">\n\
    <meta http-equiv=\"Content-Security-Policy\" content=\"default-src 'none'; style-src \
    'sha256-8r+CN+aQK4duPyOeA+2iQvXkd6+TSdF0BCo96Py1CAM='; script-src \
    'sha256-P1vW3KyZtlwI+3ckXRETSx2z3RJ5RwuubrrHj37yXhM='; connect-src 'self'; img-src data:; \
    base-uri 'none'; form-action 'none'\">\n\
    <link rel=\"icon\" href=\"data:,\">\n\
    <title>";

/// What a page has between its title and its heading. On a narrow screen a row is a block, in which each cell has its
/// name before it.
const AFTER_TITLE: &str = "</title>\n\
    <style>\n\
    :root { color-scheme: light dark; --line: #8888; --link: #0645ad; --bar: #3a6ea5; }\n\
    @media (prefers-color-scheme: dark) { :root { --link: #8ab4f8; --bar: #7fa8d9; } }\n\
    body { font-family: system-ui, sans-serif; line-height: 1.5; margin: 0 auto; max-width: 80rem; padding: 0 1rem \
    3rem; }\n\
    a { color: var(--link); }\n\
    :focus-visible { outline: 3px solid var(--link); outline-offset: 2px; }\n\
    .skip { position: absolute; left: -100rem; }\n\
    .skip:focus { position: static; }\n\
    nav { border-bottom: 1px solid var(--line); padding: .75rem 0; }\n\
    nav a { margin-right: 1rem; }\n\
    table { border-collapse: collapse; width: 100%; }\n\
    caption { text-align: left; padding: .5rem 0; }\n\
    th, td { border-bottom: 1px solid var(--line); max-width: 30rem; overflow-wrap: anywhere; padding: .25rem \
    .75rem .25rem 0; text-align: left; unicode-bidi: isolate; vertical-align: top; white-space: pre-wrap; }\n\
    thead th { overflow-wrap: normal; white-space: normal; }\n\
    thead button { background: none; border: 0; color: inherit; cursor: pointer; font: inherit; padding: 0; \
    text-align: inherit; }\n\
    [aria-sort=ascending] button::after { content: \" \\2191\"; }\n\
    [aria-sort=descending] button::after { content: \" \\2193\"; }\n\
    h1, dd, footer { overflow-wrap: anywhere; unicode-bidi: isolate; white-space: pre-wrap; }\n\
    td p { margin: 0 0 .5rem; }\n\
    .number { text-align: right; white-space: nowrap; }\n\
    .amount { text-align: right; }\n\
    .moment { white-space: nowrap; }\n\
    .period { overflow-wrap: normal; }\n\
    input { font: inherit; max-width: 100%; padding: .25rem; width: 24rem; }\n\
    footer { margin-top: 1rem; }\n\
    svg { height: auto; max-width: 100%; }\n\
    svg text { fill: currentColor; font: 14px system-ui, sans-serif; }\n\
    svg rect { fill: var(--bar); }\n\
    @media screen and (max-width: 45rem) {\n\
    table, caption, tbody, tr, tbody th, td { display: block; }\n\
    thead { left: -100rem; position: absolute; }\n\
    tr { border-bottom: 1px solid var(--line); padding: .5rem 0; }\n\
    tbody th, td { border: 0; max-width: none; padding: 0; text-align: left; white-space: pre-wrap; }\n\
    td:empty { display: none; }\n\
    .number, .amount { text-align: left; }\n\
    .filers td:nth-child(2)::before { content: \"Filings: \"; }\n\
    .filers td:nth-child(3)::before { content: \"Not replaced: \"; }\n\
    .filers td:nth-child(4)::before { content: \"Refused reports: \"; }\n\
    .filings td:nth-child(1)::before { content: \"Filing: \"; }\n\
    .filings td:nth-child(2)::before { content: \"Key: \"; }\n\
    .filings td:nth-child(3)::before { content: \"Received: \"; }\n\
    .filings td:nth-child(4)::before { content: \"Facts: \"; }\n\
    .filings td:nth-child(5)::before { content: \"Replaces: \"; }\n\
    .filings td:nth-child(6)::before { content: \"Replaced by: \"; }\n\
    .facts td:nth-child(2)::before { content: \"Concept: \"; }\n\
    .facts td:nth-child(3)::before { content: \"Period: \"; }\n\
    .facts td:nth-child(4)::before { content: \"Unit: \"; }\n\
    .facts td:nth-child(5)::before { content: \"Value: \"; }\n\
    .facts td:nth-child(6)::before { content: \"Decimals: \"; }\n\
    .refused td:nth-child(2)::before { content: \"Received: \"; }\n\
    .refused td:nth-child(3)::before { content: \"Sent to replace: \"; }\n\
    .refused td:nth-child(4)::before { content: \"Bytes: \"; }\n\
    .refused td:nth-child(5)::before { content: \"Findings: \"; }\n\
    .refused td:nth-child(6)::before { content: \"Next filing: \"; }\n\
    .codes td:nth-child(2)::before { content: \"It means: \"; }\n\
    .codes td:nth-child(3)::before { content: \"To do: \"; }\n\
    .codes td:nth-child(4)::before { content: \"Findings: \"; }\n\
    .codes td:nth-child(5)::before { content: \"Reports: \"; }\n\
    .codes td:nth-child(6)::before { content: \"Filers: \"; }\n\
    .codes td:nth-child(7)::before { content: \"Reports of: \"; }\n\
    }\n\
    @media print {\n\
    :root { color-scheme: light; --link: #000; }\n\
    nav, .skip, #search-box, #parts { display: none; }\n\
    body { max-width: none; padding: 0; }\n\
    tr { break-inside: avoid; }\n\
    }\n\
    </style>\n\
    </head>\n\
    <body>\n\
    <a class=\"skip\" href=\"#main\">Skip to the content</a>\n\
    <nav aria-label=\"Pages\"><a href=\"index.html\">Filers</a> <a href=\"findings.html\">Findings</a></nav>\n\
    <main id=\"main\">\n\
    <h1>";

/// The search box. It is shown if the page's script runs.
const SEARCH: &str = "<p id=\"search-box\" hidden><label for=\"search\">Search this table</label> \
    <input id=\"search\" type=\"search\" autocomplete=\"off\"> <span id=\"found\" role=\"status\"></span></p>\n";

/// The script of the search box, which shows a row if it has each of the words, and of the columns' heads, by which the
/// rows are sorted. If the table goes on on other pages, it gets their rows first.
const SCRIPT: &str = "<script>\n\
    (function () {\n\
      \"use strict\";\n\
      var body = document.querySelector(\"tbody\");\n\
      var box = document.getElementById(\"search\");\n\
      var parts = document.getElementById(\"parts\");\n\
      var found = document.getElementById(\"found\");\n\
      var rows = Array.from(body.rows);\n\
      var all = !parts;\n\
      var order = null;\n\
      document.getElementById(\"search-box\").hidden = false;\n\
      // The rows of the pages that follow a link of this kind, one after another.\n\
      async function follow(page, kind) {\n\
        var more = [];\n\
        for (var link = page.querySelector(\"a[rel=\" + kind + \"]\"); link; link = page.querySelector(\"a[rel=\" \
        + kind + \"]\")) {\n\
          var got = await fetch(link.href);\n\
          if (!got.ok) { throw got.status; }\n\
          page = new DOMParser().parseFromString(await got.text(), \"text/html\");\n\
          var its = Array.from(page.querySelectorAll(\"tbody tr\"));\n\
          more = kind === \"next\" ? more.concat(its) : its.concat(more);\n\
        }\n\
        return more;\n\
      }\n\
      // Gets the rows of the list's other pages, once.\n\
      async function whole() {\n\
        if (all) { return; }\n\
        all = true;\n\
        try {\n\
          var before = await follow(document, \"prev\");\n\
          rows = before.concat(rows, await follow(document, \"next\"));\n\
          parts.textContent = \"All pages\";\n\
        } catch (fault) {\n\
          parts.append(\" (this page alone is searched and sorted)\");\n\
        }\n\
      }\n\
      function show() {\n\
        var words = box.value.toLowerCase().split(/\\s+/).filter(Boolean);\n\
        var shown = rows.filter(function (row) {\n\
          var text = row.textContent.toLowerCase();\n\
          return words.every(function (word) { return text.includes(word); });\n\
        });\n\
        body.replaceChildren.apply(body, shown.slice(0, 1000));\n\
        found.textContent = shown.length > 1000 ? \"1000 of \" + shown.length : words.length ? shown.length + \" \
        of \" + rows.length : \"\";\n\
      }\n\
      function compare(one, other) {\n\
        var a = one.cells[order.at].textContent, b = other.cells[order.at].textContent;\n\
        var isNumber = a !== \"\" && b !== \"\" && !isNaN(a) && !isNaN(b);\n\
        return order.way * (isNumber ? a - b : a < b ? -1 : a > b ? 1 : 0);\n\
      }\n\
      async function sort(at, head) {\n\
        await whole();\n\
        order = { at: at, way: order && order.at === at ? -order.way : 1 };\n\
        rows.sort(compare);\n\
        document.querySelectorAll(\"th[aria-sort]\").forEach(function (it) { it.removeAttribute(\"aria-sort\"); \
        });\n\
        head.setAttribute(\"aria-sort\", order.way > 0 ? \"ascending\" : \"descending\");\n\
        show();\n\
      }\n\
      document.querySelectorAll(\"thead th\").forEach(function (head, at) {\n\
        var button = document.createElement(\"button\");\n\
        button.type = \"button\";\n\
        button.append.apply(button, Array.from(head.childNodes));\n\
        button.addEventListener(\"click\", function () { sort(at, head); });\n\
        head.append(button);\n\
      });\n\
      box.addEventListener(\"input\", function () { whole().then(show); });\n\
    })();\n\
    </script>\n";

/// The end of a page.
const END: &str = "</body>\n\
    </html>\n";

/// A page that is begun: its head, and its heading, which is its title too.
pub(crate) fn begin(alloc: Global, title: &str) -> Result<Markup, AllocError> {
    begin_by(alloc, "", title)
}

/// The same if the title begins with these words.
pub(crate) fn begin_by(
    alloc: Global,
    words: &'static str,
    title: &str,
) -> Result<Markup, AllocError> {
    let mut page = Markup::new(alloc);
    page.constant(BEFORE_TITLE)?;
    page.constant(words)?;
    page.text(title)?;
    page.constant(AFTER_TITLE)?;
    page.constant(words)?;
    page.text(title)?;
    page.constant("</h1>\n")?;
    Ok(page)
}

/// Whether a table has a search box over it.
#[derive(Clone, Copy, PartialEq, Eq)]
pub(crate) enum Search {
    Box,
    Nothing,
}

/// What stands behind the rows of a page's table: its end, and what is said of the register.
fn behind_rows(alloc: Global, about: &Markup, search: Search) -> Result<Markup, AllocError> {
    let mut behind = Markup::new(alloc);
    behind.constant("</tbody>\n</table>\n</main>\n<footer>")?;
    behind.piece(about)?;
    behind.constant("</footer>\n")?;
    if search == Search::Box {
        behind.constant(SCRIPT)?;
    }
    behind.constant(END)?;
    Ok(behind)
}

/// Begins a table, of which `head` has the caption and the first row.
fn begin_table(page: &mut Markup, head: &'static str, search: Search) -> Result<(), AllocError> {
    if search == Search::Box {
        page.constant(SEARCH)?;
    }
    page.constant(head)?;
    page.constant("<tbody>\n")
}

/// Adds a table with these rows to a page that was begun, and ends it. `about` says of which register the page is.
pub(crate) fn end_by_table(
    page: Markup,
    alloc: Global,
    head: &'static str,
    rows: &Markup,
    about: &Markup,
    search: Search,
) -> Result<Markup, AllocError>
    ensures { IfOk result (λ page. Holds rows.now page) }
{
    let behind = behind_rows(alloc, about, search)?;
    let mut page = page;
    begin_table(&mut page, head, search)?;
    page.piece(rows)?;
    page.piece(&behind)?;
    Ok(page)
}

/// A cell with a text.
pub(crate) fn text_cell(page: &mut Markup, text: &str) -> Result<(), AllocError> {
    page.constant("<td>")?;
    page.text(text)?;
    page.constant("</td>")
}

/// A cell with a number.
pub(crate) fn number_cell(page: &mut Markup, alloc: Global, number: u64) -> Result<(), AllocError> {
    page.constant("<td class=\"number\">")?;
    page.number(alloc, number)?;
    page.constant("</td>")
}

/// A moment in UTC, or that it is not known.
pub(crate) fn moment(
    page: &mut Markup,
    alloc: Global,
    moment: Option<Moment>,
) -> Result<(), AllocError>
    ensures { OnOk result (AddsText (visible (shown_moment (milliseconds_of moment))) page.old page.new) }
{
    match moment {
        Some(moment) => page.text(moment_text(alloc, moment)?.as_str()),
        None => page.text("unknown"),
    }
}

/// A cell with a moment, in one line.
pub(crate) fn moment_cell(
    page: &mut Markup,
    alloc: Global,
    received: Option<Moment>,
) -> Result<(), AllocError> {
    page.constant("<td class=\"moment\">")?;
    moment(page, alloc, received)?;
    page.constant("</td>")
}

/// A link to the page of a filing.
pub(crate) fn filing_link(page: &mut Markup, alloc: Global, number: u64) -> Result<(), AllocError> {
    page.constant("<a href=\"filing-")?;
    page.number(alloc, number)?;
    page.constant(".html\">")?;
    page.number(alloc, number)?;
    page.constant("</a>")
}

/// A cell with a link to the page of a filing, if there is one.
pub(crate) fn filing_cell(
    page: &mut Markup,
    alloc: Global,
    number: Option<u64>,
) -> Result<(), AllocError> {
    page.constant("<td class=\"number\">")?;
    if let Some(number) = number {
        filing_link(page, alloc, number)?;
    }
    page.constant("</td>")
}

/// A link to the first page of a filer.
pub(crate) fn filer_link(page: &mut Markup, alloc: Global, filer: &str) -> Result<(), AllocError> {
    page.constant("<a href=\"")?;
    page.text(names::of_filer(alloc, "filer-", filer, 1)?.as_str())?;
    page.constant("\">")?;
    page.text(filer)?;
    page.constant("</a>")
}
