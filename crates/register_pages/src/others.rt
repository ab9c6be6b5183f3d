//! The pages that are written behind those of filings and filers.

ghost use Rattle.std.specs.Prelude.{◌∷◌, [], codes};
ghost use Rattle.register_pages.specs.Pages.{Page, Writes};

use crate::Markup;
use crate::chart::findings_page;
use crate::fault::Missed;
use crate::filer::refused_count;
use crate::filers::{Filers, Tally};
use crate::folder::{Folder, put};
use crate::found::Found;
use crate::frame::{Search, begin, end_by_table, filer_link, number_cell};
use std::alloc::{AllocError, Global};

/// The beginning of the table of filers: its caption and its first row.
const HEAD: &str = "<table class=\"filers\">\n\
    <caption>Filers</caption>\n\
    <thead><tr>\
    <th scope=\"col\">Filer</th>\
    <th scope=\"col\" class=\"number\">Filings</th>\
    <th scope=\"col\" class=\"number\">Not replaced</th>\
    <th scope=\"col\" class=\"number\">Refused reports</th>\
    </tr></thead>\n";

/// Adds the row of a filer.
fn filer_row(
    page: &mut Markup,
    alloc: Global,
    filer: &str,
    tally: Tally,
) -> Result<(), AllocError> {
    page.constant("<tr><th scope=\"row\">")?;
    filer_link(page, alloc, filer)?;
    page.constant("</th>")?;
    number_cell(page, alloc, tally.filings)?;
    number_cell(page, alloc, tally.current)?;
    page.constant("<td class=\"number\">")?;
    refused_count(page, alloc, filer, tally.refused)?;
    page.constant("</td></tr>\n")
}

/// The page of all filers.
fn index_page(
    alloc: Global,
    filings: u64,
    filers: &Filers,
    refused: u64,
    about: &Markup,
) -> Result<Markup, AllocError> {
    let mut page = begin(alloc, "Register")?;
    page.constant("<p>Filings: ")?;
    page.number(alloc, filings)?;
    page.constant("; <a href=\"findings.html\">refused reports: ")?;
    page.number(alloc, refused)?;
    page.constant("</a></p>\n")?;
    let mut rows = Markup::new(alloc);
    for (code, tally) in filers.list.iter() {
        filer_row(&mut rows, alloc, code.as_str(), *tally)?;
    }
    end_by_table(page, alloc, HEAD, &rows, about, Search::Box)
}

/// Writes the page of the findings, and at last the one of all filers.
pub(crate) fn write_others<F: Folder>(
    alloc: Global,
    filings: u64,
    filers: &Filers,
    found: &Found,
    about: &Markup,
    folder: &mut F,
    missed: &mut Option<Missed>,
)
    ensures { Writes missed.old missed.new (F.pages folder.old) (F.pages folder.new)
        (Page (codes "findings.html") ∷ Page (codes "index.html") ∷ []) }
{
    let page = findings_page(alloc, &found.codes, about);
    put(
        folder,
        missed,
        String::from_str(alloc, "findings.html"),
        page,
    );
    let page = index_page(alloc, filings, filers, found.reports, about);
    put(folder, missed, String::from_str(alloc, "index.html"), page);
}
