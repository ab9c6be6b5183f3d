//! The pages of a filing, and its report.

ghost use Rattle.std.specs.Prelude.{◌≤◌, ◌++◌, ◌∷◌, [], length};
ghost use Rattle.register_pages.specs.Pages.{Report, Writes, filing_page, numbered, report_file};
ghost use Rattle.register_pages.specs.Pages.{pages_for as pages_for_lem};

use crate::fault::Missed;
use crate::folder::{Folder, put, put_report};
use crate::frame::{Search, begin, end_by_table, filer_link, filing_link, moment, text_cell};
use crate::parts::{MOST_ROWS, Part, behind, first, neighbours, pages_for};
use crate::{Markup, names};
use json::Scratch;
use json_tree::{Tree, Unread, read_tree};
use register_extracts::WholeFiling;
use std::alloc::{AllocError, Global};
use xbrl_report::Fact;

/// The beginning of the table of facts: its caption and its first row.
const HEAD: &str = "<table class=\"facts\">\n\
    <caption>Facts. A date without a time is the midnight with which it begins.</caption>\n\
    <thead><tr>\
    <th scope=\"col\">Fact</th>\
    <th scope=\"col\">Concept</th>\
    <th scope=\"col\">Period</th>\
    <th scope=\"col\">Unit</th>\
    <th scope=\"col\">Value</th>\
    <th scope=\"col\" class=\"number\">Decimals</th>\
    </tr></thead>\n";

/// How many facts are looked over without a search box.
const FEW: usize = 20;

/// The end of a moment that is the first one of its day.
const MIDNIGHT: &str = "T00:00:00";

/// Writes the pages of a filing, and its report beside them.
pub(crate) fn write_filing<F: Folder>(
    alloc: Global,
    filing: &WholeFiling,
    about: &Markup,
    folder: &mut F,
    missed: &mut Option<Missed>,
)
    ensures { Writes missed.old missed.new (F.pages folder.old) (F.pages folder.new)
        (numbered (filing_page filing.now.number) (pages_for_lem 1000 (length filing.now.facts))
        ++ Report (report_file filing.now.number) filing.now.body ∷ []) }
{
    write_facts(alloc, filing, about, folder, missed);
    let name = names::of_report(alloc, filing.number);
    put_report(folder, missed, name, &filing.body);
}

/// Writes the pages of a filing.
fn write_facts<F: Folder>(
    alloc: Global,
    filing: &WholeFiling,
    about: &Markup,
    folder: &mut F,
    missed: &mut Option<Missed>,
)
    ensures { Writes missed.old missed.new (F.pages folder.old) (F.pages folder.new)
        (numbered (filing_page filing.now.number) (pages_for_lem 1000 (length filing.now.facts))) }
{
    let mut rest = filing.facts();
    let pages = pages_for(MOST_ROWS, rest.len());
    for at in 0..pages {
        let part = Part::new(at + 1, pages);
        let page = facts_page(alloc, filing, first(rest, MOST_ROWS), part, about);
        put(
            folder,
            missed,
            names::of_filing(alloc, filing.number, at + 1),
            page,
        );
        rest = behind(rest, MOST_ROWS);
    }
}

/// A page of a filing: what it is, and facts of it.
fn facts_page(
    alloc: Global,
    filing: &WholeFiling,
    facts: &[Fact],
    part: Part,
    about: &Markup,
) -> Result<Markup, AllocError>
    requires { length facts.now ≤ 1000 }
{
    let number = filing.number;
    let title = format!(in alloc; "Filing {number}")?;
    let mut page = begin(alloc, title.as_str())?;
    let entity = entity_of(alloc, filing.facts())?;
    describe(&mut page, alloc, filing, &entity)?;
    let before = names::of_filing(alloc, number, part.before())?;
    let next = names::of_filing(alloc, number, part.next())?;
    neighbours(&mut page, alloc, part, before.as_str(), next.as_str())?;
    let mut rows = Markup::new(alloc);
    let entity = match &entity {
        Some(entity) => entity.as_str(),
        None => "",
    };
    for fact in facts {
        fact_row(&mut rows, alloc, entity, fact)?;
    }
    let search = if filing.facts().len() > FEW {
        Search::Box
    } else {
        Search::Nothing
    };
    end_by_table(page, alloc, HEAD, &rows, about, search)
}

/// The entity of the first fact, if it has one.
fn entity_of(alloc: Global, facts: &[Fact]) -> Result<Option<String>, AllocError> {
    let Some(fact) = facts.first() else {
        return Ok(None);
    };
    let mut scratch = Scratch::new(alloc);
    match read_tree(alloc, fact.dimensions.as_bytes(), &mut scratch) {
        Ok(dimensions) => match dimensions.get("entity").and_then(Tree::as_text) {
            Some(entity) => Ok(Some(String::from_str(alloc, entity)?)),
            None => Ok(None),
        },
        Err(Unread::Memory) => Err(AllocError),
        Err(Unread::NotJson) => Ok(None),
    }
}

/// Who filed it, of which entity, under which key, when it was received, and what replaces what.
fn describe(
    page: &mut Markup,
    alloc: Global,
    filing: &WholeFiling,
    entity: &Option<String>,
) -> Result<(), AllocError> {
    page.constant("<dl>\n<dt>Filer</dt><dd>")?;
    filer_link(page, alloc, filing.filer.as_str())?;
    if let Some(entity) = entity {
        page.constant("</dd>\n<dt>Entity</dt><dd>")?;
        page.text(entity.as_str())?;
    }
    page.constant("</dd>\n<dt>Key</dt><dd>")?;
    page.text(filing.key.as_str())?;
    page.constant("</dd>\n<dt>Received</dt><dd>")?;
    moment(page, alloc, filing.received)?;
    page.constant("</dd>\n")?;
    describe_link(page, alloc, "<dt>Replaces</dt>", filing.replaces)?;
    describe_link(page, alloc, "<dt>Replaced by</dt>", filing.replaced_by)?;
    page.constant("<dt>Report</dt><dd><a href=\"filing-")?;
    page.number(alloc, filing.number)?;
    page.constant(".json\">as it was filed</a>, ")?;
    page.number(alloc, filing.body.len() as u64)?;
    page.constant(" bytes</dd>\n</dl>\n")
}

/// A link to another filing, if there is one.
fn describe_link(
    page: &mut Markup,
    alloc: Global,
    term: &'static str,
    number: Option<u64>,
) -> Result<(), AllocError> {
    let Some(number) = number else {
        return Ok(());
    };
    page.constant(term)?;
    page.constant("<dd>Filing ")?;
    filing_link(page, alloc, number)?;
    page.constant("</dd>\n")
}

/// Adds the row of a fact of a filing whose first fact has this entity.
fn fact_row(page: &mut Markup, alloc: Global, entity: &str, fact: &Fact) -> Result<(), AllocError> {
    page.constant("<tr><th scope=\"row\">")?;
    page.text(fact.id.as_str())?;
    page.constant("</th><td>")?;
    page.text(fact.concept.as_str())?;
    let mut scratch = Scratch::new(alloc);
    match read_tree(alloc, fact.dimensions.as_bytes(), &mut scratch) {
        Ok(dimensions) => cells(page, alloc, &dimensions, entity, fact)?,
        Err(Unread::Memory) => return Err(AllocError),
        Err(Unread::NotJson) => {}
    }
    page.constant("</tr>\n")
}

/// Adds what the cell of the concept has behind that, and the cells that follow.
fn cells(
    page: &mut Markup,
    alloc: Global,
    dimensions: &Tree<'_>,
    entity: &str,
    fact: &Fact,
) -> Result<(), AllocError> {
    other_dimensions(page, dimensions, entity)?;
    page.constant("</td>")?;
    period_cell(page, dimensions)?;
    unit_cell(page, dimensions)?;
    value_cell(page, &fact.value, dimensions.get("unit").is_some())?;
    decimals_cell(page, alloc, fact.decimals)
}

/// Adds the dimensions that have no cell of their own, each on a line.
fn other_dimensions(
    page: &mut Markup,
    dimensions: &Tree<'_>,
    entity: &str,
) -> Result<(), AllocError> {
    if let Some(members) = dimensions.as_object() {
        for (name, value) in members {
            if !is_shown(name, value, entity) {
                page.constant("<br>")?;
                other_dimension(page, name, value)?;
            }
        }
    }
    Ok(())
}

/// The cell of the period, in one line or two.
fn period_cell(page: &mut Markup, dimensions: &Tree<'_>) -> Result<(), AllocError> {
    page.constant("<td class=\"period\">")?;
    if let Some(text) = dimensions.get("period").and_then(Tree::as_text) {
        match text.split_once('/') {
            Some((first, end)) => {
                page.text(without_midnight(first))?;
                page.constant("/<wbr>")?;
                page.text(without_midnight(end))?;
            }
            None => page.text(without_midnight(text))?,
        }
    }
    page.constant("</td>")
}

/// A moment without its time if that is midnight.
fn without_midnight(moment: &str) -> &str {
    moment.strip_suffix(MIDNIGHT).unwrap_or(moment)
}

/// The cell of the unit.
fn unit_cell(page: &mut Markup, dimensions: &Tree<'_>) -> Result<(), AllocError> {
    match dimensions.get("unit").and_then(Tree::as_text) {
        Some(text) => text_cell(page, text),
        None => page.constant("<td></td>"),
    }
}

/// The cell of a value, which may be nil. A value with a unit is an amount.
fn value_cell(
    page: &mut Markup,
    value: &Option<String>,
    is_amount: bool,
) -> Result<(), AllocError> {
    page.constant(if is_amount {
        "<td class=\"amount\">"
    } else {
        "<td>"
    })?;
    match value {
        Some(value) => page.text(value.as_str())?,
        None => page.constant("<em>nil</em>")?,
    }
    page.constant("</td>")
}

/// The cell of decimals, if there are some.
fn decimals_cell(
    page: &mut Markup,
    alloc: Global,
    decimals: Option<i64>,
) -> Result<(), AllocError> {
    page.constant("<td class=\"number\">")?;
    if let Some(decimals) = decimals {
        let text = format!(in alloc; "{decimals}")?;
        page.text(text.as_str())?;
    }
    page.constant("</td>")
}

/// Whether the dimension of this name has a cell of its own, or is the entity that stands above the table.
fn is_shown(name: &str, value: &Tree<'_>, entity: &str) -> bool {
    match name {
        "concept" | "period" | "unit" => true,
        "entity" => match value.as_text() {
            Some(its) => its.as_bytes() == entity.as_bytes(),
            None => false,
        },
        _ => false,
    }
}

/// A dimension that has no cell of its own.
fn other_dimension(page: &mut Markup, name: &str, value: &Tree<'_>) -> Result<(), AllocError> {
    page.text(name)?;
    page.constant(": ")?;
    match value.as_text() {
        Some(text) => page.text(text),
        None => page.constant("<em>nil</em>"),
    }
}
