//! Rows in parts, each on a page of its own, and the links between these pages.

ghost use Rattle.std.specs.Prelude.{◌≡◌, ◌≤◌, ◌<◌, drop, length, take};
ghost use Rattle.register_pages.specs.Pages.{pages_for as pages_for_lem};

use crate::Markup;
use std::alloc::{AllocError, Global};

/// How many rows a page has at most, and how many refused reports.
pub(crate) const MOST_ROWS: usize = 1000;

pub(crate) const MOST_REPORTS: usize = 50;

/// Which page of how many it is, counted from 1.
#[derive(Clone, Copy)]
pub(crate) struct Part {
    pub(crate) number: usize,
    pub(crate) pages: usize,
}

impl Part {
    /// The page of this number of so many.
    pub(crate) fn new(number: usize, pages: usize) -> Part {
        Part { number, pages }
    }

    /// The number of the page before it.
    pub(crate) fn before(self) -> usize {
        self.number.saturating_sub(1)
    }

    /// The number of the next page.
    pub(crate) fn next(self) -> usize {
        self.number.saturating_add(1)
    }
}

/// How many pages so many rows take, at most `most` on each.
pub(crate) fn pages_for(most: usize, rows: usize) -> usize
    requires { (1 < most) × (most ≤ 1000) }
    ensures { result ≡ pages_for_lem most rows }
{
    rows.saturating_sub(1) / most + 1
}

/// The number of the page of a filer's refused reports that shows the one before which there are so many.
pub(crate) fn page_of(before: u64) -> usize {
    (before as usize / MOST_REPORTS).saturating_add(1)
}

/// The first rows, at most so many.
pub(crate) fn first<T>(rows: &[T], most: usize) -> &[T]
    ensures value { result.now ≡ take most rows.now }
    ensures few { length result.now ≤ most }
{
    &rows[..most.min(rows.len())]
}

/// The rows behind so many.
pub(crate) fn behind<T>(rows: &[T], most: usize) -> &[T]
    ensures { result.now ≡ drop most rows.now }
{
    &rows[most.min(rows.len())..]
}

/// Which page it is, and links to the one before it and to the next one, if there are several. These have the names
/// `before` and `next`.
pub(crate) fn neighbours(
    page: &mut Markup,
    alloc: Global,
    part: Part,
    before: &str,
    next: &str,
) -> Result<(), AllocError> {
    if part.pages <= 1 {
        return Ok(());
    }
    page.constant("<p id=\"parts\">Page ")?;
    page.number(alloc, part.number as u64)?;
    page.constant(" of ")?;
    page.number(alloc, part.pages as u64)?;
    if part.number > 1 {
        page.constant(" <a rel=\"prev\" href=\"")?;
        page.text(before)?;
        page.constant("\">Page before</a>")?;
    }
    if part.number < part.pages {
        page.constant(" <a rel=\"next\" href=\"")?;
        page.text(next)?;
        page.constant("\">Next page</a>")?;
    }
    page.constant("</p>\n")
}
