//! Prints the filings of a filer.

ghost use Rattle.std.specs.Prelude.{◌≡◌, false, map, IfOk};
ghost use Rattle.filing_model.specs.Reply.{list_reply};
ghost use Rattle.filing_model.specs.Views.{view_row};
ghost use Rattle.intake_process.specs.Listing.{line};
ghost use Rattle.intake_process.specs.Tasks.{AnswersQuestion};

use crate::tasks::errand::Question;
use crate::tasks::text::print;
use intake_core::{FilingRow, list_reply};
use register_extracts::Why;
use register_store::Store;
use sqlite::Alter;
use std::alloc::{AllocError, Global};
use std::io::Write;

/// Prints the filings of a filer, as the reply to a GET lists them, as a line.
pub(crate) fn list<S: Alter, O: Write>(
    alloc: Global,
    store: &mut Store<S>,
    filer: &str,
    output: &mut O,
) -> Result<(), Why>
    ensures { AnswersQuestion S.Store (Question.List filer.entry false) (O.contents output.old) (O.contents output.new)
        store.old store.new.conn result }
{
    let rows = match store.filings(filer) {
        Ok(rows) => rows,
        Err(fault) => return Err(Why::List(fault)),
    };
    let text = list_line(alloc, &rows)?;
    print(output, &text)
}

/// The content of the reply that lists these filings, as a line.
fn list_line(alloc: Global, rows: &[FilingRow]) -> Result<Vec<u8>, AllocError>
    ensures { IfOk result (λ text. text.items ≡ line (list_reply (map view_row rows.now)).content) }
{
    let mut text = list_reply(alloc, rows)?.content;
    text.push(b'\n')?;
    Ok(text)
}
