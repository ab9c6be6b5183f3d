//! Prints when filings were received.

ghost use Rattle.std.specs.Prelude.{◌≡◌, true, string_bytes, IfErr, IfOk, None};
ghost use Rattle.filing_model.specs.Listing.{listings};
ghost use Rattle.filing_model.specs.Register.{kept, register};
ghost use Rattle.register_extracts.specs.Faults.{IsReadingWhy};
ghost use Rattle.register_extracts.specs.Moments.{moment_of};
ghost use Rattle.register_store.specs.Calls.{KeepsStore};
ghost use Rattle.register_store.specs.Moments.{ForMoments, milliseconds_of};
ghost use Rattle.intake_process.specs.Listing.{moment_line, moment_lines};
ghost use Rattle.intake_process.specs.Tasks.{AnswersQuestion};

use crate::tasks::errand::Question;
use crate::tasks::text::print;
use register_extracts::{Why, moment_text};
use register_store::{Moment, Store, StoreFault};
use sqlite::Alter;
use std::alloc::{AllocError, Global};
use std::io::Write;

/// Prints when each filing of a filer was received, as a line of JSON, in the order of the list.
pub(crate) fn list_moments<S: Alter, O: Write>(
    alloc: Global,
    store: &mut Store<S>,
    filer: &str,
    output: &mut O,
) -> Result<(), Why>
    ensures { AnswersQuestion S.Store (Question.List filer.entry true) (O.contents output.old) (O.contents output.new)
        store.old store.new.conn result }
{
    let text = moment_lines(alloc, store, filer)?;
    print(output, text.as_bytes())
}

/// A line for each filing of a filer.
fn moment_lines<S: Alter>(alloc: Global, store: &mut Store<S>, filer: &str) -> Result<String, Why>
    ensures lines { ForMoments S.Store store.old store.new (λ requests moments. IfOk result (λ text.
        string_bytes text
        ≡ moment_lines (kept requests) moments (listings filer.now None (register requests)))) }
    ensures keeps { KeepsStore S.Store store.old store.new }
    ensures fails { IfErr result IsReadingWhy }
{
    let rows = store.filings(filer)?;
    let mut text = String::new(alloc);
    for row in &rows {
        let received = received(store, row.number)?;
        let line = moment_line(alloc, row.number, received)?;
        text.push_str(line.as_str())?;
    }
    Ok(text)
}

/// The moment at which the filing of this number was received. It is `None` if the moment is not known, or if there is
/// no such filing.
pub(crate) fn received<S: Alter>(
    store: &mut Store<S>,
    number: u64,
) -> Result<Option<Moment>, StoreFault>
    ensures moment { ForMoments S.Store store.old store.new (λ requests moments.
        IfOk result (λ moment. milliseconds_of moment ≡ moment_of (kept requests) moments number)) }
    ensures keeps { KeepsStore S.Store store.old store.new }
{
    match store.place_of(number) {
        Some(place) => store.moment_at(place),
        None => Ok(None),
    }
}

/// The line that says when the filing of this number was received.
pub(crate) fn moment_line(
    alloc: Global,
    number: u64,
    received: Option<Moment>,
) -> Result<String, AllocError>
    ensures { IfOk result (λ text. string_bytes text ≡ moment_line number (milliseconds_of received)) }
{
    match received {
        Some(moment) => {
            let text = moment_text(alloc, moment)?;
            let line = format!(in alloc; "{{\"number\":{number},\"received\":\"{text}\"}}\n")?;
            Ok(line)
        }
        // A request that an earlier version kept has no moment.
        None => {
            let line = format!(in alloc; "{{\"number\":{number},\"received\":null}}\n")?;
            Ok(line)
        }
    }
}
