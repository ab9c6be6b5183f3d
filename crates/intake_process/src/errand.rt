//! An errand to the register that a database is. This is written over any store, since each function that names a store
//! in files and calls such code costs much to prove.

ghost use Rattle.table_rows.specs.Standing.{IsAtRest};
ghost use Rattle.intake_process.specs.Errands.{FillsFolder, RunsErrand};
ghost use Rattle.intake_process.specs.Tasks.{AnswersQuestion};

use crate::tasks::bodies::{print_filed, print_sent};
use crate::tasks::checking::{CheckProgress, check};
use crate::tasks::dating::list_moments;
use crate::tasks::digesting::digest;
use crate::tasks::errand::{Errand, Question};
use crate::tasks::listing::list;
use crate::tasks::migrating::migrate;
use crate::tasks::showing::show;
use register_extracts::{Why, export};
use register_pages::{Folder, write_pages};
use register_store::Store;
use sqlite::{Alter, Connection};
use std::alloc::Global;
use std::io::Write;

/// Does an errand to the register that this database is, and gives the connection back. `progress` learns how far a
/// check is, and pages go into `folder`.
pub(crate) fn run_errand<S: Alter + Drop, P: CheckProgress, F: Folder, O: Write>(
    alloc: Global,
    mut conn: Connection<S>,
    errand: Errand<'_>,
    progress: &mut P,
    folder: &mut F,
    output: &mut O,
) -> (Connection<S>, Result<(), Why>)
    requires { IsAtRest conn }
    ensures runs { RunsErrand S.Store errand.entry (O.contents output.old) (O.contents output.new) conn
        result.0 result.1 }
    ensures fills { FillsFolder S.Store errand.entry (F.pages folder.old) (F.pages folder.new) conn result.0 result.1 }
{
    match errand {
        Errand::Ask(question) => ask(alloc, conn, question, output),
        Errand::Check { against } => {
            let done = check(alloc, &mut conn, against, progress, output);
            (conn, done)
        }
        Errand::Migrate => {
            let done = migrate(alloc, &mut conn, output);
            (conn, done)
        }
        Errand::Export { form, wanted } => {
            let done = export(alloc, &mut conn, form, wanted, output);
            (conn, done)
        }
        Errand::Digest { until } => {
            let done = digest(alloc, &mut conn, until, output);
            (conn, done)
        }
        Errand::Pages { folder: _ } => {
            let done = write_pages(alloc, &mut conn, folder);
            (conn, done)
        }
    }
}

/// Opens the register that this database is, and answers a question from it.
fn ask<S: Alter + Drop, O: Write>(
    alloc: Global,
    conn: Connection<S>,
    question: Question<'_>,
    output: &mut O,
) -> (Connection<S>, Result<(), Why>)
    requires { IsAtRest conn }
    ensures { RunsErrand S.Store (Errand.Ask question.entry) (O.contents output.old) (O.contents output.new) conn
        result.0 result.1 }
{
    match Store::open_or_back(alloc, conn) {
        Ok(store) => answer(alloc, store, question, output),
        Err((fault, back)) => (back, Err(Why::Open(fault))),
    }
}

/// Answers a question from a register, and gives its connection back.
fn answer<S: Alter, O: Write>(
    alloc: Global,
    mut store: Store<S>,
    question: Question<'_>,
    output: &mut O,
) -> (Connection<S>, Result<(), Why>)
    ensures { AnswersQuestion S.Store question.entry (O.contents output.old) (O.contents output.new) store
        result.0 result.1 }
{
    match question {
        Question::List {
            filer,
            moments: false,
        } => {
            let done = list(alloc, &mut store, filer, output);
            (store.into_conn(), done)
        }
        Question::List {
            filer,
            moments: true,
        } => {
            let done = list_moments(alloc, &mut store, filer, output);
            (store.into_conn(), done)
        }
        Question::Show { number, moments } => {
            let done = show(alloc, &mut store, number, moments, output);
            (store.into_conn(), done)
        }
        Question::FilingBody { number } => print_filed(store, number, output),
        Question::RequestBody { filer, key } => {
            let done = print_sent(alloc, &mut store, filer, key, output);
            (store.into_conn(), done)
        }
    }
}
