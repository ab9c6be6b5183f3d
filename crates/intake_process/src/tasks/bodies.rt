//! Prints the bytes of a kept report.

ghost use Rattle.std.specs.Prelude.{IfErr, OnOk};
ghost use Rattle.std.specs.Io.KnownBytes.{Appends};
ghost use Rattle.filing_model.specs.Register.{Kept, kept};
ghost use Rattle.table_rows.specs.Leaving.{MayRead};
ghost use Rattle.register_extracts.specs.Faults.{IsPrintingWhy};
ghost use Rattle.register_store.specs.Found.{IsPlaced};
ghost use Rattle.register_store.specs.Store.{ForRegister};
ghost use Rattle.intake_process.specs.Tasks.{AnswersQuestion, PrintsNothing};

use crate::tasks::errand::Question;
use crate::tasks::text::print;
use key_string::{KeyText, is_key};
use register_extracts::{Why, sent_at};
use register_store::{Store, StoreFault};
use sqlite::{Alter, Connection};
use std::alloc::Global;
use std::io::Write;

/// Prints the report that is the filing of this number, and gives the connection of the register back.
pub(crate) fn print_filed<S: Alter, O: Write>(
    store: Store<S>,
    number: u64,
    output: &mut O,
) -> (Connection<S>, Result<(), Why>)
    ensures { AnswersQuestion S.Store (Question.FilingBody number) (O.contents output.old) (O.contents output.new)
        store result.0 result.1 }
{
    match store.place_of(number) {
        Some(place) => {
            let mut conn = store.into_conn();
            let done = print_placed(&mut conn, place, output);
            (conn, done)
        }
        None => (store.into_conn(), Err(Why::NoFiling { number })),
    }
}

/// Prints the report of the kept request at this place, counted from 1.
fn print_placed<S: Alter, O: Write>(
    conn: &mut Connection<S>,
    place: u64,
    output: &mut O,
) -> Result<(), Why>
    ensures printed { ForRegister S.Store conn.old conn.new (λ _ requests. (k : Kept)
        → IsPlaced 1 place (kept requests) k
        → OnOk result (Appends (O.contents output.old) (O.contents output.new) k.request.body)) }
    ensures fails { IfErr result IsPrintingWhy }
    ensures quiet { IfErr result (PrintsNothing (O.contents output.old) (O.contents output.new)) }
    ensures leaves { MayRead S.Store conn.old conn.new result }
{
    let sent = sent_at(conn, place)?;
    print(output, &sent.body)?;
    Ok(())
}

/// Prints the first report of a filer under this key. There is none if the text is no key.
pub(crate) fn print_sent<S: Alter, O: Write>(
    alloc: Global,
    store: &mut Store<S>,
    filer: &str,
    key: &str,
    output: &mut O,
) -> Result<(), Why>
    ensures { AnswersQuestion S.Store (Question.RequestBody filer.entry key.entry) (O.contents output.old)
        (O.contents output.new) store.old store.new.conn result }
{
    if !is_key(key.as_bytes()) {
        return Err(Why::NoRequest);
    }
    let Ok(key) = KeyText::new(alloc, key) else {
        return Err(Why::Store(StoreFault::Memory));
    };
    let Some(row) = store.find(filer, &key)? else {
        return Err(Why::NoRequest);
    };
    print(output, row.body.as_slice())
}
