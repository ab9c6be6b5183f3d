//! What is gathered of all kept requests before a page is written.

ghost use Rattle.std.specs.Prelude.{◌≡◌, ◌∷◌, [], IfErr, OnOk};
ghost use Rattle.filing_model.specs.Register.{Kept, kept};
ghost use Rattle.table_rows.specs.Leaving.{MayRead};
ghost use Rattle.register_store.specs.Found.{IsPlaced};
ghost use Rattle.register_store.specs.Store.{ForRegister};
ghost use Rattle.register_extracts.specs.Faults.{IsReadingWhy};
ghost use Rattle.register_pages.specs.Gathering.{AreCountsOf, HaveSame, codes_of, senders_of};

use crate::filers::Filers;
use crate::found::Found;
use crate::reads::findings_at;
use register_extracts::{Why, sent_at};
use register_rows::{Catalogue, Line};
use register_store::{Counts, StoreFault};
use sqlite::{Alter, Connection};
use std::alloc::Global;

/// The line of the filing with this number, if the kept request at this place is that filing.
fn line_at(catalogue: &Catalogue, number: u64, place: u64) -> Option<Line> {
    let line = catalogue.line(number)?;
    if line.seq() == place {
        Some(*line)
    } else {
        None
    }
}

/// The number of the next filing, if this one is the filing of this line.
fn next_number(number: u64, line: Option<Line>) -> u64 {
    match line {
        Some(_) => number.saturating_add(1),
        None => number,
    }
}

/// Counts the codes that were found in the filer's request at this place, if it was refused.
fn gather_codes<S: Alter>(
    alloc: Global,
    conn: &mut Connection<S>,
    place: u64,
    line: Option<Line>,
    filer: &str,
    before: u64,
    found: &mut Found,
) -> Result<(), StoreFault>
    ensures { MayRead S.Store conn.old conn.new result }
{
    match line {
        Some(_) => Ok(()),
        None => {
            let findings = findings_at(alloc, conn, place)?;
            found.add(alloc, filer, before, place, &findings)?;
            Ok(())
        }
    }
}

/// Reads the request at this place: who sent it, and what was found in it.
fn gather_one<S: Alter>(
    alloc: Global,
    conn: &mut Connection<S>,
    place: u64,
    line: Option<Line>,
    filers: &mut Filers,
    found: &mut Found,
) -> Result<(), Why>
    ensures gathered { ForRegister S.Store conn.old conn.new (λ _ requests.
        (k : Kept) → IsPlaced 1 place (kept requests) k
        → OnOk result (HaveSame (codes_of filers.new) (k.request.filer ∷ codes_of filers.old))) }
    ensures leaves { MayRead S.Store conn.old conn.new result }
    ensures fails { IfErr result IsReadingWhy }
{
    let sent = sent_at(conn, place)?;
    let filer = sent.filer.as_str();
    gather_codes(
        alloc,
        conn,
        place,
        line,
        filer,
        filers.refused(filer),
        found,
    )?;
    filers.add(alloc, filer, line)?;
    Ok(())
}

/// Reads all kept requests, one after another.
pub(crate) fn gather<S: Alter>(
    alloc: Global,
    conn: &mut Connection<S>,
    counts: &Counts,
    filers: &mut Filers,
    found: &mut Found,
) -> Result<(), Why>
    ensures gathered { ForRegister S.Store conn.old conn.new (λ _ requests.
        AreCountsOf requests counts.now → codes_of filers.old ≡ []
        → OnOk result (HaveSame (codes_of filers.new) (senders_of (kept requests)))) }
    ensures leaves { MayRead S.Store conn.old conn.new result }
    ensures fails { IfErr result IsReadingWhy }
{
    let mut number = 1u64;
    for at in 0..counts.kept {
        let line = line_at(&counts.catalogue, number, at + 1);
        number = next_number(number, line);
        gather_one(alloc, conn, at + 1, line, filers, found)?;
    }
    Ok(())
}
