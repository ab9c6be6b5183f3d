//! What one filer sent.

ghost use Rattle.std.specs.Prelude.{◌≡◌, ℕ, List, is_some, length, map, IfOk, OnOk};
ghost use Rattle.sqlite.specs.Order.{Row};
ghost use Rattle.filing_model.specs.Register.{Kept, kept};
ghost use Rattle.table_rows.specs.Leaving.{OnlyReads};
ghost use Rattle.register_rows.specs.Register.{number_of};
ghost use Rattle.register_store.specs.Store.{ForRegister};
ghost use Rattle.register_pages.specs.Own.{AreOwn, GainsOne, own_row};
ghost use Rattle.register_pages.specs.Pages.{sent_by};

use crate::reads::own_rows;
use sqlite::{Alter, Connection, Row};
use std::alloc::{AllocError, Global};
use table_rows::StoreFault;

/// A filing, the place of its request, and the key under which it was sent.
#[derive(Drop)]
pub(crate) struct Filed {
    pub(crate) number: u64,
    pub(crate) place: u64,
    pub(crate) key: String,
}

/// What a filer sent: the filings in the order of their numbers, and the places of the refused reports.
#[derive(Drop)]
pub(crate) struct Own {
    pub(crate) filings: Vec<Filed>,
    pub(crate) refused: Vec<u64>,
}

/// A row with the columns `seq`, `idem` and `number`.
#[derive(Drop)]
struct OwnRow {
    place: u64,
    key: String,
    number: Option<u64>,
}

/// What such a row says.
fn read_row(row: &Row) -> Result<OwnRow, StoreFault>
    ensures { IfOk result (λ own.
        (p : ℕ × Kept) → row.now ≡ own_row p → (own.place ≡ p.0) × (own.number ≡ number_of p.1.outcome)) }
{
    let place = row.get(0)?;
    let key = row.get(1)?;
    let number = row.get(2)?;
    Ok(OwnRow { place, key, number })
}

impl Own {
    /// Adds what a row says.
    fn add(&mut self, row: OwnRow) -> Result<(), AllocError>
        ensures { OnOk result (GainsOne (is_some row.number) row.place (length self.old.filings.items)
            (length self.new.filings.items) self.old.refused.items self.new.refused.items) }
    {
        match row.number {
            Some(number) => self.filings.push(Filed {
                number,
                place: row.place,
                key: row.key,
            })?,
            None => self.refused.push(row.place)?,
        }
        Ok(())
    }
}

/// What such rows say.
fn read_rows(alloc: Global, rows: &[Row]) -> Result<Own, StoreFault>
    ensures { IfOk result (λ own.
        (sent : List (ℕ × Kept)) → rows.now ≡ map own_row sent → AreOwn own sent) }
{
    let mut own = Own {
        filings: Vec::new(alloc),
        refused: Vec::new(alloc),
    };
    for row in rows {
        own.add(read_row(row)?)?;
    }
    Ok(own)
}

/// What this filer sent.
pub(crate) fn own_of<S: Alter>(
    alloc: Global,
    conn: &mut Connection<S>,
    filer: &str,
) -> Result<Own, StoreFault>
    ensures found { ForRegister S.Store conn.old conn.new (λ _ requests.
        IfOk result (λ own. AreOwn own (sent_by filer.now (kept requests)))) }
    ensures leaves { OnlyReads S.Store conn.old conn.new result }
{
    let rows = own_rows(conn, filer)?;
    read_rows(alloc, &rows)
}
