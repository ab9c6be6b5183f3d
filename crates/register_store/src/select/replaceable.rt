//! Whether a filer has a filing, and may replace it: no other filing replaces it.
ghost use Rattle.std.specs.Prelude.{◌≡◌, ◌<◌, ◌^◌, ◌∷◌, [], ℕ, pos, List, bytes_eq, IfOk};
ghost use Rattle.std.specs.List.{list_any};
ghost use Rattle.filing_model.specs.Register.{Kept, is_filing_of, is_replaceable, kept, register};
ghost use Rattle.table_rows.specs.Leaving.{OnlyReads};
ghost use Rattle.register_store.specs.Found.{IsPlaced};
ghost use Rattle.register_rows.specs.Catalogue.{catalogue_of, view_lines};
ghost use Rattle.sqlite.specs.declared.types.Value.TheVariants.{Text};
ghost use Rattle.register_store.specs.Calls.{AnswersDurably, KeepsStore};
ghost use Rattle.register_store.specs.Store.{ForRequests, ForRegister};

use crate::select::catalogued::{is_unreplaced, place_of};
use crate::select::reads;
use crate::store::Store;
use register_rows::{Catalogue, text_at};
use sqlite::{Alter, Connection, Row};
use table_rows::StoreFault;

/// Whether the one column of the first row is this text.
fn is_text(rows: &[Row], text: &str) -> bool
    ensures { (filer : List ℕ) → rows.now ≡ (Text filer ∷ []) ∷ [] → result ≡ bytes_eq filer text.now }
{
    match rows.first() {
        None => false,
        Some(row) => text_at(row, 0) == text.as_bytes(),
    }
}

/// The place as a column holds it.
fn in_column(place: u64) -> Result<i64, StoreFault>
    ensures { IfOk result (λ seq. (seq ≡ pos place) × (place < 2 ^ 63)) }
{
    i64::try_from(place).map_err(|_| StoreFault::Store)
}

/// Whether the kept request at this place is the filer's.
fn is_filers<S: Alter>(conn: &mut Connection<S>, filer: &str, seq: i64) -> Result<bool, StoreFault>
    ensures found { ForRegister S.Store conn.old conn.new (λ _ F.
        (n : ℕ) (k : Kept) → seq ≡ pos n → IsPlaced 1 n (kept F) k
        → IfOk result (λ so. so ≡ bytes_eq k.request.filer filer.now)) }
    ensures leaves { OnlyReads S.Store conn.old conn.new result }
{
    let rows = reads::filer_at(conn, seq)?;
    Ok(is_text(&rows, filer))
}

/// Whether the filer has a filing of this number.
pub(crate) fn has_filing<S: Alter>(
    conn: &mut Connection<S>,
    catalogue: &Catalogue,
    filer: &str,
    number: u64,
) -> Result<bool, StoreFault>
    ensures found { ForRegister S.Store conn.old conn.new (λ _ F.
        view_lines catalogue.now ≡ catalogue_of F
        → IfOk result (λ so. so ≡ list_any (is_filing_of filer.now number) (register F))) }
    ensures leaves { OnlyReads S.Store conn.old conn.new result }
{
    match place_of(catalogue, number) {
        Some(place) => is_filers(conn, filer, in_column(place)?),
        None => {
            // The database is asked even so, since an answer says that it is open. No request has the place 0.
            is_filers(conn, filer, 0)?;
            Ok(false)
        }
    }
}

impl<S: Alter> Store<S> {
    /// Whether the filer may replace the filing of this number: it is the filer's, and none replaces it.
    pub fn replaceable(&mut self, filer: &str, number: u64) -> Result<bool, StoreFault>
        ensures answer { ForRequests S.Store self.old self.new (λ F.
            IfOk result (λ free. free ≡ is_replaceable (register F) filer.now number)) }
        ensures keeps { KeepsStore S.Store self.old self.new }
        ensures durable { AnswersDurably S.Store self.old self.new result }
    {
        let is_own = has_filing(&mut self.conn, &self.catalogue, filer, number)?;
        Ok(is_own && is_unreplaced(&self.catalogue, number))
    }
}
