//! The filings as they are listed, from the catalogue of an open register.

ghost use Rattle.std.specs.Prelude.{◌≡◌, ◌∷◌, [], ℕ, pos, List, map, filter, option_map, not, true, None, IfOk};
ghost use Rattle.std.specs.List.{list_any};
ghost use Rattle.filing_model.specs.Listing.{listing, listings};
ghost use Rattle.filing_model.specs.Request.{Request};
ghost use Rattle.filing_model.specs.Register.{Kept, filing_of, is_amendment_of, is_filing_of, kept, register};
ghost use Rattle.filing_model.specs.Views.{view_row};
ghost use Rattle.table_rows.specs.Rows.{counted_from};
ghost use Rattle.register_rows.specs.Catalogue.{catalogue_of, view_lines};
ghost use Rattle.register_rows.specs.Register.{kept_row, number_of};
ghost use Rattle.register_tables.specs.Reads.{by_first};
ghost use Rattle.register_store.specs.Found.{IsPlaced, IsPlaceOf};
ghost use Rattle.register_store.specs.Numbered.{filing_numbered};
ghost use Rattle.register_store.specs.Reads.{has_filer};
ghost use Rattle.sqlite.specs.declared.types.Value.TheVariants.{Int};

use filing_model::FilingRow;
use register_rows::Catalogue;
use sqlite::Row;
use std::alloc::Global;
use std::cmp::Ordering;
use table_rows::StoreFault;

/// The number of the filing at this place, or `None` if the request there was refused.
fn number_at(catalogue: &Catalogue, place: u64) -> Option<u64>
    ensures { (F : List Request) (k : Kept) → view_lines catalogue.now ≡ catalogue_of F → IsPlaced 1 place (kept F) k
        → result ≡ number_of k.outcome }
{
    let mut low = 0;
    let mut high = catalogue.len();
    'search: while low < high {
        let middle = low + (high - low) / 2;
        let line = catalogue.line(middle + 1)?;
        match line.seq().cmp(&place) {
            Ordering::Less => low = middle + 1,
            Ordering::Equal => return Some(middle + 1),
            Ordering::Greater => high = middle,
        }
    }
    None
}

/// The place of the filing of this number, if there is one.
pub(crate) fn place_of(catalogue: &Catalogue, number: u64) -> Option<u64>
    ensures { (F : List Request) → view_lines catalogue.now ≡ catalogue_of F → IsPlaceOf number F result }
{
    let line = catalogue.line(number)?;
    Some(line.seq())
}

/// Whether no filing replaces the one of this number, if a filer has it.
pub(crate) fn is_unreplaced(catalogue: &Catalogue, number: u64) -> bool
    ensures { (F : List Request) (filer : List ℕ) → view_lines catalogue.now ≡ catalogue_of F
        → list_any (is_filing_of filer number) (register F) ≡ true
        → result ≡ not (list_any (is_amendment_of number) (register F)) }
{
    match catalogue.line(number) {
        Some(line) => line.replaced_by().is_none(),
        None => false,
    }
}

/// The filing of this number as it is listed, if there is one.
pub(crate) fn row_of(catalogue: &Catalogue, number: u64) -> Option<FilingRow>
    ensures { (F : List Request) → view_lines catalogue.now ≡ catalogue_of F
        → option_map view_row result ≡ option_map (listing (register F)) (filing_numbered number (register F)) }
{
    let line = catalogue.line(number)?;
    Some(FilingRow {
        number,
        facts: line.facts() as usize,
        replaces: line.replaces(),
        replaced_by: line.replaced_by(),
    })
}

/// The filing at this place as it is listed, or `None` if the request there was refused.
fn row_at(catalogue: &Catalogue, place: u64) -> Option<FilingRow>
    ensures { (F : List Request) (k : Kept) → view_lines catalogue.now ≡ catalogue_of F → IsPlaced 1 place (kept F) k
        → option_map view_row result ≡ option_map (listing (register F)) (filing_of k.request k.outcome) }
{
    row_of(catalogue, number_at(catalogue, place)?)
}

/// The place in the one column of the row.
fn place_in(row: &Row) -> Result<u64, StoreFault>
    ensures { IfOk result (λ place. (seq : ℕ) → row.now ≡ Int (pos seq) ∷ [] → place ≡ seq) }
{
    Ok(row.get(0)?)
}

/// The filings among a filer's kept requests, which are at these places, as they are listed.
pub(crate) fn rows_at(
    alloc: Global,
    catalogue: &Catalogue,
    places: &[Row],
) -> Result<Vec<FilingRow>, StoreFault>
    ensures { (F : List Request) (filer : List ℕ) → view_lines catalogue.now ≡ catalogue_of F
        → places.now ≡ map by_first (filter (has_filer filer) (counted_from kept_row 1 (kept F)))
        → IfOk result (λ rows. map view_row rows.items ≡ listings filer None (register F)) }
{
    let mut rows = Vec::new(alloc);
    for place in places {
        if let Some(row) = row_at(catalogue, place_in(place)?) {
            rows.push(row)?;
        }
    }
    Ok(rows)
}
