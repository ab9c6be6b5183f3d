//! How a kept row reads as a completed request, and as a filing.

ghost use Rattle.std.specs.Prelude.{◌≡◌, List, map, option_map, IfOk};
ghost use Rattle.filing_model.specs.Register.{Kept, filings};
ghost use Rattle.sqlite.specs.Order.{column};
ghost use Rattle.table_rows.specs.Rows.{counted_from};
ghost use Rattle.register_rows.specs.Register.{kept_row, amends_rows, joined_from};
ghost use Rattle.register_rows.specs.Columns.{request_in, number_in};

use filing_model::{Completed, Registered};
use register_rows::columns::kept;
use register_rows::target_of;
use sqlite::Row;
use std::alloc::Global;
use table_rows::StoreFault;

/// The request of a row with the columns `seq`, `filer`, `idem`, `body` and `number`. It is to replace this filing, if
/// any.
fn read_request(row: &Row, target: Option<u64>) -> Result<Completed, StoreFault>
    ensures { IfOk result (λ r. r ≡ request_in target row.now) }
{
    let filer = row.get(kept::FILER)?;
    let key = row.get(kept::KEY)?;
    let body = row.get(kept::BODY)?;
    Ok(Completed {
        filer,
        key,
        target,
        body,
    })
}

/// The filing that such a row is, if it has a number.
fn read_filing(row: &Row, replaces: Option<u64>) -> Result<Option<Registered>, StoreFault>
    ensures { IfOk result (λ f.
        f ≡ option_map (λ n. record { number = n; request = request_in replaces row.now })
        (number_in (column row.now 4))) }
{
    let number: Option<u64> = row.get(kept::NUMBER)?;
    let Some(number) = number else {
        return Ok(None);
    };
    let Completed {
        filer,
        key,
        target: _,
        body,
    } = read_request(row, replaces)?;
    Ok(Some(Registered {
        number,
        replaces,
        filer,
        key,
        body,
    }))
}

/// The requests of such rows, with the rows of `amends`, both in the order of the places, which are from 1 on.
pub(crate) fn read_requests(
    alloc: Global,
    rows: &[Row],
    amends: &[Row],
) -> Result<Vec<Completed>, StoreFault>
    ensures { (ks : List Kept) → rows.now ≡ counted_from kept_row 1 ks → amends.now ≡ joined_from amends_rows 1 ks
        → IfOk result (λ list. list.items ≡ map (λ k. k.request) ks) }
{
    let mut list = Vec::new(alloc);
    let mut rest = amends;
    for at in 0..rows.len() {
        let (target, behind) = target_of(rest, at as u64 + 1);
        rest = behind;
        list.push(read_request(&rows[at], target)?)?;
    }
    Ok(list)
}

/// The filings among the requests of such rows.
pub(crate) fn read_filings(
    alloc: Global,
    rows: &[Row],
    amends: &[Row],
) -> Result<Vec<Registered>, StoreFault>
    ensures { (ks : List Kept) → rows.now ≡ counted_from kept_row 1 ks → amends.now ≡ joined_from amends_rows 1 ks
        → IfOk result (λ list. list.items ≡ filings ks) }
{
    let mut list = Vec::new(alloc);
    let mut rest = amends;
    for at in 0..rows.len() {
        let (target, behind) = target_of(rest, at as u64 + 1);
        rest = behind;
        if let Some(filing) = read_filing(&rows[at], target)? {
            list.push(filing)?;
        }
    }
    Ok(list)
}
