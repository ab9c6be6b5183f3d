//! How rows read as the facts of a filing.

ghost use Rattle.std.specs.Prelude.{◌≡◌, map, option_map, string_bytes, IfOk};
ghost use Rattle.sqlite.specs.Order.{column};
ghost use Rattle.register_rows.specs.Columns.{bytes_in, maybe_bytes_in, fact_in};

use crate::columns::fact;
use sqlite::Row;
use std::alloc::Global;
use table_rows::StoreFault;
use xbrl_report::Fact;

/// The text that bytes are.
fn text_of(bytes: Vec<u8>) -> Result<String, StoreFault>
    ensures { IfOk result (λ text. string_bytes text ≡ bytes.items) }
{
    String::from_utf8(bytes).map_err(|_| StoreFault::Store)
}

/// The text of a column of bytes.
pub(crate) fn read_text(row: &Row, at: usize) -> Result<String, StoreFault>
    ensures { IfOk result (λ text. string_bytes text ≡ bytes_in (column row.now at)) }
{
    text_of(row.get(at)?)
}

/// The text of a column of bytes that may be absent.
fn read_optional_text(row: &Row, at: usize) -> Result<Option<String>, StoreFault>
    ensures { IfOk result (λ text. option_map (λ s. string_bytes s) text ≡ maybe_bytes_in (column row.now at)) }
{
    let bytes: Option<Vec<u8>> = row.get(at)?;
    match bytes {
        Some(bytes) => Ok(Some(text_of(bytes)?)),
        None => Ok(None),
    }
}

/// The fact of a row with the columns `id`, `concept`, `dimensions`, `value` and `decimals`.
fn read_fact(row: &Row) -> Result<Fact, StoreFault>
    ensures { IfOk result (λ fact. fact ≡ fact_in row.now) }
{
    let id = read_text(row, fact::ID)?;
    let concept = read_text(row, fact::CONCEPT)?;
    let dimensions = read_text(row, fact::DIMENSIONS)?;
    let value = read_optional_text(row, fact::VALUE)?;
    let decimals = row.get(fact::DECIMALS)?;
    Ok(Fact {
        id,
        concept,
        dimensions,
        value,
        decimals,
    })
}

/// The facts of such rows.
pub(crate) fn read_facts(alloc: Global, rows: &[Row]) -> Result<Vec<Fact>, StoreFault>
    ensures { IfOk result (λ list. list.items ≡ map fact_in rows.now) }
{
    let mut list = Vec::new(alloc);
    for row in rows {
        list.push(read_fact(row)?)?;
    }
    Ok(list)
}
