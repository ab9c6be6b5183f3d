//! The line that shows a fact.

ghost use Rattle.std.specs.Prelude.{◌≡◌, option_map, string_bytes, IfOk};
ghost use Rattle.serde_json.specs.Data.{string, null};
ghost use Rattle.serde_json.specs.Written.{compact_text};
ghost use Rattle.intake_core.specs.FactLine.{value_data, decimals_data, line_of, fact_line};

use serde_json::json;
use std::alloc::{AllocError, Global};
use xbrl_report::Fact;

/// The line that shows a fact (own rule): compact JSON with the names `concept`, `decimals`, `dimensions`, `id`
/// and `value`, in this order. Absent decimals and a nil value are null; the dimensions are the object that their
/// text is.
#[tactic(auto, unfolding(crate::specs::FactLine::fact_line))]
pub fn fact_line(alloc: Global, fact: &Fact) -> Result<String, AllocError>
    ensures { IfOk result (λ line. string_bytes line ≡ fact_line fact.now) }
{
    let concept = text(alloc, fact.concept.as_str())?;
    let decimals = decimals(alloc, fact.decimals)?;
    let id = text(alloc, fact.id.as_str())?;
    let value = value(alloc, &fact.value)?;
    line(alloc, &concept, &decimals, &fact.dimensions, &id, &value)
}

/// The line of these JSON texts.
fn line(
    alloc: Global,
    concept: &str,
    decimals: &str,
    dimensions: &str,
    id: &str,
    value: &str,
) -> Result<String, AllocError>
    ensures { IfOk result (λ line.
        string_bytes line ≡ line_of concept.now decimals.now dimensions.now id.now value.now) }
{
    let mut line = String::from_str(alloc, "{\"concept\":")?;
    line.push_str(concept)?;
    line.push_str(",\"decimals\":")?;
    line.push_str(decimals)?;
    line.push_str(",\"dimensions\":")?;
    line.push_str(dimensions)?;
    line.push_str(",\"id\":")?;
    line.push_str(id)?;
    line.push_str(",\"value\":")?;
    line.push_str(value)?;
    line.push_str("}")?;
    Ok(line)
}

/// A text as JSON.
fn text(alloc: Global, text: &str) -> Result<String, AllocError>
    ensures { IfOk result (λ written. string_bytes written ≡ compact_text (string text.now)) }
{
    json!(in alloc; text)?.to_string(alloc)
}

/// A value as JSON, null where there is none.
fn value(alloc: Global, value: &Option<String>) -> Result<String, AllocError>
    ensures { IfOk result (λ written.
        string_bytes written ≡ compact_text (value_data (option_map (λ s. string_bytes s) value.now))) }
{
    match value {
        None => null(alloc),
        Some(value) => text(alloc, value.as_str()),
    }
}

/// Decimals as JSON, null where there are none.
fn decimals(alloc: Global, decimals: Option<i64>) -> Result<String, AllocError>
    ensures { IfOk result (λ written. string_bytes written ≡ compact_text (decimals_data decimals)) }
{
    match decimals {
        None => null(alloc),
        Some(decimals) => json!(in alloc; decimals)?.to_string(alloc),
    }
}

/// Nothing as JSON.
fn null(alloc: Global) -> Result<String, AllocError>
    ensures { IfOk result (λ written. string_bytes written ≡ compact_text null) }
{
    String::from_str(alloc, "null")
}
