//! The lines that show facts.

use gateway_server::fact_line;
use std::alloc::{AllocError, Global};
use std::test::Fail;
use xbrl_report::Fact;

/// The value, the decimals and the id of a fact, and the line that shows it.
type Shown = (
    Option<&'static str>,
    Option<i64>,
    &'static str,
    &'static str,
);

const DIMENSIONS: &str =
    "{\"concept\":\"eg:Assets\",\"entity\":\"lei:ACME\",\"period\":\"2024-12-31T00:00:00\",\"unit\":\"iso4217:EUR\"}";

static LINES: [Shown; 3] = [
    (
        Some("100"),
        Some(0),
        "f1",
        "{\"concept\":\"eg:Assets\",\"decimals\":0,\"dimensions\":{\"concept\":\"eg:Assets\",\"entity\":\"lei:ACME\",\"period\":\"2024-12-31T00:00:00\",\"unit\":\"iso4217:EUR\"},\"id\":\"f1\",\"value\":\"100\"}",
    ),
    (
        None,
        None,
        "",
        "{\"concept\":\"eg:Assets\",\"decimals\":null,\"dimensions\":{\"concept\":\"eg:Assets\",\"entity\":\"lei:ACME\",\"period\":\"2024-12-31T00:00:00\",\"unit\":\"iso4217:EUR\"},\"id\":\"\",\"value\":null}",
    ),
    (
        Some("\"\\\n\u{1}"),
        Some(-3),
        "a/b",
        "{\"concept\":\"eg:Assets\",\"decimals\":-3,\"dimensions\":{\"concept\":\"eg:Assets\",\"entity\":\"lei:ACME\",\"period\":\"2024-12-31T00:00:00\",\"unit\":\"iso4217:EUR\"},\"id\":\"a/b\",\"value\":\"\\\"\\\\\\n\\u0001\"}",
    ),
];

fn fact(
    alloc: Global,
    id: &str,
    value: Option<&str>,
    decimals: Option<i64>,
) -> Result<Fact, AllocError> {
    Ok(Fact {
        id: String::from_str(alloc, id)?,
        concept: String::from_str(alloc, "eg:Assets")?,
        dimensions: String::from_str(alloc, DIMENSIONS)?,
        value: match value {
            None => None,
            Some(value) => Some(String::from_str(alloc, value)?),
        },
        decimals,
    })
}

/// The line of a fact.
fn line(
    alloc: Global,
    id: &str,
    value: Option<&str>,
    decimals: Option<i64>,
) -> Result<String, AllocError> {
    fact_line(alloc, &fact(alloc, id, value, decimals)?)
}

#[test]
fn a_line_shows_a_fact(rt: HostRuntime) -> Result<(), Fail> {
    for &(value, decimals, id, expected) in &LINES {
        let line = line(rt.alloc(), id, value, decimals)?;
        assert_eq!(rt; line.as_str(), expected);
    }
    Ok(())
}
