//! The facts of a report, whose dimensions are a text with the names in byte order.

use std::alloc::{AllocError, Global};
use xbrl_report::{Fact, Judged, judge};

/// A report of two facts: one with each part, and behind it in the order of their identifiers one without entity,
/// value and decimals, whose name is escaped.
const REPORT: &str = concat!(
    r#"{"documentInfo":{"documentType":"https://xbrl.org/2021/xbrl-json","#,
    r#""namespaces":{"eg":"e","lei":"l","iso4217":"i"},"taxonomy":["t"]},"facts":{"#,
    r#""g":{"dimensions":{"noteId":"n", "concept":"eg:\u0061"},"value":null},"#,
    r#""f":{"value":"100","decimals":0,"dimensions":{"concept":"eg:Assets","entity":"lei:ACME","#,
    r#""period":"2024-12-31T00:00:00","unit":"iso4217:EUR"}}}}"#
);

const LINES: &str = concat!(
    r#"f eg:Assets {"concept":"eg:Assets","entity":"lei:ACME","#,
    r#""period":"2024-12-31T00:00:00","unit":"iso4217:EUR"} 100 0;"#,
    r#"g eg:a {"concept":"eg:a","noteId":"n"} - -;"#
);

/// A fact as one line, with `-` for each part that it lacks.
fn line_of(alloc: Global, fact: &Fact) -> Result<String, AllocError> {
    let id = fact.id.as_str();
    let concept = fact.concept.as_str();
    let dimensions = fact.dimensions.as_str();
    let value = fact.value.as_deref().unwrap_or("-");
    let decimals = decimals_of(alloc, fact)?;
    format!(in alloc; "{id} {concept} {dimensions} {value} {decimals};")
}

fn decimals_of(alloc: Global, fact: &Fact) -> Result<String, AllocError> {
    match fact.decimals {
        None => String::from_str(alloc, "-"),
        Some(decimals) => format!(in alloc; "{decimals}"),
    }
}

/// The facts of a body of ACME, each as one line.
fn facts_of(alloc: Global, body: &str) -> Result<String, AllocError> {
    match judge(alloc, "ACME", body.as_bytes())? {
        Judged::Valid(report) => lines_of(alloc, report.facts()),
        Judged::Refused(_findings) => Ok(String::new(alloc)),
    }
}

fn lines_of(alloc: Global, facts: &[Fact]) -> Result<String, AllocError> {
    let mut text = String::new(alloc);
    for fact in facts {
        text.push_str(&line_of(alloc, fact)?)?;
    }
    Ok(text)
}

#[test]
fn facts_of_a_report(rt: HostRuntime) {
    assert_eq!(rt; facts_of(rt.alloc(), REPORT).as_deref(), Ok(LINES));
}
