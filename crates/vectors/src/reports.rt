//! Vectors of reports and of the texts in them.

use crate::connection::is_refused_with;
use crate::examples::report;
use std::alloc::{AllocError, Global};
use xbrl_report::{Code, Finding, Judged, Period, judge, read_period, read_unit};

/// Whether a body has these findings, in this order: places and words.
fn has_findings(alloc: Global, body: &str, findings: &[(&str, &str)]) -> Result<bool, AllocError> {
    match judge(alloc, "ACME", body.as_bytes())? {
        Judged::Valid(_) => Ok(false),
        Judged::Refused(found) => Ok(are_so(found.list(), findings)),
    }
}

fn are_so(found: &[Finding], findings: &[(&str, &str)]) -> bool {
    if found.len() != findings.len() {
        return false;
    }
    for (finding, (place, word)) in found.iter().zip(findings) {
        if finding.place.as_str() != *place || finding.code.text() != *word {
            return false;
        }
    }
    true
}

/// Vector 18: all findings of a report, in order.
pub(crate) fn all_findings(alloc: Global) -> Result<bool, AllocError> {
    has_findings(
        alloc,
        "{\"documentInfo\":{\"documentType\":\"x\"},\"facts\":{\"f1\":7,\"f2\":{\"value\":1,\"decimals\":\"0\",\"dimensions\":{\"entity\":\"lei:BETA\",\"size\":\"s\"}}}}",
        &[
            ("/documentInfo/documentType", "document-type"),
            ("/documentInfo/taxonomy", "taxonomy"),
            ("/facts/f1", "fact"),
            ("/facts/f2/decimals", "decimals"),
            ("/facts/f2/dimensions/concept", "concept-missing"),
            ("/facts/f2/dimensions/entity", "unbound-prefix"),
            ("/facts/f2/dimensions/entity", "not-the-filer"),
            ("/facts/f2/dimensions/size", "unknown-dimension"),
            ("/facts/f2/value", "value"),
        ],
    )
}

/// Vector 19: a body that is no object, and as many findings as a reply has at most.
pub(crate) fn many_findings(alloc: Global) -> Result<bool, AllocError> {
    let too_many = with_facts(alloc, 1001)?;
    Ok(
        has_findings(alloc, "[]", &[("", "not-object")])?
            && has_findings(alloc, &too_many, &[("", "too-many")])?
            && are_facts(alloc, 1000)?
            && is_refused_with(
                alloc,
                "[]",
                "HTTP/1.1 422 Unprocessable Content\r\nContent-Type: application/problem+json\r\nContent-Length: 132\r\n\r\n{\"findings\":[{\"code\":\"not-object\",\"place\":\"\"}],\"reason\":\"refused\",\"status\":422,\"title\":\"Unprocessable Content\",\"type\":\"about:blank\"}",
            )?
            && is_refused_with(
                alloc,
                &too_many,
                "HTTP/1.1 422 Unprocessable Content\r\nContent-Type: application/problem+json\r\nContent-Length: 130\r\n\r\n{\"findings\":[{\"code\":\"too-many\",\"place\":\"\"}],\"reason\":\"refused\",\"status\":422,\"title\":\"Unprocessable Content\",\"type\":\"about:blank\"}",
            )?,
    )
}

/// The smallest report with so many facts that are numbers, under `0`, `1` and so on.
fn with_facts(alloc: Global, count: u32) -> Result<String, AllocError> {
    let mut body = String::from_str(
        alloc,
        "{\"documentInfo\":{\"documentType\":\"https://xbrl.org/2021/xbrl-json\",\"taxonomy\":[\"t\"]},\"facts\":{\"0\":1",
    )?;
    for fact in 1..count {
        body.push_str(format!(in alloc; ",\"{fact}\":1")?.as_str())?;
    }
    body.push_str("}}")?;
    Ok(body)
}

/// Whether each of this many facts is found to be no fact.
fn are_facts(alloc: Global, count: u32) -> Result<bool, AllocError> {
    let body = with_facts(alloc, count)?;
    match judge(alloc, "ACME", body.as_bytes())? {
        Judged::Valid(_) => Ok(false),
        Judged::Refused(found) => Ok(
            found.list().len() == count as usize
                && found
                    .list()
                    .iter()
                    .all(|finding| finding.code == Code::Fact),
        ),
    }
}

/// Vector 20: units and periods.
pub(crate) fn units_and_periods(alloc: Global) -> Result<bool, AllocError> {
    Ok(units(alloc)? && periods() && equal_ends(alloc)?)
}

fn units(alloc: Global) -> Result<bool, AllocError> {
    for (text, is_unit) in [
        ("a:x", true),
        ("a:x*b:y", true),
        ("(a:x)", true),
        ("(a:x*b:y)/c:z", true),
        ("a:x*b:y/c:z", false),
        ("a:x/b:y/c:z", false),
        ("a", false),
        ("", false),
    ] {
        if read_unit(alloc, text)?.is_some() != is_unit {
            return Ok(false);
        }
    }
    Ok(true)
}

fn periods() -> bool {
    matches!(read_period("2024-02-29T23:59:59"), Some(Period::At(_)))
        && matches!(
            read_period("2024-01-01T00:00:00/2024-01-01T00:00:00"),
            Some(Period::Span(_, _))
        )
        && read_period("2024-01-01").is_none()
        && read_period("2024-01-01T24:00:00").is_none()
}

/// A span whose ends are equal is read, and refused in a report.
fn equal_ends(alloc: Global) -> Result<bool, AllocError> {
    let body = report(
        alloc,
        "f1",
        "100",
        "lei:ACME",
        "2024-01-01T00:00:00/2024-01-01T00:00:00",
        "iso4217:EUR",
    )?;
    has_findings(
        alloc,
        &body,
        &[("/facts/f1/dimensions/period", "period-order")],
    )
}
