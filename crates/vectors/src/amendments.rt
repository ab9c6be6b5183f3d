//! The vector of reports that replace filings.

use crate::connection::{FIRST, answered};
use crate::examples::{REPORT_OF_BETA, key_text};
use crate::history::{History, Part};
use example_texts::{KEY_REUSED, NO_PATH, NOT_REPLACEABLE, REGISTERED, REGISTERED_SECOND, REPORT};
use gateway_server::Mark;
use http_wire::append_request;
use std::alloc::{AllocError, Global};

/// The list of a filing and the one that replaces it: 88 bytes.
const BOTH: &str =
    "HTTP/1.1 200 OK\r\nContent-Type: application/json\r\nContent-Length: 88\r\n\r\n{\"filings\":[{\"facts\":1,\"number\":1,\"replaced_by\":2},{\"facts\":1,\"number\":2,\"replaces\":1}]}";

/// The report filed again to replace filing 1, under another key, and under a third.
const SECOND: Part<'static> = Part::Filing("ACME/1", "k-2", REPORT);

const THIRD: Part<'static> = Part::Filing("ACME/1", "k-3", REPORT);

/// Vector 26: a filing is replaced once, by a report of its own filer; what is no number of a filing is no path.
pub(crate) fn amended(alloc: Global) -> Result<bool, AllocError> {
    Ok(replaced_once(alloc)? && request_length(alloc)? == Some(539))
}

fn replaced_once(alloc: Global) -> Result<bool, AllocError> {
    let other = [Part::Filing("BETA/1", "k-1", REPORT_OF_BETA)];
    let connections = [
        answered(&[FIRST], &[REGISTERED], &[Mark::Done]),
        answered(&[SECOND], &[REGISTERED_SECOND], &[Mark::Done]),
        answered(
            &[Part::Text("GET /filings/ACME HTTP/1.1\r\nHost: localhost\r\n\r\n")],
            &[BOTH],
            &[Mark::NotFiled],
        ),
        answered(&[SECOND], &[REGISTERED_SECOND], &[Mark::Done]),
        answered(&[THIRD], &[NOT_REPLACEABLE], &[Mark::Done]),
        answered(&[THIRD], &[NOT_REPLACEABLE], &[Mark::Done]),
        answered(
            &[Part::Filing("ACME/2", "k-2", REPORT)],
            &[KEY_REUSED],
            &[Mark::Done],
        ),
        answered(&other, &[NOT_REPLACEABLE], &[Mark::Done]),
        answered(
            &[Part::Filing("ACME/0", "k-4", REPORT)],
            &[NO_PATH],
            &[Mark::NotFiled],
        ),
        answered(
            &[Part::Filing("ACME/01", "k-4", REPORT)],
            &[NO_PATH],
            &[Mark::NotFiled],
        ),
    ];
    History::of(&connections, 4, 2).holds(alloc)
}

/// How long the request is by which `ACME` files the report to replace filing 1.
fn request_length(alloc: Global) -> Result<Option<usize>, AllocError> {
    let Some(key) = key_text(alloc, "k-1")? else {
        return Ok(None);
    };
    let mut request = Vec::new(alloc);
    append_request("ACME", Some(1), &key, REPORT.as_bytes(), &mut request)?;
    Ok(Some(request.len()))
}
