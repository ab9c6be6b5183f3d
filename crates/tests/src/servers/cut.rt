//! Requests, whole and cut off.

use super::examples::{HEAD, LIST};
use super::{Conversation, LIMIT, PIECES, hold, served};
use crate::databases::Fresh;
use example_texts::{
    CODING, CONTENT_CODING, KEY_BAD, KEY_MISSING, MALFORMED, NO_FILINGS, NO_METHOD,
    NO_METHOD_OF_HEAD, NO_PATH, REGISTERED, REGISTERED_CLOSED, REPORT, SMALLEST, TOO_LARGE,
    bytes_of, front,
};
use gateway_server::Ended;
use intake_core::Intake;
use sqlite::{Alter, MemStore};
use std::alloc::Global;
use std::process::Abort;
use std::test::Fail;

/// One request each, with its body if its head is not refused, and the reply to it.
static EXAMPLES: [Conversation; 21] = [
    (
        &[(HEAD, 1), (REPORT, 1)],
        &[(REGISTERED, 1)],
        Ended::InputEnded,
    ),
    (
        &[
            (
                "POST /filings/ACME HTTP/1.1\r\nHost: h\r\nIdempotency-Key: \"k-1\"\r\nContent-Length: 84, 084\r\n\r\n",
                1,
            ),
            (SMALLEST, 1),
        ],
        &[(REGISTERED, 1)],
        Ended::InputEnded,
    ),
    (
        &[
            (
                "POST /filings/ACME HTTP/1.1\r\nHost: h\r\nIdempotency-Key: \"k-1\"\r\nContent-Length: 84\r\nContent-Length: 84\r\n\r\n",
                1,
            ),
            (SMALLEST, 1),
        ],
        &[(REGISTERED, 1)],
        Ended::InputEnded,
    ),
    (
        &[(
            "POST /filings/ACME HTTP/1.1\r\nHost: h\r\nIdempotency-Key: \"k-1\"\r\nContent-Length: 84, 85\r\n\r\n",
            1,
        )],
        &[(MALFORMED, 1)],
        Ended::Closed,
    ),
    (
        &[(
            "POST /filings/ACME HTTP/1.1\r\nHost: h\r\nIdempotency-Key: \"k-1\"\r\nContent-Length: 84,\r\n\r\n",
            1,
        )],
        &[(MALFORMED, 1)],
        Ended::Closed,
    ),
    (
        &[(
            "POST /filings/ACME HTTP/1.1\r\nHost: h\r\nIdempotency-Key: \"k-1\"\r\nContent-Length: +84\r\n\r\n",
            1,
        )],
        &[(MALFORMED, 1)],
        Ended::Closed,
    ),
    (
        &[(
            "POST /filings/ACME HTTP/1.1\r\nHost: h\r\nIdempotency-Key: \"k-1\"\r\nContent-Length: 84\r\nContent-Length: 85\r\n\r\n",
            1,
        )],
        &[(MALFORMED, 1)],
        Ended::Closed,
    ),
    (
        &[
            (
                "POST http://localhost/filings/ACME HTTP/1.1\r\nHost: h\r\nIdempotency-Key: \"k-1\"\r\nContent-Length: 393\r\n\r\n",
                1,
            ),
            (REPORT, 1),
        ],
        &[(REGISTERED, 1)],
        Ended::InputEnded,
    ),
    (
        &[
            (
                "POST /filings/ACME HTTP/1.0\r\nX: y\r\nIdempotency-Key: \"k-1\"\r\nContent-Length: 393\r\n\r\n",
                1,
            ),
            (REPORT, 1),
        ],
        &[(REGISTERED_CLOSED, 1)],
        Ended::Closed,
    ),
    (
        &[(
            "POST /filings/ACME HTTP/1.1\r\nX: y\r\nIdempotency-Key: \"k-1\"\r\nContent-Length: 393\r\n\r\n",
            1,
        )],
        &[(MALFORMED, 1)],
        Ended::Closed,
    ),
    (
        &[(
            "POST /filings/ACME HTTP/1.1\r\nHost: h\r\nHost: h\r\nIdempotency-Key: \"k-1\"\r\nContent-Length: 393\r\n\r\n",
            1,
        )],
        &[(MALFORMED, 1)],
        Ended::Closed,
    ),
    (
        &[
            (
                "POST /filings/ACME HTTP/1.1\r\nHost: h\r\nContent-Encoding: gzip\r\nIdempotency-Key: \"k-1\"\r\nContent-Length: 393\r\n\r\n",
                1,
            ),
            (REPORT, 1),
        ],
        &[(CONTENT_CODING, 1)],
        Ended::InputEnded,
    ),
    (&[(LIST, 1)], &[(NO_FILINGS, 1)], Ended::InputEnded),
    (
        &[("GET /filings/ACME HTTP/1.0\r\n\r\n", 1)],
        &[(
            "HTTP/1.1 200 OK\r\nContent-Type: application/json\r\nContent-Length: 14\r\nConnection: close\r\n\r\n{\"filings\":[]}",
            1,
        )],
        Ended::Closed,
    ),
    (
        &[("GET /other HTTP/1.1\r\nHost: h\r\n\r\n", 1)],
        &[(NO_PATH, 1)],
        Ended::InputEnded,
    ),
    (
        &[("PUT /filings/ACME HTTP/1.1\r\nHost: h\r\n\r\n", 1)],
        &[(NO_METHOD, 1)],
        Ended::InputEnded,
    ),
    (
        &[("HEAD /filings/ACME HTTP/1.1\r\nHost: h\r\n\r\n", 1)],
        &[(NO_METHOD_OF_HEAD, 1)],
        Ended::InputEnded,
    ),
    (
        &[(
            "POST / HTTP/1.1\r\nHost: h\r\nTransfer-Encoding: chunked\r\nContent-Length: x\r\n\r\n",
            1,
        )],
        &[(CODING, 1)],
        Ended::Closed,
    ),
    (
        &[(
            "POST / HTTP/1.1\r\nHost: h\r\nExpect: 100-continue\r\nContent-Length: 1048577\r\n\r\n",
            1,
        )],
        &[(TOO_LARGE, 1)],
        Ended::Closed,
    ),
    (
        &[(
            "POST /filings/ACME HTTP/1.1\r\nHost: h\r\nContent-Length: 5\r\n\r\nhello",
            1,
        )],
        &[(KEY_MISSING, 1)],
        Ended::InputEnded,
    ),
    (
        &[(
            "POST /filings/ACME HTTP/1.1\r\nHost: h\r\nIdempotency-Key: k-1\r\nContent-Length: 5\r\n\r\nhello",
            1,
        )],
        &[(KEY_BAD, 1)],
        Ended::InputEnded,
    ),
];

/// Whether nothing is written for these bytes, and nothing marked.
fn is_unanswered<S: Alter>(alloc: Global, intake: &mut Intake<S>, given: &[u8]) -> bool {
    let mut output = Vec::new(alloc);
    let served = served(alloc, intake, given, 4096, &mut output);
    output.is_empty() && served.marks.is_empty() && served.ended == Ended::InputEnded
}

/// Whether this reply is written for a request.
fn is_answered<S: Alter>(
    alloc: Global,
    intake: &mut Intake<S>,
    given: &[u8],
    written: &[u8],
) -> bool {
    let mut output = Vec::new(alloc);
    let _ = served(alloc, intake, given, 4096, &mut output);
    output.as_slice() == written
}

/// Whether a request that is cut off after so many bytes is nothing to a new intake, which answers the whole request
/// then.
fn is_nothing<S: Fresh>(
    alloc: Global,
    given: &[u8],
    written: &[u8],
    cut: usize,
) -> Result<bool, Fail> {
    let mut intake = S::intake(alloc, LIMIT)?;
    Ok(
        is_unanswered(alloc, &mut intake, front(given, cut))
            && is_answered(alloc, &mut intake, given, written),
    )
}

/// Asserts that each front of a request is nothing to a new intake.
fn fronts_are_nothing<S: Fresh>(
    rt: &impl Abort,
    alloc: Global,
    (given, written, _): Conversation,
) -> Result<(), Fail> {
    let given = bytes_of(alloc, given)?;
    let written = bytes_of(alloc, written)?;
    for cut in 0..given.len() {
        assert!(rt; is_nothing::<S>(alloc, &given, &written, cut)?, "at {cut}");
    }
    Ok(())
}

/// Asserts that each front of each example is nothing to a new intake.
fn are_nothing<S: Fresh>(
    rt: &impl Abort,
    alloc: Global,
    examples: &[Conversation],
) -> Result<(), Fail> {
    for &example in examples {
        fronts_are_nothing::<S>(rt, alloc, example)?;
    }
    Ok(())
}

#[test]
fn requests_whole(rt: HostRuntime) -> Result<(), Fail> {
    hold::<MemStore>(&rt, rt.alloc(), &EXAMPLES, &PIECES)
}

#[test]
fn requests_cut_off(rt: HostRuntime) -> Result<(), Fail> {
    are_nothing::<MemStore>(&rt, rt.alloc(), &EXAMPLES)
}
