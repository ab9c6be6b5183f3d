//! Connections to an intake, as bytes that are given and bytes that are written.

use crate::databases::Fresh;
use example_texts::{
    CONTINUE, Giving, HEAD_TOO_LARGE, MALFORMED, NO_FILINGS, NOT_JSON, REGISTERED, REPORT,
    SMALLEST, Text, bytes_of,
};
use examples::HEAD;
use gateway_server::{Ended, Served, serve};
use http_wire::{ConnFault, Device};
use intake_core::Intake;
use sqlite::{Alter, MemStore};
use std::alloc::Global;
use std::process::Abort;
use std::test::Fail;

mod cut;
mod examples;
mod facts;
mod failing;
mod files_in_use;
mod intake;
mod memory;
mod patience;
mod stopping;
mod waiting;

/// How many keys an intake keeps.
const LIMIT: u32 = 1_000_000;

/// How many bytes a read gives.
const PIECES: [usize; 5] = [1, 2, 3, 5, 4096];

/// Serves a connection of these bytes, so many a read.
fn served<S: Alter>(
    alloc: Global,
    intake: &mut Intake<S>,
    given: &[u8],
    most: usize,
    output: &mut Vec<u8>,
) -> Served {
    let reader = Giving {
        rest: given,
        most,
        fails: None,
    };
    serve(
        alloc,
        &mut Device::new(reader),
        &mut Device::new(output),
        intake,
    )
}

/// Whether a connection to a new intake writes these bytes and ends so, if a read gives so many of those that are
/// given.
fn goes<S: Fresh>(
    alloc: Global,
    given: &[u8],
    written: &[u8],
    ended: Ended,
    most: usize,
) -> Result<bool, Fail> {
    let mut intake = S::intake(alloc, LIMIT)?;
    let mut output = Vec::new(alloc);
    let served = served(alloc, &mut intake, given, most, &mut output);
    Ok(output.as_slice() == written && served.ended == ended)
}

/// What is given on a connection, what is written, and how it ends.
type Conversation = (Text, Text, Ended);

/// Asserts that a conversation goes as expected, in pieces of each of these lengths.
fn holds<S: Fresh>(
    rt: &impl Abort,
    alloc: Global,
    (given, written, ended): Conversation,
    pieces: &[usize],
) -> Result<(), Fail> {
    let given = bytes_of(alloc, given)?;
    let written = bytes_of(alloc, written)?;
    for &most in pieces {
        let so = goes::<S>(alloc, &given, &written, ended, most)?;
        assert!(rt; so, "{most} bytes a read");
    }
    Ok(())
}

/// Asserts that each conversation goes as expected.
fn hold<S: Fresh>(
    rt: &impl Abort,
    alloc: Global,
    conversations: &[Conversation],
    pieces: &[usize],
) -> Result<(), Fail> {
    for &conversation in conversations {
        holds::<S>(rt, alloc, conversation, pieces)?;
    }
    Ok(())
}

/// The head of the request within which is that of the report, 486 bytes.
const AROUND: &str =
    "POST /filings/ACME HTTP/1.1\r\nHost: localhost\r\nIdempotency-Key: \"k-2\"\r\nContent-Length: 486\r\n\r\n";

/// A report whose sender waits for an interim response.
const AWAITED: &str =
    "POST /filings/ACME HTTP/1.1\r\nHost: h\r\nIdempotency-Key: \"k-1\"\r\nExpect: 100-continue\r\nContent-Length: 5\r\n\r\nhello";

/// A block of 16,384 bytes is the longest, after an empty line that does not count, and one of 64 fields has the most.
/// A body has at most 1,048,576 bytes, 84 of which are the smallest report.
static CONVERSATIONS: [Conversation; 12] = [
    (
        &[
            (HEAD, 1),
            (REPORT, 1),
            (HEAD, 1),
            (REPORT, 1),
            ("\r\n\r\n", 1),
        ],
        &[(REGISTERED, 2), (MALFORMED, 1)],
        Ended::Closed,
    ),
    (
        &[(AROUND, 1), (HEAD, 1), (REPORT, 1), (HEAD, 1), (REPORT, 1)],
        &[(NOT_JSON, 1), (REGISTERED, 1)],
        Ended::InputEnded,
    ),
    (
        &[(AWAITED, 1)],
        &[(CONTINUE, 1), (NOT_JSON, 1)],
        Ended::InputEnded,
    ),
    (
        &[
            ("GET /filings/ACME HTTP/1.1\r\nHost: h\r\n", 1),
            ("X: y\r\n", 63),
            ("\r\n", 1),
        ],
        &[(NO_FILINGS, 1)],
        Ended::InputEnded,
    ),
    (
        &[
            ("GET /filings/ACME HTTP/1.1\r\nHost: h\r\n", 1),
            ("X: y\r\n", 64),
            ("\r\n", 1),
        ],
        &[(MALFORMED, 1)],
        Ended::Closed,
    ),
    (&[("a", 16_383)], &[], Ended::InputEnded),
    (&[(" ", 16_383)], &[], Ended::InputEnded),
    (&[("a", 16_384)], &[(HEAD_TOO_LARGE, 1)], Ended::Closed),
    (
        &[(LONG, 1), ("a", 16_332), ("\r\n\r\n", 1)],
        &[(NO_FILINGS, 1)],
        Ended::InputEnded,
    ),
    (
        &[("\r\n", 1), (LONG, 1), ("a", 16_332), ("\r\n\r\n", 1)],
        &[(NO_FILINGS, 1)],
        Ended::InputEnded,
    ),
    (
        &[(LONG, 1), ("a", 16_333), ("\r\n\r\n", 1)],
        &[(HEAD_TOO_LARGE, 1)],
        Ended::Closed,
    ),
    (
        &[(LONGEST, 1), (SMALLEST, 1), (" ", 1_048_492)],
        &[(REGISTERED, 1)],
        Ended::InputEnded,
    ),
];

/// A request that lists, up to the value of its last field, 48 bytes.
const LONG: &str = "GET /filings/ACME HTTP/1.1\r\nHost: localhost\r\nX: ";

/// The head of a request whose body is the longest, 97 bytes.
const LONGEST: &str =
    "POST /filings/ACME HTTP/1.1\r\nHost: localhost\r\nIdempotency-Key: \"k-1\"\r\nContent-Length: 1048576\r\n\r\n";

#[test]
fn however_the_bytes_come(rt: HostRuntime) -> Result<(), Fail> {
    hold::<MemStore>(&rt, rt.alloc(), &CONVERSATIONS, &PIECES)
}

/// The last of four requests lacks 388 bytes when 4,194,304 reads gave one byte each.
const MOST_READS: Conversation = (
    &[
        (LONGEST, 1),
        (SMALLEST, 1),
        (" ", 1_048_492),
        (LONGEST, 1),
        (SMALLEST, 1),
        (" ", 1_048_492),
        (LONGEST, 1),
        (SMALLEST, 1),
        (" ", 1_048_492),
        (LONGEST, 1),
        (SMALLEST, 1),
        (" ", 1_048_492),
    ],
    &[(REGISTERED, 3)],
    Ended::Fault(ConnFault::ReadLimit),
);

#[test]
fn the_limit_of_reads(rt: HostRuntime) -> Result<(), Fail> {
    holds::<MemStore>(&rt, rt.alloc(), MOST_READS, &[1])
}
