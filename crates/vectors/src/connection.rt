//! Vectors of connections to an intake.

use crate::examples::{LENGTH, REPORT_OF_BETA, REQUEST, repeated, report};
use crate::history::{Connection, History, Part};
use crate::refusal::answer;
use example_texts::{
    CODING, CONTENT_CODING, CONTINUE, HEAD_TOO_LARGE, KEY_BAD, KEY_MISSING, KEY_REUSED, MALFORMED,
    NO_FILINGS, NO_METHOD, NO_METHOD_OF_HEAD, NO_PATH, NOT_JSON, ONE_FILING, REGISTERED,
    REGISTERED_CLOSED, REGISTERED_SECOND, REPORT, SMALLEST, TOO_LARGE, UNAVAILABLE,
};
use gateway_server::{Ended, Mark, fact_line};
use register_store::{Store, StoreFault};
use sqlite::Alter;
use std::alloc::{AllocError, Global};
use xbrl_report::Fact;

/// A connection whose input ends after its requests are answered.
pub(crate) fn answered<'a>(
    given: &'a [Part<'a>],
    written: &'a [&'a str],
    marks: &'a [Mark],
) -> Connection<'a> {
    Connection {
        given,
        written,
        marks,
        ended: Ended::InputEnded,
    }
}

/// A connection that closes after the last reply.
fn closed<'a>(given: &'a [Part<'a>], written: &'a [&'a str], marks: &'a [Mark]) -> Connection<'a> {
    Connection {
        given,
        written,
        marks,
        ended: Ended::Closed,
    }
}

/// The example request.
pub(crate) const FIRST: Part<'static> = Part::Text(REQUEST);

/// Vector 1: a valid report is registered, listed, and shown by its facts.
pub(crate) fn registered(alloc: Global, limit: u32) -> Result<bool, AllocError> {
    let connections = [
        answered(&[FIRST], &[REGISTERED], &[Mark::Done]),
        answered(
            &[Part::Text("GET /filings/ACME HTTP/1.1\r\nHost: localhost\r\n\r\n")],
            &[ONE_FILING],
            &[Mark::NotFiled],
        ),
    ];
    let history = History {
        limit,
        ..History::of(&connections, 1, 1)
    };
    match history.run(alloc)? {
        Some(mut store) => Ok(history.leaves(&store)? && has_fact(alloc, &mut store)?),
        None => Ok(false),
    }
}

/// Whether the fact of the example, and no other, is that of the first filing.
fn has_fact<S: Alter>(alloc: Global, store: &mut Store<S>) -> Result<bool, AllocError> {
    match first_facts(store)? {
        None => Ok(false),
        Some(facts) => match facts.as_slice() {
            [fact] => Ok(
                fact_line(alloc, fact)?.as_str()
                    == "{\"concept\":\"eg:Assets\",\"decimals\":0,\"dimensions\":{\"concept\":\"eg:Assets\",\"entity\":\"lei:ACME\",\"period\":\"2024-12-31T00:00:00\",\"unit\":\"iso4217:EUR\"},\"id\":\"f1\",\"value\":\"100\"}",
            ),
            _ => Ok(false),
        },
    }
}

/// The facts of the first filing.
fn first_facts<S: Alter>(store: &mut Store<S>) -> Result<Option<Vec<Fact>>, AllocError> {
    Ok(answer(store.facts(1), StoreFault::Memory)?.unwrap_or(None))
}

/// Vector 2: repeats get the first reply, and add nothing.
pub(crate) fn repeated_request(alloc: Global) -> Result<bool, AllocError> {
    History::of(
        &[answered(&[FIRST; 3], &[REGISTERED; 3], &[Mark::Done; 3])],
        1,
        1,
    )
    .holds(alloc)
}

/// Vector 3: another body under a used key.
pub(crate) fn key_reused(alloc: Global) -> Result<bool, AllocError> {
    let longer = format!(in alloc; "{REPORT} ")?;
    let given = [FIRST, Part::Filing("ACME", "k-1", &longer)];
    let told = answered(&given, &[REGISTERED, KEY_REUSED], &[Mark::Done; 2]);
    History::of(&[told], 1, 1).holds(alloc)
}

/// Vector 4: the same key of two filers.
pub(crate) fn two_filers(alloc: Global) -> Result<bool, AllocError> {
    let given = [FIRST, Part::Filing("BETA", "k-1", REPORT_OF_BETA)];
    let told = answered(&given, &[REGISTERED, REGISTERED_SECOND], &[Mark::Done; 2]);
    History::of(&[told], 2, 2).holds(alloc)
}

/// The reply to an impossible date and a prefix that is not bound.
const TWO_FINDINGS: &str =
    "HTTP/1.1 422 Unprocessable Content\r\nContent-Type: application/problem+json\r\nContent-Length: 217\r\n\r\n{\"findings\":[{\"code\":\"period\",\"place\":\"/facts/f1/dimensions/period\"},{\"code\":\"unbound-prefix\",\"place\":\"/facts/f1/dimensions/unit\"}],\"reason\":\"refused\",\"status\":422,\"title\":\"Unprocessable Content\",\"type\":\"about:blank\"}";

/// Vector 5: a refused report is kept with its findings, and takes no number.
pub(crate) fn refused(alloc: Global) -> Result<bool, AllocError> {
    let body = report(
        alloc,
        "f1",
        "100",
        "lei:ACME",
        "2023-02-29T00:00:00",
        "usd:EUR",
    )?;
    let refused = Part::Filing("ACME", "k-1", &body);
    let given = [refused, refused, FIRST, Part::Filing("ACME", "k-2", REPORT)];
    let told = answered(
        &given,
        &[TWO_FINDINGS, TWO_FINDINGS, KEY_REUSED, REGISTERED],
        &[Mark::Done; 4],
    );
    History::of(&[told], 2, 1).holds(alloc)
}

/// The reply to a value that is no number, in a fact whose name is escaped.
const NO_NUMBER: &str =
    "HTTP/1.1 422 Unprocessable Content\r\nContent-Type: application/problem+json\r\nContent-Length: 148\r\n\r\n{\"findings\":[{\"code\":\"number\",\"place\":\"/facts/a~1b~0c/value\"}],\"reason\":\"refused\",\"status\":422,\"title\":\"Unprocessable Content\",\"type\":\"about:blank\"}";

/// Vector 6: the place of a finding is a JSON Pointer.
pub(crate) fn escaped_place(alloc: Global) -> Result<bool, AllocError> {
    let body = report(
        alloc,
        "a/b~c",
        "1,5",
        "lei:ACME",
        "2024-12-31T00:00:00",
        "iso4217:EUR",
    )?;
    let given = [Part::Filing("ACME", "k-1", &body)];
    History::of(&[answered(&given, &[NO_NUMBER], &[Mark::Done])], 1, 0).holds(alloc)
}

/// Vector 7: an empty body is kept; a POST without a length is not.
pub(crate) fn empty_body(alloc: Global) -> Result<bool, AllocError> {
    let kept = answered(
        &[Part::Filing("ACME", "k-1", ""), FIRST],
        &[NOT_JSON, KEY_REUSED],
        &[Mark::Done; 2],
    );
    let no_length = closed(
        &[Part::Text(
            "POST /filings/ACME HTTP/1.1\r\nHost: localhost\r\nIdempotency-Key: \"k-1\"\r\n\r\n",
        )],
        &[
            "HTTP/1.1 411 Length Required\r\nContent-Type: application/problem+json\r\nContent-Length: 87\r\nConnection: close\r\n\r\n{\"reason\":\"length-missing\",\"status\":411,\"title\":\"Length Required\",\"type\":\"about:blank\"}",
        ],
        &[Mark::NotFiled],
    );
    Ok(History::of(&[kept], 1, 0).holds(alloc)? && History::of(&[no_length], 0, 0).holds(alloc)?)
}

/// Vector 9: the values of `Content-Length`.
pub(crate) fn content_lengths(alloc: Global) -> Result<bool, AllocError> {
    if !is_length(alloc, "Content-Length: 84, 084")? {
        return Ok(false);
    }
    for lines in [
        "Content-Length: 84, 85",
        "Content-Length: 84,",
        "Content-Length: +84",
        "Content-Length: 84\r\nContent-Length: 85",
    ] {
        if !is_no_length(alloc, lines)? {
            return Ok(false);
        }
    }
    Ok(true)
}

/// The head of the request that files the smallest report, up to its length.
const UNDECLARED: Part<'static> = Part::Text(
    "POST /filings/ACME HTTP/1.1\r\nHost: localhost\r\nIdempotency-Key: \"k-1\"\r\n",
);

/// The end of a head.
const END: Part<'static> = Part::Text("\r\n\r\n");

fn is_length(alloc: Global, lines: &str) -> Result<bool, AllocError> {
    let given = [UNDECLARED, Part::Text(lines), END, Part::Text(SMALLEST)];
    History::of(&[answered(&given, &[REGISTERED], &[Mark::Done])], 1, 1).holds(alloc)
}

fn is_no_length(alloc: Global, lines: &str) -> Result<bool, AllocError> {
    let given = [UNDECLARED, Part::Text(lines), END, Part::Text(SMALLEST)];
    History::of(&[closed(&given, &[MALFORMED], &[Mark::NotFiled])], 0, 0).holds(alloc)
}

/// Vector 10: the longest body, a longer one, and the interim response.
pub(crate) fn long_bodies(alloc: Global) -> Result<bool, AllocError> {
    Ok(longest_body(alloc)? && longer_body(alloc)? && awaited_body(alloc)?)
}

fn longest_body(alloc: Global) -> Result<bool, AllocError> {
    let spaces = repeated(alloc, ' ', 1_048_492)?;
    let body = format!(in alloc; "{SMALLEST}{spaces}")?;
    let given = [Part::Filing("ACME", "k-1", &body)];
    History::of(&[answered(&given, &[REGISTERED], &[Mark::Done])], 1, 1).holds(alloc)
}

fn longer_body(alloc: Global) -> Result<bool, AllocError> {
    let refused = closed(
        &[Part::Text(
            "POST /filings/ACME HTTP/1.1\r\nHost: localhost\r\nIdempotency-Key: \"k-1\"\r\nExpect: 100-continue\r\nContent-Length: 1048577\r\n\r\n",
        )],
        &[TOO_LARGE],
        &[Mark::NotFiled],
    );
    History::of(&[refused], 0, 0).holds(alloc)
}

fn awaited_body(alloc: Global) -> Result<bool, AllocError> {
    let awaited = answered(
        &[Part::Text(
            "POST /filings/ACME HTTP/1.1\r\nHost: localhost\r\nIdempotency-Key: \"k-1\"\r\nExpect: 100-continue\r\nContent-Length: 5\r\n\r\nhello",
        )],
        &[CONTINUE, NOT_JSON],
        &[Mark::Done],
    );
    History::of(&[awaited], 1, 0).holds(alloc)
}

/// Vector 11: heads at the limit of their length.
pub(crate) fn long_heads(alloc: Global) -> Result<bool, AllocError> {
    Ok(heads_without_end(alloc)? && heads_with_end(alloc)?)
}

fn heads_without_end(alloc: Global) -> Result<bool, AllocError> {
    let unfinished = [
        answered(&[Part::Repeated('a', 16_383)], &[], &[]),
        answered(&[Part::Repeated(' ', 16_383)], &[], &[]),
    ];
    let refused = [closed(
        &[Part::Repeated('a', 16_384)],
        &[HEAD_TOO_LARGE],
        &[Mark::NotFiled],
    )];
    Ok(History::of(&unfinished, 0, 0).holds(alloc)? && History::of(&refused, 0, 0).holds(alloc)?)
}

/// The beginning of a GET, up to the value of its last field.
const ASKED: Part<'static> = Part::Text("GET /filings/ACME HTTP/1.1\r\nHost: localhost\r\nX: ");

fn heads_with_end(alloc: Global) -> Result<bool, AllocError> {
    let connections = [
        answered(
            &[ASKED, Part::Repeated('a', 16_332), END],
            &[NO_FILINGS],
            &[Mark::NotFiled],
        ),
        answered(
            &[Part::Text("\r\n"), ASKED, Part::Repeated('a', 16_332), END],
            &[NO_FILINGS],
            &[Mark::NotFiled],
        ),
        closed(
            &[ASKED, Part::Repeated('a', 16_333), END],
            &[HEAD_TOO_LARGE],
            &[Mark::NotFiled],
        ),
    ];
    History::of(&connections, 0, 0).holds(alloc)
}

/// Vector 12: how the bytes come changes nothing, and a body is no request.
pub(crate) fn byte_by_byte(alloc: Global) -> Result<bool, AllocError> {
    let repeated = [answered(&[FIRST; 3], &[REGISTERED; 3], &[Mark::Done; 3])];
    let bytes = History {
        piece: 1,
        ..History::of(&repeated, 1, 1)
    };
    let nested = [answered(
        &[Part::Filing("ACME", "k-2", REQUEST)],
        &[NOT_JSON],
        &[Mark::Done],
    )];
    Ok(bytes.holds(alloc)? && History::of(&nested, 1, 0).holds(alloc)?)
}

/// Vector 13: a request that is cut off gets no reply.
pub(crate) fn cut_off(alloc: Global) -> Result<bool, AllocError> {
    let Some(cut) = REQUEST.strip_suffix('}') else {
        return Ok(false);
    };
    History::of(&[answered(&[Part::Text(cut)], &[], &[])], 0, 0).holds(alloc)
}

/// Vector 14: a register that is full answers what it keeps, and no more.
pub(crate) fn full_register(alloc: Global) -> Result<bool, AllocError> {
    let kept = [answered(
        &[FIRST, Part::Filing("ACME", "k-2", REPORT), FIRST],
        &[REGISTERED, UNAVAILABLE, REGISTERED],
        &[Mark::Done, Mark::Unavailable, Mark::Done],
    )];
    let one = History {
        limit: 1,
        ..History::of(&kept, 1, 1)
    };
    let refused = [answered(&[FIRST], &[UNAVAILABLE], &[Mark::Unavailable])];
    let none = History {
        limit: 0,
        ..History::of(&refused, 0, 0)
    };
    Ok(one.holds(alloc)? && none.holds(alloc)?)
}

/// Vector 17: requests that file nothing, and other spellings of one that does.
pub(crate) fn other_requests(alloc: Global) -> Result<bool, AllocError> {
    Ok(refused_heads(alloc)? && told(alloc)? && posts_told(alloc)? && posts_filed(alloc)?)
}

/// Heads after whose refusal the connection closes.
fn refused_heads(alloc: Global) -> Result<bool, AllocError> {
    for (given, written) in [
        ("GET /filings/ACME HTTP/1.1\r\n\r\n", MALFORMED),
        (
            "GET /filings/ACME HTTP/1.1\r\nHost: localhost\r\nHost: localhost\r\n\r\n",
            MALFORMED,
        ),
        (
            "POST /filings/ACME HTTP/1.1\r\nHost: localhost\r\nTransfer-Encoding: chunked\r\nContent-Length: x\r\n\r\n",
            CODING,
        ),
    ] {
        if !History::of(
            &[closed(&[Part::Text(given)], &[written], &[Mark::NotFiled])],
            0,
            0,
        )
        .holds(alloc)?
        {
            return Ok(false);
        }
    }
    Ok(true)
}

/// Messages that are refused for their path or method.
fn told(alloc: Global) -> Result<bool, AllocError> {
    for (given, written) in [
        ("GET /other HTTP/1.1\r\nHost: localhost\r\n\r\n", NO_PATH),
        (
            "PUT /filings/ACME HTTP/1.1\r\nHost: localhost\r\n\r\n",
            NO_METHOD,
        ),
        (
            "HEAD /filings/ACME HTTP/1.1\r\nHost: localhost\r\n\r\n",
            NO_METHOD_OF_HEAD,
        ),
    ] {
        let given = [Part::Text(given)];
        if !History::of(&[answered(&given, &[written], &[Mark::NotFiled])], 0, 0).holds(alloc)? {
            return Ok(false);
        }
    }
    Ok(true)
}

/// Reports that are refused for their coding or key.
fn posts_told(alloc: Global) -> Result<bool, AllocError> {
    for (lines, written) in [
        (
            "Host: localhost\r\nIdempotency-Key: \"k-1\"\r\nContent-Encoding: gzip\r\n",
            CONTENT_CODING,
        ),
        ("Host: localhost\r\n", KEY_MISSING),
        ("Host: localhost\r\nIdempotency-Key: k-1\r\n", KEY_BAD),
    ] {
        let given = [
            Part::Text("POST /filings/ACME HTTP/1.1\r\n"),
            Part::Text(lines),
            Part::Text(LENGTH),
            Part::Text(REPORT),
        ];
        if !History::of(&[answered(&given, &[written], &[Mark::NotFiled])], 0, 0).holds(alloc)? {
            return Ok(false);
        }
    }
    Ok(true)
}

/// Reports that are registered.
fn posts_filed(alloc: Global) -> Result<bool, AllocError> {
    for connection in [
        answered(
            &[
                Part::Text(
                    "POST http://localhost/filings/ACME HTTP/1.1\r\nHost: localhost\r\nIdempotency-Key: \"k-1\"\r\n",
                ),
                Part::Text(LENGTH),
                Part::Text(REPORT),
            ],
            &[REGISTERED],
            &[Mark::Done],
        ),
        closed(
            &[
                Part::Text("POST /filings/ACME HTTP/1.0\r\nIdempotency-Key: \"k-1\"\r\n"),
                Part::Text(LENGTH),
                Part::Text(REPORT),
            ],
            &[REGISTERED_CLOSED],
            &[Mark::Done],
        ),
        closed(
            &[FIRST, END],
            &[REGISTERED, MALFORMED],
            &[Mark::Done, Mark::NotFiled],
        ),
    ] {
        if !History::of(&[connection], 1, 1).holds(alloc)? {
            return Ok(false);
        }
    }
    Ok(true)
}

/// That a body gets this reply, is kept and not registered.
pub(crate) fn is_refused_with(
    alloc: Global,
    body: &str,
    written: &str,
) -> Result<bool, AllocError> {
    let given = [Part::Filing("ACME", "k-1", body)];
    History::of(&[answered(&given, &[written], &[Mark::Done])], 1, 0).holds(alloc)
}
