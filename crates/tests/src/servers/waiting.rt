//! Clients that wait for what they are due before they go on.

use super::LIMIT;
use super::examples::{HEAD, SECOND_HEAD, SECOND_SMALL, SMALL};
use crate::databases::Fresh;
use example_texts::{
    CONTINUE, NOT_JSON, REGISTERED, REGISTERED_SECOND, REPORT, Telling, Text, Turn, Waiting,
    bytes_of,
};
use gateway_server::{Ended, serve};
use http_wire::Device;
use intake_core::Intake;
use sqlite::{Alter, MemStore};
use std::alloc::Global;
use std::cell::Cell;
use std::process::Abort;
use std::test::Fail;

/// A head that asks for an interim response, and whose body has five bytes.
const AWAITING: &str =
    "POST /filings/ACME HTTP/1.1\r\nHost: h\r\nIdempotency-Key: \"k-1\"\r\nExpect: 100-continue\r\nContent-Length: 5\r\n\r\n";

/// What a client sends in turn, and what is written for all of it.
type Exchange = (&'static [Turn], Text);

/// The replies to the reports have 110 bytes; the interim response has 25, and the reply after it 209.
static EXCHANGES: [Exchange; 3] = [
    (
        &[(SMALL, 0), (SECOND_SMALL, 110), ("", 220)],
        &[(REGISTERED, 1), (REGISTERED_SECOND, 1)],
    ),
    (
        &[
            (HEAD, 0),
            (REPORT, 0),
            (SECOND_HEAD, 110),
            (REPORT, 110),
            ("", 220),
        ],
        &[(REGISTERED, 1), (REGISTERED_SECOND, 1)],
    ),
    (
        &[(AWAITING, 0), ("hello", 25), ("", 234)],
        &[(CONTINUE, 1), (NOT_JSON, 1)],
    ),
];

/// Serves a client that sends these in turn.
fn served<S: Alter>(
    alloc: Global,
    intake: &mut Intake<S>,
    turns: &[Turn],
    output: &mut Vec<u8>,
) -> Ended {
    let written = Cell::new(0);
    let reader = Waiting {
        turns,
        written: &written,
    };
    let writer = Telling {
        output,
        written: &written,
    };
    serve(
        alloc,
        &mut Device::new(reader),
        &mut Device::new(writer),
        intake,
    )
    .ended
}

/// Whether all is written for a client of a new intake that sends these in turn.
fn goes<S: Fresh>(alloc: Global, (turns, written): Exchange) -> Result<bool, Fail> {
    let mut intake = S::intake(alloc, LIMIT)?;
    let mut output = Vec::new(alloc);
    let ended = served(alloc, &mut intake, turns, &mut output);
    Ok(output.as_slice() == bytes_of(alloc, written)?.as_slice() && ended == Ended::InputEnded)
}

/// Asserts that all is written for each client.
fn hold<S: Fresh>(rt: &impl Abort, alloc: Global) -> Result<(), Fail> {
    for (number, &exchange) in EXCHANGES.iter().enumerate() {
        assert!(rt; goes::<S>(alloc, exchange)?, "exchange {number}");
    }
    Ok(())
}

#[test]
fn what_is_due_is_written_before_more_is_read(rt: HostRuntime) -> Result<(), Fail> {
    hold::<MemStore>(&rt, rt.alloc())
}
