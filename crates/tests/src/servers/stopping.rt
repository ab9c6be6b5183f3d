//! Connections that are stopped before or after a request.

use super::examples::{HEAD, SECOND_HEAD, SECOND_SMALL};
use super::{LIMIT, served};
use crate::databases::Fresh;
use example_texts::{REGISTERED, REGISTERED_SECOND, REPORT, Text, bytes_of};
use gateway_server::{Mark, Partly, Stop, completed, serve_until};
use http_wire::Device;
use intake_core::Intake;
use sqlite::{Alter, MemStore};
use std::alloc::{AllocError, Global};
use std::process::Abort;
use std::test::Fail;

/// What is given on a connection that is stopped, where, and what is written until then; and what is given on the next
/// connection, and written.
type Stopped = (Text, Stop, Text, Text, Text);

/// The key of a request before which a connection was stopped is free. What was registered before the reply was written
/// stays.
static STOPS: [Stopped; 2] = [
    (
        &[(HEAD, 1), (REPORT, 1), (SECOND_HEAD, 1), (REPORT, 1)],
        Stop::Before(2),
        &[(REGISTERED, 1)],
        &[(SECOND_SMALL, 1)],
        &[(REGISTERED_SECOND, 1)],
    ),
    (
        &[(HEAD, 1), (REPORT, 1)],
        Stop::After(1),
        &[],
        &[(HEAD, 1), (REPORT, 1)],
        &[(REGISTERED, 1)],
    ),
];

/// Serves a connection up to a stop.
fn stopped<S: Alter>(
    alloc: Global,
    intake: &mut Intake<S>,
    given: &[u8],
    stop: Stop,
    output: &mut Vec<u8>,
) -> Partly {
    serve_until(
        alloc,
        &mut Device::new(given),
        &mut Device::new(output),
        intake,
        stop,
    )
}

/// Whether a connection was stopped when it had completed the report of `ACME` under the key `k-1`, and nothing else.
fn has_completed_one(alloc: Global, given: &[u8], partly: &Partly) -> Result<bool, AllocError> {
    let list = completed(alloc, given, &partly.marks)?;
    let [request] = list.as_slice() else {
        return Ok(false);
    };
    Ok(
        partly.ended.is_none()
            && partly.marks.as_slice() == [Mark::Done].as_slice()
            && request.filer.as_str() == "ACME"
            && request.key.as_str() == "k-1"
            && request.body.as_slice() == REPORT.as_bytes(),
    )
}

/// Whether a connection is stopped as expected.
fn stops<S: Alter>(
    alloc: Global,
    intake: &mut Intake<S>,
    given: Text,
    stop: Stop,
    written: Text,
) -> Result<bool, Fail> {
    let given = bytes_of(alloc, given)?;
    let mut output = Vec::new(alloc);
    let partly = stopped(alloc, intake, &given, stop, &mut output);
    Ok(output == bytes_of(alloc, written)? && has_completed_one(alloc, &given, &partly)?)
}

/// Whether this is written for a connection.
fn writes<S: Alter>(
    alloc: Global,
    intake: &mut Intake<S>,
    given: Text,
    written: Text,
) -> Result<bool, Fail> {
    let given = bytes_of(alloc, given)?;
    let mut output = Vec::new(alloc);
    let _ = served(alloc, intake, &given, 4096, &mut output);
    Ok(output == bytes_of(alloc, written)?)
}

/// Whether two connections go as expected, one after the other, on a new intake.
fn goes<S: Fresh>(
    alloc: Global,
    (given, stop, written, next, reply): Stopped,
) -> Result<bool, Fail> {
    let mut intake = S::intake(alloc, LIMIT)?;
    Ok(stops(alloc, &mut intake, given, stop, written)? && writes(alloc, &mut intake, next, reply)?)
}

/// Asserts that each pair of connections goes as expected.
fn hold<S: Fresh>(rt: &impl Abort, alloc: Global) -> Result<(), Fail> {
    for &stopped in &STOPS {
        assert!(rt; goes::<S>(alloc, stopped)?, "{:?}", stopped.1);
    }
    Ok(())
}

#[test]
fn a_stop_keeps_what_was_completed(rt: HostRuntime) -> Result<(), Fail> {
    hold::<MemStore>(&rt, rt.alloc())
}
