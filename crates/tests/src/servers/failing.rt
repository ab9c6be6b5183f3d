//! Connections that fail in the middle.

use super::LIMIT;
use super::examples::{HEAD, LIST};
use crate::databases::Fresh;
use example_texts::{Giving, ONE_FILING, REGISTERED, REPORT, Taking, Text, bytes_of, front};
use gateway_server::{Ended, serve};
use http_wire::{ConnFault, Device};
use intake_core::Intake;
use sqlite::{Alter, MemStore};
use std::alloc::Global;
use std::process::Abort;
use std::test::Fail;

/// A filing, the same twice again, and a list, 1,497 bytes.
const GIVEN: Text = &[
    (HEAD, 1),
    (REPORT, 1),
    (HEAD, 1),
    (REPORT, 1),
    (HEAD, 1),
    (REPORT, 1),
    (LIST, 1),
];

/// Three replies of 110 bytes, and one of 107.
const WRITTEN: Text = &[(REGISTERED, 3), (ONE_FILING, 1)];

/// Serves a connection of 100 bytes a read and 25 a write, of which one may fail.
fn served<S: Alter>(
    alloc: Global,
    intake: &mut Intake<S>,
    given: &[u8],
    output: &mut Vec<u8>,
    failing_read: Option<usize>,
    failing_write: Option<usize>,
) -> Ended {
    let reader = Giving {
        rest: given,
        most: 100,
        fails: failing_read,
    };
    let writer = Taking {
        output,
        most: 25,
        fails: failing_write,
    };
    serve(
        alloc,
        &mut Device::new(reader),
        &mut Device::new(writer),
        intake,
    )
    .ended
}

/// Whether a connection to a new intake writes these bytes and ends so, if the read or the write fails before which
/// so many don't.
fn goes<S: Fresh>(
    alloc: Global,
    failing_read: Option<usize>,
    failing_write: Option<usize>,
    written: &[u8],
    ended: Ended,
) -> Result<bool, Fail> {
    let mut intake = S::intake(alloc, LIMIT)?;
    let given = bytes_of(alloc, GIVEN)?;
    let mut output = Vec::new(alloc);
    let so = served(
        alloc,
        &mut intake,
        &given,
        &mut output,
        failing_read,
        failing_write,
    );
    Ok(output.as_slice() == written && so == ended)
}

/// How many bytes are written before the read fails that comes after 0, 1, 2, .. others: requests end after 486, 972,
/// 1,458 and 1,497 bytes, each of which is answered before more is read.
const BEFORE_A_READ: [usize; 16] = [
    0, 0, 0, 0, 0, 110, 110, 110, 110, 110, 220, 220, 220, 220, 220, 437,
];

/// Asserts what comes of each read that fails.
fn each_read<S: Fresh>(rt: &impl Abort, alloc: Global) -> Result<(), Fail> {
    let written = bytes_of(alloc, WRITTEN)?;
    for (reads, &count) in BEFORE_A_READ.iter().enumerate() {
        let fault = Ended::Fault(ConnFault::Read);
        let so = goes::<S>(alloc, Some(reads), None, front(&written, count), fault)?;
        assert!(rt; so, "after {reads} reads");
    }
    Ok(())
}

#[test]
fn each_read_fails_once(rt: HostRuntime) -> Result<(), Fail> {
    each_read::<MemStore>(&rt, rt.alloc())
}

/// Asserts what comes of each write that fails. Each reply takes five writes.
fn each_write<S: Fresh>(rt: &impl Abort, alloc: Global) -> Result<(), Fail> {
    let written = bytes_of(alloc, WRITTEN)?;
    for writes in 0..20 {
        let sent = 25 * (writes % 5);
        let count = 110 * (writes / 5) + sent;
        let fault = Ended::Fault(ConnFault::Write { sent });
        let so = goes::<S>(alloc, None, Some(writes), front(&written, count), fault)?;
        assert!(rt; so, "after {writes} writes");
    }
    Ok(())
}

#[test]
fn each_write_fails_once(rt: HostRuntime) -> Result<(), Fail> {
    each_write::<MemStore>(&rt, rt.alloc())
}

/// Asserts that neither the read at the end nor a write comes after all is given and written.
fn none<S: Fresh>(rt: &impl Abort, alloc: Global) -> Result<(), Fail> {
    let written = bytes_of(alloc, WRITTEN)?;
    assert!(rt; goes::<S>(alloc, Some(16), Some(20), &written, Ended::InputEnded)?);
    Ok(())
}

#[test]
fn no_call_comes_after_the_last(rt: HostRuntime) -> Result<(), Fail> {
    none::<MemStore>(&rt, rt.alloc())
}
