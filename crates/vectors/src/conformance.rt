//! The worked examples of the protocol, in two calls, since a test has a minute and is run with checks as well.

use crate::connection::registered;
use crate::{NUMBERS, run};
use std::test::Fail;

#[test]
fn vectors_1_to_14_pass(rt: HostRuntime) -> Result<(), Fail> {
    let report = run(rt.alloc(), &NUMBERS[..14])?;
    assert_eq!(rt; report.passed, 14);
    assert!(rt; report.failed.is_empty());
    Ok(())
}

#[test]
fn vectors_15_to_27_pass(rt: HostRuntime) -> Result<(), Fail> {
    let report = run(rt.alloc(), &NUMBERS[14..])?;
    assert_eq!(rt; report.passed, 13);
    assert!(rt; report.failed.is_empty());
    Ok(())
}

#[test]
fn an_intake_that_keeps_nothing_fails_the_first(rt: HostRuntime) -> Result<(), Fail> {
    assert_eq!(rt; registered(rt.alloc(), 0)?, false);
    Ok(())
}
