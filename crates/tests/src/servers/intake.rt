//! Requests that are submitted to an intake.

use crate::databases::Fresh;
use example_texts::SMALLEST;
use intake_core::{Answer, Intake, Unavailable};
use key_string::{KeyText, is_filer};
use sqlite::{Alter, MemStore};
use std::alloc::Global;
use std::process::Abort;
use std::test::Fail;

/// Submits the smallest report of a filer under a key.
fn submit<S: Alter>(
    intake: &mut Intake<S>,
    filer: &str,
    key: &KeyText,
) -> Result<Answer, Unavailable> {
    let body = SMALLEST.as_bytes();
    if !is_filer(filer) || body.len() > 1000 {
        return Err(Unavailable::Down);
    }
    intake.submit(filer, None, key, body)
}

/// The number of the report of a filer under the key of a number, and whether it is a repeat.
fn registered<S: Alter>(
    alloc: Global,
    intake: &mut Intake<S>,
    filer: &str,
    key: u64,
) -> Result<Option<(u64, bool)>, Fail> {
    let key = KeyText::new(alloc, format!(in alloc; "k-{key}")?.as_str())?;
    match submit(intake, filer, &key)? {
        Answer::Registered { number, repeat } => Ok(Some((number, repeat))),
        _ => Ok(None),
    }
}

/// Asserts that the reports of `ACME` under 65 keys are registered, first or again.
fn are_registered<S: Alter>(
    rt: &impl Abort,
    alloc: Global,
    intake: &mut Intake<S>,
    repeat: bool,
) -> Result<(), Fail> {
    for number in 1..=65 {
        let answer = registered(alloc, intake, "ACME", number)?;
        assert_eq!(rt; answer, Some((number, repeat)));
    }
    Ok(())
}

/// Asserts that repeats are answered as such, and that the same key of another filer is another one.
fn are_repeated<S: Fresh>(rt: &impl Abort, alloc: Global) -> Result<(), Fail> {
    let mut intake: Intake<S> = S::intake(alloc, 100)?;
    are_registered(rt, alloc, &mut intake, false)?;
    are_registered(rt, alloc, &mut intake, true)?;
    let other = registered(alloc, &mut intake, "BETA", 65)?;
    assert_eq!(rt; other, Some((66, false)));
    Ok(())
}

/// One key more than are remembered, each sent again: whether the cache answers or the tables shows nowhere.
#[test]
fn repeats_of_more_keys_than_are_remembered(rt: HostRuntime) -> Result<(), Fail> {
    are_repeated::<MemStore>(&rt, rt.alloc())
}
