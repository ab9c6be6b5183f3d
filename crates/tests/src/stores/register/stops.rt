//! Registers in files on disks in memory, which stop at a call of an intake.

use super::calls::{intake_over, open};
use super::{ONE, Request, holds, made, submit_all};
use crate::stores::stops::{Trial, hold};
use example_texts::REPORT;
use register_store::{Store, StoreFault};
use sqlite::{Alter, Connection};
use std::alloc::Global;

/// A second request, for which a register of one report is asked.
struct Second(Request);

/// Whether the register has the first request and the second one, or the first alone if the second was not answered.
fn is_left<S: Alter>(
    alloc: Global,
    store: &mut Store<S>,
    second: Request,
    answered: bool,
) -> Result<bool, StoreFault> {
    Ok(holds(alloc, store, &[ONE[0], second])? || (!answered && holds(alloc, store, &ONE)?))
}

impl Trial for Second {
    fn make<S: Alter + Drop>(&self, alloc: Global, conn: Connection<S>) -> Option<Connection<S>> {
        made(alloc, conn, &ONE)
    }

    /// Asks for a repeat, too.
    fn change<S: Alter + Drop>(
        &self,
        alloc: Global,
        conn: Connection<S>,
    ) -> Option<(Connection<S>, bool)> {
        let mut intake = intake_over(alloc, open(alloc, conn).ok()?);
        let is_answered = submit_all(alloc, &mut intake, &[ONE[0], self.0]).is_ok();
        Some((intake.into_store().into_conn(), is_answered))
    }

    fn look<S: Alter + Drop>(
        &self,
        alloc: Global,
        conn: Connection<S>,
        answered: bool,
    ) -> Option<(Connection<S>, bool)> {
        let mut store = open(alloc, conn).ok()?;
        let is_left = matches!(is_left(alloc, &mut store, self.0, answered), Ok(true));
        Some((store.into_conn(), is_left))
    }
}

/// A report and a body that is no report, and both again to replace filing 1. A refused one is kept with its target,
/// too.
static SECONDS: [Second; 4] = [
    Second(("k-2", false, REPORT, 2)),
    Second(("k-2", false, "", 0)),
    Second(("k-2", true, REPORT, 2)),
    Second(("k-2", true, "", 0)),
];

#[test]
fn a_stop_leaves_the_rows_of_before_or_after(rt: HostRuntime) {
    for second in &SECONDS {
        hold(&rt, rt.alloc(), second);
    }
}
