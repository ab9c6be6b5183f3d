//! The disk stops at each call of a change in turn, and the outbox is opened again from what it left.

use super::calls::open;
use super::{Call, Expected, ONE, holds, is_made, with_entry};
use crate::stores::stops::{Trial, hold};
use example_texts::NO_FACTS;
use outbox_core::{Outbox, State, StoreFault};
use sqlite::{Alter, Connection};
use std::alloc::Global;

/// A call on an outbox with one entry, which is open.
struct Change {
    call: Call,
    /// The entries after it.
    after: &'static [Expected],
}

static CHANGES: [Change; 4] = [
    Change {
        call: Call::Put("k-2", false, b"{}"),
        after: &[
            ("k-1", false, NO_FACTS, State::Open),
            ("k-2", false, b"{}", State::Open),
        ],
    },
    Change {
        call: Call::Put("k-2", true, b"{}"),
        after: &[
            ("k-1", false, NO_FACTS, State::Open),
            ("k-2", true, b"{}", State::Open),
        ],
    },
    Change {
        call: Call::Reply(1, 201, b"{\"number\":1,\"status\":\"registered\"}"),
        after: &[("k-1", false, NO_FACTS, State::Confirmed(1))],
    },
    Change {
        call: Call::Reply(
            1,
            422,
            b"{\"findings\":[],\"reason\":\"refused\",\"status\":422,\"title\":\"Unprocessable Content\",\"type\":\"about:blank\"}",
        ),
        after: &[("k-1", false, NO_FACTS, State::Refused)],
    },
];

/// Whether the outbox has the entries from before or after a change, and those from after it if it was made.
fn is_left<S: Alter>(
    outbox: &mut Outbox<S>,
    after: &[Expected],
    made: bool,
) -> Result<bool, StoreFault> {
    Ok(holds(outbox, after)? || (!made && holds(outbox, &ONE)?))
}

impl Trial for Change {
    fn make<S: Alter + Drop>(&self, alloc: Global, conn: Connection<S>) -> Option<Connection<S>> {
        with_entry(alloc, conn)
    }

    fn change<S: Alter + Drop>(
        &self,
        alloc: Global,
        conn: Connection<S>,
    ) -> Option<(Connection<S>, bool)> {
        let mut outbox = open(alloc, conn).ok()?;
        let is_made = matches!(is_made(alloc, &mut outbox, self.call), Ok(true));
        Some((outbox.into_conn(), is_made))
    }

    fn look<S: Alter + Drop>(
        &self,
        alloc: Global,
        conn: Connection<S>,
        answered: bool,
    ) -> Option<(Connection<S>, bool)> {
        let mut outbox = open(alloc, conn).ok()?;
        let is_left = matches!(is_left(&mut outbox, self.after, answered), Ok(true));
        Some((outbox.into_conn(), is_left))
    }
}

#[test]
fn a_stop_leaves_the_entries_of_before_or_after(rt: HostRuntime) {
    for change in &CHANGES {
        hold(&rt, rt.alloc(), change);
    }
}
